//! The laws of texts and of their order.

ghost use Rattle.std.specs.Prelude.{◌≡◌, true, false};
ghost use Rattle.logic_terms.specs.Node.{Node};
ghost use Rattle.logic_terms.specs.Text.{node_text, precedes};

/// Terms and formulas with one text are one.
#[tactic(auto, using(crate::proofs::Apart::texts_apart))]
pub fn texts_are_injective()
    ensures { (a : Node) (b : Node) → node_text a ≡ node_text b → a ≡ b }
{}

/// The order of texts is a strict order, and of two that differ one comes first.
#[tactic(auto, using(crate::proofs::TextOrder::precedes_chain, crate::proofs::TextOrder::precedes_itself, crate::proofs::TextOrder::precedes_neither))]
pub fn laws_of_text_order()
    ensures chain { (a : Node) (b : Node) (c : Node) → precedes a b ≡ true → precedes b c ≡ true → precedes a c ≡ true }
    ensures itself { (a : Node) → precedes a a ≡ false }
    ensures neither { (a : Node) (b : Node) → precedes a b ≡ false → precedes b a ≡ false → a ≡ b }
{}
