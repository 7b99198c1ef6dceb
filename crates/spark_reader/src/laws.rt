//! The laws of reading.

ghost use Rattle.std.specs.Prelude.{◌≡◌, List, ℕ};
ghost use Rattle.ada_syntax.specs.declared.units.SourceUnit.{SourceUnit};
ghost use Rattle.spark_reader.specs.Reads.{Reads, Refuses};
ghost use Rattle.spark_reader.specs.declared.refusal.ReadRefusal.{ReadRefusal};

/// At most one answer is right for a text: it has at most one tree, and none where a refusal is right, and the refusal is
/// determined.
#[tactic(auto, using(crate::proofs::Only::one_tree, crate::proofs::Only::not_both, crate::proofs::Only::one_refusal))]
pub fn one_answer()
    ensures tree { (text : List ℕ) (u : SourceUnit) (v : SourceUnit) → Reads text u → Reads text v → u ≡ v }
    ensures either { (text : List ℕ) (u : SourceUnit) (r : ReadRefusal) → Reads text u → Refuses text r → ⊥ }
    ensures refusal { (text : List ℕ) (r : ReadRefusal) (s : ReadRefusal) → Refuses text r → Refuses text s → r ≡ s }
{}
