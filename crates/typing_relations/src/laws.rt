//! What accepted expressions obey.

ghost use Rattle.std.specs.Prelude.{◌≡◌, ℕ, ℤ};
ghost use Rattle.syntax_view.specs.Trees as tree;
ghost use Rattle.typed_units.specs.declared.expressions.Expr.{Expr};
ghost use Rattle.type_base.specs.Scope.{Scope};
ghost use Rattle.type_base.specs.declared.seen.Seen.TheVariants.{Number, Typed};
ghost use Rattle.type_base.specs.declared.seen.Want.{Want};
ghost use Rattle.typing_relations.specs.Obeys.{HasNumber, HasType, ItemHas};
ghost use Rattle.typing_rules.specs.Reading.{item_seen, seen};

/// An expression that is accepted obeys the rules of the language, in each scope and each context: the typed expression that it is, or
/// the universal number, is built up from its parts by these rules alone, of which each has a line.
pub fn accepted_obey_the_rules()
    ensures typed { (c : Scope) (w : Want) (e : tree.Expr) (t : ℕ) (x : Expr) → seen c w e ≡ Typed t x → HasType c w e t x }
    ensures numbers { (c : Scope) (w : Want) (e : tree.Expr) (n : ℤ) → seen c w e ≡ Number n → HasNumber c w e n }
    ensures items { (c : Scope) (w : Want) (i : tree.Item) (t : ℕ) (x : Expr) → item_seen c w i ≡ Typed t x → ItemHas c w i (Typed t x) }
    ensures item_numbers { (c : Scope) (w : Want) (i : tree.Item) (n : ℤ) → item_seen c w i ≡ Number n → ItemHas c w i (Number n) }
{}
