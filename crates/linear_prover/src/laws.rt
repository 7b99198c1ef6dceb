//! What the answers say of the forms.

ghost use Rattle.std.specs.Prelude.{◌≡◌, ℕ, ℤ, List};
ghost use Rattle.logic_terms.specs.Value.{Value};
ghost use Rattle.logic_terms.specs.Meaning.{World};
ghost use Rattle.linear_forms.specs.Form.{Form};
ghost use Rattle.linear_forms.specs.Ordered.{IsOrdered};
ghost use Rattle.cert_lines.specs.Line.{Step};
ghost use Rattle.linear_prover.specs.Forms.{variables_of};
ghost use Rattle.linear_prover.specs.Machine.{point, refuted};
ghost use Rattle.linear_prover.specs.Decided.{decided, decide_of};
ghost use Rattle.linear_prover.specs.Points.{AreAll, Gives, IsAtLeastZero};
ghost use Rattle.linear_prover.specs.Refuting.{Refutes};

/// Where the answer is a point, each form is at least 0 in each world in which the variables have its numbers. The forms are to
/// have their variables in the order of their texts, each once, and no coefficient 0, as `form_of` makes them.
pub fn laws_of_points()
    ensures { (fs : List Form) (budget : ℕ) (ns : List ℤ) (left : ℕ) → AreAll IsOrdered fs → decide_of fs budget ≡ decided (point ns) left → (w : World) (vs : List Value) → Gives w vs (variables_of fs) ns → AreAll (IsAtLeastZero w vs) fs }
{}

/// Where the answer is a refutation, its lines are what a certificate asks: they run from the forms, and the last form is a
/// negative constant, or without lines one of the inputs is. So in no world are all the forms at least 0.
pub fn laws_of_refutations()
    ensures lines { (fs : List Form) (budget : ℕ) (ls : List Step) (left : ℕ) → decide_of fs budget ≡ decided (refuted ls) left → Refutes fs ls }
    ensures no_point { (fs : List Form) (budget : ℕ) (ls : List Step) (left : ℕ) → decide_of fs budget ≡ decided (refuted ls) left → (w : World) (vs : List Value) → AreAll (IsAtLeastZero w vs) fs → ⊥ }
{}
