//! The laws of forms.

ghost use Rattle.std.specs.Prelude.{◌≡◌, ◌↔◌, pos, ◌≤ℤ◌, ◌+ℤ◌, ◌*ℤ◌, ℤ, List};
ghost use Rattle.logic_terms.specs.Node.{Node};
ghost use Rattle.logic_terms.specs.Value.{Value, as_number};
ghost use Rattle.logic_terms.specs.Meaning.{World, meaning};
ghost use Rattle.linear_forms.specs.Form.{Form, form_value, form_of_node, combined, tightened};
ghost use Rattle.linear_forms.specs.Ordered.{IsOrdered, coefficient_of};

/// The value of a sum of forms is the sum of the values, and the form of a term has the term's value, in each world and for
/// all values of the bound variables.
#[tactic(auto, using(crate::proofs::Values::combined_value, crate::proofs::Terms::node_value))]
pub fn laws_of_forms()
    ensures sum { (w : World) (vs : List Value) (m : ℤ) (a : Form) (n : ℤ) (b : Form) → form_value w vs (combined m a n b) ≡ (m *ℤ form_value w vs a) +ℤ (n *ℤ form_value w vs b) }
    ensures term { (w : World) (vs : List Value) (t : Node) → form_value w vs (form_of_node t) ≡ as_number (meaning w vs t) }
{}

/// A tightened form is at least 0 exactly where the form is, at whole numbers.
#[tactic(auto, using(crate::proofs::Tightening::tightened_solutions))]
pub fn laws_of_tightening()
    ensures { (w : World) (vs : List Value) (f : Form) → (pos 0 ≤ℤ form_value w vs f) ↔ (pos 0 ≤ℤ form_value w vs (tightened f)) }
{}

/// Forms have one spelling. The form of a term and a sum of forms have their variables in the order of their texts, each once,
/// and no coefficient 0; so has the tightened form of one that has. The coefficients of a sum are the sums of the
/// coefficients. Two such forms with one constant and the same coefficients are one form.
#[tactic(auto, using(crate::proofs::Ordering::node_ordered, crate::proofs::Ordering::combined_ordered, crate::proofs::Ordering::tightened_ordered, crate::proofs::Ordering::forms_unique, crate::proofs::Sums::combined_coefficient))]
pub fn laws_of_order()
    ensures term { (t : Node) → IsOrdered (form_of_node t) }
    ensures sum { (m : ℤ) (a : Form) (n : ℤ) (b : Form) → IsOrdered (combined m a n b) }
    ensures tightened { (f : Form) → IsOrdered f → IsOrdered (tightened f) }
    ensures coefficients { (v : Node) (m : ℤ) (a : Form) (n : ℤ) (b : Form) → coefficient_of v (combined m a n b).monomials ≡ (m *ℤ coefficient_of v a.monomials) +ℤ (n *ℤ coefficient_of v b.monomials) }
    ensures unique { (f : Form) (g : Form) → IsOrdered f → IsOrdered g → f.constant ≡ g.constant → ((v : Node) → coefficient_of v f.monomials ≡ coefficient_of v g.monomials) → f ≡ g }
{}
