//! The prover that looks at what is given.

ghost use Rattle.std.specs.Prelude.{◌≡◌, map};
ghost use Rattle.logic_terms.specs.View.{formula};
ghost use Rattle.form_prover.specs.Given.{some_equals};
ghost use Rattle.form_prover.specs.Formulas.{static_truth};

use crate::formulas::are_related;
use first_form::{Assertion, Operand};
use logic_terms::{Formula, FormulaList, same_formula};

/// Whether one of the hypotheses equals the conclusion.
pub fn has_equal(hypotheses: &FormulaList, conclusion: &Formula) -> bool
    ensures { result ≡ some_equals (map formula hypotheses.now) (formula conclusion.now) }
{
    for hypothesis in hypotheses.as_slice() {
        if same_formula(hypothesis, conclusion) {
            return true;
        }
    }
    false
}

/// The truth of a condition that compares two numbers. Any other has a symbol, and does not compute.
pub fn truth_of(assertion: &Assertion) -> Option<bool>
    ensures { result ≡ static_truth assertion.now }
{
    match (&assertion.left.operand, &assertion.right.operand) {
        (Operand::Number(left), Operand::Number(right)) => {
            Some(are_related(assertion.relation, *left, *right))
        }
        _ => None,
    }
}
