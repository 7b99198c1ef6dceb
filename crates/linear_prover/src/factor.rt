//! Factors of the least combination.

ghost use Rattle.std.specs.Prelude.{◌≡◌, ◌/◌, pos};
ghost use Rattle.logic_terms.specs.View.{term};
ghost use Rattle.linear_forms.specs.View.{linear};
ghost use Rattle.linear_prover.specs.Forms.{factor as factor_of};
ghost use Rattle.linear_prover.specs.Values.{narrow};

use crate::forms::coefficient;
use linear_forms::{LinearForm, gcd};
use logic_terms::Term;

/// The quotient, if it fits; 0 where the divisor is 0.
fn quotient(x: u128, by: u128) -> Option<i128>
    ensures { result ≡ narrow (pos (x / by)) }
{
    if by == 0 {
        return Some(0);
    }
    let whole = x / by;
    if whole <= i128::MAX as u128 {
        Some(whole as i128)
    } else {
        None
    }
}

/// What the first form is multiplied by, for the least combination with the second that is without the variable.
pub fn factor(v: &Term, f: &LinearForm, g: &LinearForm) -> Option<i128>
    ensures { result ≡ narrow (factor_of (term v.now) (linear f.now) (linear g.now)) }
{
    let first = coefficient(v, f.parts.as_slice()).unsigned_abs();
    let second = coefficient(v, g.parts.as_slice()).unsigned_abs();
    quotient(second, gcd(first, second))
}
