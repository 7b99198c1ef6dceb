//! The checks of operators.

ghost use Rattle.std.specs.Prelude.{◌≡◌, ◌++◌, None};
ghost use Rattle.std.specs.Option.{option_to_list};
ghost use Rattle.typed_units.specs.View.{expr};
ghost use Rattle.check_sites.specs.Known.{static_number};
ghost use Rattle.check_sites.specs.Listed.{listed};
ghost use Rattle.check_sites.specs.Sites.{may_overflow, overflow_check, right_check};

use crate::known::{is_known_exponent, is_other, static_number};
use crate::site::{Checks, check_if};
use ada_values::{Op, Place, Scalar, ShapeList};
use typed_units::{CheckKind, Expr, SiteKey};

/// Whether the operation of a signed type may have a result outside its base range. `divisor` is the right operand's value
/// where it is static.
fn may_overflow(op: Op, divisor: Option<i128>) -> bool
    ensures { result ≡ may_overflow op divisor }
{
    match op {
        Op::Quo => !is_other(divisor, -1),
        Op::Rem | Op::Mod => false,
        Op::Add | Op::Sub | Op::Mul | Op::Pow | Op::Neg | Op::Abs => true,
    }
}

/// The check of an operator's result.
pub(crate) fn overflow_check(
    op: Op,
    s: &Scalar,
    divisor: Option<i128>,
    place: Place,
) -> Option<SiteKey>
    ensures { option_to_list result ≡ overflow_check op s.now divisor place }
{
    let exists = s.modulus.is_none() && may_overflow(op, divisor);
    check_if(exists, place, CheckKind::Overflow)
}

/// The check of a right operand: a divisor's stands at the operator, an exponent's at the exponent.
fn right_check(shapes: &ShapeList, op: Op, place: Place, right: &Expr) -> Option<SiteKey>
    ensures { option_to_list result ≡ right_check shapes.now op place (expr shapes.now right.now) }
{
    match op {
        Op::Quo | Op::Rem | Op::Mod => {
            let exists = !is_other(static_number(shapes, right), 0);
            check_if(exists, place, CheckKind::Division)
        }
        Op::Pow => {
            let exists = !is_known_exponent(shapes, right);
            check_if(exists, right.place, CheckKind::Range)
        }
        _ => None,
    }
}

/// The checks of an operator of two operands.
pub(crate) fn binary_checks(
    shapes: &ShapeList,
    op: Op,
    s: &Scalar,
    place: Place,
    right: &Expr,
) -> Checks
    ensures { listed result ≡ overflow_check op s.now (static_number (expr shapes.now right.now)) place ++ right_check shapes.now op place (expr shapes.now right.now) }
{
    Checks {
        first: overflow_check(op, s, static_number(shapes, right), place),
        second: right_check(shapes, op, place, right),
    }
}
