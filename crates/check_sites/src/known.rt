//! What is known of the value of an expression before a run.

ghost use Rattle.std.specs.Prelude.{◌≡◌};
ghost use Rattle.std.specs.Option.{option_copied};
ghost use Rattle.typed_units.specs.View.{expr, scalar_at};
ghost use Rattle.check_sites.specs.Listed.{scalar_of};
ghost use Rattle.check_sites.specs.Known.{are_exponents, is_known_exponent, is_other, static_number};

use ada_values::{INTEGER_LAST, Scalar, Shape, ShapeList, Value};
use typed_units::{Expr, ExprNode};

/// The number that a static expression is.
pub(crate) fn static_number(shapes: &ShapeList, e: &Expr) -> Option<i128>
    ensures { result ≡ static_number (expr shapes.now e.now) }
{
    match e.node.get() {
        ExprNode::Static(Value::Int(v)) => Some(*v),
        _ => None,
    }
}

/// Whether a static value is known, and another than `v`.
pub(crate) fn is_other(known: Option<i128>, v: i128) -> bool
    ensures { result ≡ is_other known v }
{
    match known {
        Some(x) => x != v,
        None => false,
    }
}

fn are_exponents(s: &Scalar) -> bool
    ensures { result ≡ are_exponents s.now }
{
    s.hi < s.lo || 0 <= s.lo && s.hi <= INTEGER_LAST
}

/// Whether all that the expression may be is an exponent.
pub(crate) fn is_known_exponent(shapes: &ShapeList, e: &Expr) -> bool
    ensures { result ≡ is_known_exponent shapes.now (expr shapes.now e.now) }
{
    if let Some(v) = static_number(shapes, e) {
        return 0 <= v && v <= INTEGER_LAST;
    }
    are_exponents(&scalar_at(shapes, e.subtype))
}

/// The scalar subtype of numbers of a shape; an empty one where it has no numbers.
fn scalar_in(shape: Option<&Shape>) -> Scalar
    ensures { result ≡ scalar_of (option_copied shape.entry) }
{
    match shape {
        Some(Shape::Number(s)) => *s,
        _ => Scalar {
            lo: 1,
            hi: 0,
            base_lo: 1,
            base_hi: 0,
            modulus: None,
        },
    }
}

/// The scalar subtype of a number; an empty one where it is no number.
#[tactic(auto, using(crate::proofs::Found::scalar_found))]
pub(crate) fn scalar_at(shapes: &ShapeList, subtype: u32) -> Scalar
    ensures { result ≡ scalar_at shapes.now subtype }
{
    scalar_in(shapes.get(subtype as usize))
}
