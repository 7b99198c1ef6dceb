//! Ranges over what is seen of their bounds.

ghost use Rattle.std.specs.Prelude.{◌≡◌, IfOk};
ghost use Rattle.typing_rules.specs.Ranges.{bounds_reach, found_expr, no_range, static_number, static_range, static_value, subtype_reach};

use ada_values::{Place, Value};
use expression_rules::number_in;
use std::alloc::Global;
use type_base::{Agreed, Code, Form, Refusal, Seen, Starved, made};
use typed_units::{Expr, ExprNode};
use typing_rules::{Between, Found, Reach};

/// A range by two bounds that have been read.
pub fn bounds_reach(bounds: Agreed) -> Reach
    ensures { result ≡ bounds_reach bounds }
{
    match bounds {
        Agreed::Refused(refusal) => Reach::Refused(refusal),
        Agreed::Unknown => Reach::Unknown,
        Agreed::Numbers(a, b) => Reach::Numbers(a, b),
        Agreed::Typed(ty, x, y) => Reach::Between(Between {
            subtype: ty,
            low: x,
            high: y,
        }),
    }
}

/// A range of two static bounds, of a subtype, whose bounds have the other one.
pub fn static_range(
    alloc: Global,
    place: Place,
    subtype: u32,
    of: u32,
    first: i128,
    last: i128,
) -> Result<Between, Starved>
    ensures { IfOk result (λ b. b ≡ static_range place subtype of first last) }
{
    let low = made(alloc, place, of, ExprNode::Static(Value::Int(first)))?;
    match made(alloc, place, of, ExprNode::Static(Value::Int(last))) {
        Ok(high) => Ok(Between { subtype, low, high }),
        Err(error) => Err(error),
    }
}

/// A subtype's name stands for its range, by a rule that is broken where it isn't scalar.
pub fn subtype_reach(
    alloc: Global,
    code: Code,
    place: Place,
    subtype: u32,
    form: Option<Form>,
) -> Result<Reach, Starved>
    ensures { IfOk result (λ r. r ≡ subtype_reach code place subtype form) }
{
    match form {
        Some(Form::Number(_, scalar)) => {
            match static_range(alloc, place, subtype, subtype, scalar.lo, scalar.hi) {
                Ok(range) => Ok(Reach::Between(range)),
                Err(error) => Err(error),
            }
        }
        Some(_) => Ok(Reach::Refused(Refusal { code, place })),
        None => Ok(Reach::Unknown),
    }
}

/// What stands for a range and is none, by a rule.
pub fn no_range(code: Code, place: Place, seen: Seen) -> Reach
    ensures { result ≡ no_range code place seen }
{
    match seen {
        Seen::Refused(refusal) => Reach::Refused(refusal),
        Seen::Unknown => Reach::Unknown,
        Seen::Number(_) | Seen::Typed(_, _) => Reach::Refused(Refusal { code, place }),
    }
}

/// The expression that is seen.
pub fn found_expr(seen: Seen) -> Found<Expr>
    ensures { result ≡ found_expr seen }
{
    match seen {
        Seen::Refused(refusal) => Found::Refused(refusal),
        Seen::Unknown | Seen::Number(_) => Found::Unknown,
        Seen::Typed(_, x) => Found::Is(x),
    }
}

fn static_number(code: Code, place: Place, number: Option<i128>) -> Found<i128>
    ensures { result ≡ static_number code place number }
{
    match number {
        Some(number) => Found::Is(number),
        None => Found::Refused(Refusal { code, place }),
    }
}

/// The number or position that is seen, by a rule that is broken where it isn't static.
pub fn static_value(code: Code, place: Place, seen: Seen) -> Found<i128>
    ensures { result ≡ static_value code place seen }
{
    match seen {
        Seen::Refused(refusal) => Found::Refused(refusal),
        Seen::Unknown => Found::Unknown,
        Seen::Number(number) => Found::Is(number),
        Seen::Typed(_, x) => static_number(code, place, number_in(&x)),
    }
}
