//! What is seen of two operands that are to have one type.

ghost use Rattle.std.specs.Prelude.{◌≡◌, IfOk};
ghost use Rattle.type_base.specs.Demands.{agree, with_left, with_number, with_refused, with_right, with_typed, with_unknown};

use crate::Starved;
use crate::demands::placed_number;
use crate::seen::{Agreed, Seen};
use crate::world::World;
use ada_values::Place;
use front_codes::{Code, Refusal, first_of_two};
use std::alloc::Global;
use typed_units::Expr;

/// Two operands of one type, the former of which was a number.
pub fn with_left(left: Seen, right: Expr) -> Agreed
    ensures { result ≡ with_left left right }
{
    match left {
        Seen::Refused(refusal) => Agreed::Refused(refusal),
        Seen::Unknown | Seen::Number(_) => Agreed::Unknown,
        Seen::Typed(ty, x) => Agreed::Typed(ty, x, right),
    }
}

/// Two operands, the latter of which was a number; they have the former's type.
pub fn with_right(ty: u32, left: Expr, right: Seen) -> Agreed
    ensures { result ≡ with_right ty left right }
{
    match right {
        Seen::Refused(refusal) => Agreed::Refused(refusal),
        Seen::Unknown | Seen::Number(_) => Agreed::Unknown,
        Seen::Typed(_, y) => Agreed::Typed(ty, left, y),
    }
}

/// Two operands, the former of which is refused.
pub fn with_refused(refusal: Refusal, right: Seen) -> Agreed
    ensures { result ≡ with_refused refusal right }
{
    match right {
        Seen::Refused(other) => Agreed::Refused(first_of_two(refusal, other)),
        _ => Agreed::Refused(refusal),
    }
}

/// Two operands, the former of which has no type.
pub fn with_unknown(right: Seen) -> Agreed
    ensures { result ≡ with_unknown right }
{
    match right {
        Seen::Refused(refusal) => Agreed::Refused(refusal),
        _ => Agreed::Unknown,
    }
}

fn with_number(
    alloc: Global,
    world: &World,
    code: Code,
    left_place: Place,
    right_place: Place,
    left: i128,
    right: Seen,
) -> Result<Agreed, Starved>
    ensures { IfOk result (λ a. a ≡ with_number world.now code left_place right_place left right) }
{
    match right {
        Seen::Refused(refusal) => Ok(Agreed::Refused(refusal)),
        Seen::Unknown => Ok(Agreed::Unknown),
        Seen::Number(right) => Ok(Agreed::Numbers(left, right)),
        Seen::Typed(ty, y) => {
            match placed_number(alloc, world, code, right_place, left_place, ty, left) {
                Ok(x) => Ok(with_left(x, y)),
                Err(error) => Err(error),
            }
        }
    }
}

fn with_typed(
    alloc: Global,
    world: &World,
    code: Code,
    place: Place,
    ty: u32,
    x: Expr,
    right: Seen,
) -> Result<Agreed, Starved>
    ensures { IfOk result (λ a. a ≡ with_typed world.now code place ty x right) }
{
    match right {
        Seen::Refused(refusal) => Ok(Agreed::Refused(refusal)),
        Seen::Unknown => Ok(Agreed::Unknown),
        Seen::Number(number) => match placed_number(alloc, world, code, place, place, ty, number) {
            Ok(y) => Ok(with_right(ty, x, y)),
            Err(error) => Err(error),
        },
        Seen::Typed(other, y) => {
            if ty == other {
                Ok(Agreed::Typed(ty, x, y))
            } else {
                Ok(Agreed::Refused(Refusal { code, place }))
            }
        }
    }
}

/// Operands at two places that by a rule are to have one type, where a number takes the other's type. A refusal wins over
/// all, of two the first one; where the types differ, the rule is broken at the latter place.
pub fn agree(
    alloc: Global,
    world: &World,
    code: Code,
    left_place: Place,
    right_place: Place,
    left: Seen,
    right: Seen,
) -> Result<Agreed, Starved>
    ensures { IfOk result (λ a. a ≡ agree world.now code left_place right_place left right) }
{
    match left {
        Seen::Refused(refusal) => Ok(with_refused(refusal, right)),
        Seen::Unknown => Ok(with_unknown(right)),
        Seen::Number(number) => {
            with_number(alloc, world, code, left_place, right_place, number, right)
        }
        Seen::Typed(ty, x) => with_typed(alloc, world, code, right_place, ty, x, right),
    }
}
