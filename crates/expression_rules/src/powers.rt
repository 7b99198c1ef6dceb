//! The operands of `**` (Ada RM 4.5.6).

ghost use Rattle.std.specs.Prelude.{◌≡◌, IfOk};
ghost use Rattle.type_base.specs.Operators.{exponent, number_to, powers, raised, typed_to};

use ada_values::Place;
use std::alloc::Global;
use type_base::{
    Agreed, Code, Demand, INTEGER_BASE, Seen, Starved, Want, World, operand, placed_number,
    refused, with_left, with_refused, with_right, with_unknown,
};
use typed_units::Expr;

/// The exponent, which is of type Integer.
fn exponent(place: Place, seen: Seen) -> Seen
    ensures { result ≡ exponent place seen }
{
    match seen {
        Seen::Refused(refusal) => Seen::Refused(refusal),
        Seen::Unknown => Seen::Unknown,
        Seen::Number(number) => Seen::Number(number),
        Seen::Typed(ty, x) => {
            if ty == INTEGER_BASE {
                Seen::Typed(ty, x)
            } else {
                refused(Code::L2, place)
            }
        }
    }
}

fn number_to(
    alloc: Global,
    world: &World,
    want: Want,
    place: Place,
    number: i128,
    right: Seen,
) -> Result<Agreed, Starved>
    ensures { IfOk result (λ a. a ≡ number_to world.now want place number right) }
{
    match right {
        Seen::Refused(refusal) => Ok(Agreed::Refused(refusal)),
        Seen::Unknown => Ok(Agreed::Unknown),
        Seen::Number(right) => Ok(Agreed::Numbers(number, right)),
        Seen::Typed(_, y) => {
            let ty = world.wanted_integer(want);
            match placed_number(alloc, world, Code::L2, place, place, ty, number) {
                Ok(x) => Ok(with_left(x, y)),
                Err(error) => Err(error),
            }
        }
    }
}

fn typed_to(
    alloc: Global,
    world: &World,
    place: Place,
    ty: u32,
    x: Expr,
    right: Seen,
) -> Result<Agreed, Starved>
    ensures { IfOk result (λ a. a ≡ typed_to world.now place ty x right) }
{
    match right {
        Seen::Refused(refusal) => Ok(Agreed::Refused(refusal)),
        Seen::Unknown => Ok(Agreed::Unknown),
        Seen::Number(number) => {
            match placed_number(alloc, world, Code::L2, place, place, INTEGER_BASE, number) {
                Ok(y) => Ok(with_right(ty, x, y)),
                Err(error) => Err(error),
            }
        }
        Seen::Typed(_, y) => Ok(Agreed::Typed(ty, x, y)),
    }
}

fn raised(
    alloc: Global,
    world: &World,
    want: Want,
    left_place: Place,
    right_place: Place,
    left: Seen,
    right: Seen,
) -> Result<Agreed, Starved>
    ensures { IfOk result (λ a. a ≡ raised world.now want left_place right_place left right) }
{
    match left {
        Seen::Refused(refusal) => Ok(with_refused(refusal, right)),
        Seen::Unknown => Ok(with_unknown(right)),
        Seen::Number(number) => number_to(alloc, world, want, left_place, number, right),
        Seen::Typed(ty, x) => typed_to(alloc, world, right_place, ty, x, right),
    }
}

/// The operands of `**` in a context: the former is of an integer type, which is that of the power, and the latter of type
/// Integer.
pub fn powers(
    alloc: Global,
    world: &World,
    want: Want,
    left_place: Place,
    right_place: Place,
    left: Seen,
    right: Seen,
) -> Result<Agreed, Starved>
    ensures { IfOk result (λ a. a ≡ powers world.now want left_place right_place left right) }
{
    let left = operand(world, Demand::Integer, Code::L2, left_place, left);
    let right = exponent(right_place, right);
    raised(alloc, world, want, left_place, right_place, left, right)
}
