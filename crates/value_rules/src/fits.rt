//! Values that are to be of a subtype.

ghost use Rattle.std.specs.Prelude.{◌≡◌, IfOk};
ghost use Rattle.typing_rules.specs.Fits.{agrees, fit, fit_placed, fit_typed, takes};

use ada_values::Place;
use std::alloc::Global;
use type_base::{Code, Form, Refusal, Seen, Starved, World, placed_number};
use typed_units::{Expr, Fitted};
use typing_rules::Found;

fn agrees(whole: bool, target: Option<Form>, value: Option<Form>) -> bool
    ensures { result ≡ agrees whole target value }
{
    match target {
        Some(Form::Array { bounds: None, .. }) => !whole,
        Some(
            Form::Array {
                bounds: Some(wanted),
                ..
            },
        ) => match value {
            Some(
                Form::Array {
                    bounds: Some(bounds),
                    ..
                },
            ) => wanted.first == bounds.first && wanted.last == bounds.last,
            _ => false,
        },
        _ => true,
    }
}

/// Whether a value of the latter of two subtypes of one type may be taken for the former: arrays of the same bounds, and any
/// for an unconstrained one, but for a `whole` assignment.
pub fn takes(world: &World, whole: bool, target: u32, value: u32) -> bool
    ensures { result ≡ takes world.now whole target value }
{
    agrees(whole, world.form(target), world.form(value))
}

fn fit_typed(
    world: &World,
    code: Code,
    whole: bool,
    subtype: u32,
    place: Place,
    ty: u32,
    x: Expr,
    target: Option<u32>,
) -> Found<Fitted<Expr>>
    ensures { result ≡ fit_typed world.now code whole subtype place ty x target }
{
    match target {
        None => Found::Unknown,
        Some(target) => {
            if ty == target && takes(world, whole, subtype, x.subtype) {
                Found::Is(world.fitted(subtype, x))
            } else {
                Found::Refused(Refusal { code, place })
            }
        }
    }
}

fn fit_placed(world: &World, subtype: u32, seen: Seen) -> Found<Fitted<Expr>>
    ensures { result ≡ fit_placed world.now subtype seen }
{
    match seen {
        Seen::Refused(refusal) => Found::Refused(refusal),
        Seen::Typed(_, x) => Found::Is(world.fitted(subtype, x)),
        Seen::Unknown | Seen::Number(_) => Found::Unknown,
    }
}

/// A value at a place that by a rule is to be of a subtype, with its range check. It is `Refused` by the rule where it isn't
/// of the subtype's type, or is an array of another subtype; by L29 where it is a number outside the type's base range.
pub fn fit(
    alloc: Global,
    world: &World,
    code: Code,
    whole: bool,
    subtype: u32,
    place: Place,
    seen: Seen,
) -> Result<Found<Fitted<Expr>>, Starved>
    ensures { IfOk result (λ f. f ≡ fit world.now code whole subtype place seen) }
{
    let target = world.type_of(subtype);
    match seen {
        Seen::Refused(refusal) => Ok(Found::Refused(refusal)),
        Seen::Unknown => Ok(Found::Unknown),
        Seen::Number(number) => match target {
            None => Ok(Found::Unknown),
            Some(ty) => match placed_number(alloc, world, code, place, place, ty, number) {
                Ok(placed) => Ok(fit_placed(world, subtype, placed)),
                Err(error) => Err(error),
            },
        },
        Seen::Typed(ty, x) => Ok(fit_typed(world, code, whole, subtype, place, ty, x, target)),
    }
}
