//! Bounds of constraints, indexes and types (Ada RM 3.5, 3.5.4, 3.6.1).

ghost use Rattle.std.specs.Prelude.{◌≡◌};
ghost use Rattle.front_codes.specs.declared.codes.Code.TheVariants.{L20};
ghost use Rattle.statement_typing.specs.Checks.{unless};
ghost use Rattle.statement_typing.specs.Subtypes.{bound_in, bounds, in_order, indexes_in};
ghost use Rattle.statement_typing.specs.Types.{signed_bound};
ghost use Rattle.typing_rules.specs.Fits.{both, found_then};

use crate::numbers::{integer_number, value_of_type};
use ada_values::{Place, Scalar, in_scalar};
use front_codes::first_of_two;
use type_base::{Code, Refusal, Seen, World};
use typed_units::Bounds;
use typing_rules::Found;

/// Two bounds that have been found.
pub fn bounds_found(first: Found<i128>, last: Found<i128>) -> Found<Bounds>
    ensures { result ≡ both bounds first last }
{
    match first {
        Found::Refused(refusal) => match last {
            Found::Refused(other) => Found::Refused(first_of_two(refusal, other)),
            Found::Unknown | Found::Is(_) => Found::Refused(refusal),
        },
        Found::Unknown => match last {
            Found::Refused(refusal) => Found::Refused(refusal),
            Found::Unknown | Found::Is(_) => Found::Unknown,
        },
        Found::Is(first) => match last {
            Found::Refused(refusal) => Found::Refused(refusal),
            Found::Unknown => Found::Unknown,
            Found::Is(last) => Found::Is(Bounds { first, last }),
        },
    }
}

/// A number where L20 holds of it; its refusal elsewhere.
fn number_if(holds: bool, place: Place, number: i128) -> Found<i128>
    ensures { result ≡ unless holds L20 place number }
{
    if holds {
        Found::Is(number)
    } else {
        Found::Refused(Refusal {
            code: Code::L20,
            place,
        })
    }
}

/// Bounds, the latter of which stands at a place; L20 is broken where it is the lesser.
pub fn in_order(place: Place, bounds: Bounds) -> Found<Bounds>
    ensures { result ≡ in_order place bounds }
{
    if bounds.first <= bounds.last {
        Found::Is(bounds)
    } else {
        Found::Refused(Refusal {
            code: Code::L20,
            place,
        })
    }
}

/// Bounds that have been found, the latter at a place; L20 is broken where it is the lesser.
pub fn ordered(place: Place, bounds: Found<Bounds>) -> Found<Bounds>
    ensures { result ≡ found_then bounds (in_order place) }
{
    match bounds {
        Found::Refused(refusal) => Found::Refused(refusal),
        Found::Unknown => Found::Unknown,
        Found::Is(bounds) => in_order(place, bounds),
    }
}

/// The bound of a constraint that is seen at a place, of a subtype of this type and range; L20 is broken where it isn't in it.
pub fn bound_in(world: &World, ty: u32, scalar: Scalar, place: Place, seen: &Seen) -> Found<i128>
    ensures { result ≡ bound_in world.now ty scalar place seen.now }
{
    match value_of_type(world, Code::L20, ty, place, seen) {
        Found::Refused(refusal) => Found::Refused(refusal),
        Found::Unknown => Found::Unknown,
        Found::Is(number) => number_if(in_scalar(&scalar, number), place, number),
    }
}

/// The bounds of an array, which stand at two places, by those of its index subtype; L20 is broken at one that isn't in them,
/// where the array has any index.
pub fn indexes_in(low: Place, high: Place, index: Bounds, bounds: Bounds) -> Found<Bounds>
    ensures { result ≡ indexes_in low high index bounds }
{
    if bounds.first <= bounds.last {
        let first = number_if(index.first <= bounds.first, low, bounds.first);
        let last = number_if(bounds.last <= index.last, high, bounds.last);
        bounds_found(first, last)
    } else {
        Found::Is(bounds)
    }
}

/// The bound of a signed integer type that is seen at a place; L20 is broken where 64 bits don't hold it.
pub fn signed_bound(world: &World, place: Place, seen: &Seen) -> Found<i128>
    ensures { result ≡ signed_bound world.now place seen.now }
{
    match integer_number(world, place, seen) {
        Found::Refused(refusal) => Found::Refused(refusal),
        Found::Unknown => Found::Unknown,
        Found::Is(number) => {
            let holds = -9_223_372_036_854_775_808 <= number && number <= 9_223_372_036_854_775_807;
            number_if(holds, place, number)
        }
    }
}
