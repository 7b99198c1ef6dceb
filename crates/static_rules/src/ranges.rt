//! Ranges with static bounds (Ada RM 3.5, 3.6.1).

ghost use Rattle.std.specs.Prelude.{◌≡◌};
ghost use Rattle.front_codes.specs.declared.codes.Code.TheVariants.{L20};
ghost use Rattle.statement_typing.specs.Subtypes.{static_in, type_want};
ghost use Rattle.static_rules.specs.Statics.{bounds_placed, static_between};
ghost use Rattle.typing_rules.specs.Fits.{both};

use crate::bounds::indexes_in;
use crate::numbers::static_in;
use ada_values::Place;
use front_codes::first_of_two;
use statement_typing::StaticRange;
use type_base::{Code, Want};
use typed_units::Bounds;
use typing_rules::{Between, Found};

/// A range of a subtype by its two bounds.
fn static_between(subtype: u32, first: Found<i128>, last: Found<i128>) -> Found<StaticRange>
    ensures { result ≡ both (static_between subtype) first last }
{
    match first {
        Found::Refused(refusal) => match last {
            Found::Refused(other) => Found::Refused(first_of_two(refusal, other)),
            Found::Unknown | Found::Is(_) => Found::Refused(refusal),
        },
        Found::Unknown => match last {
            Found::Refused(refusal) => Found::Refused(refusal),
            Found::Unknown | Found::Is(_) => Found::Unknown,
        },
        Found::Is(first) => match last {
            Found::Refused(refusal) => Found::Refused(refusal),
            Found::Unknown => Found::Unknown,
            Found::Is(last) => Found::Is(StaticRange {
                subtype,
                bounds: Bounds { first, last },
            }),
        },
    }
}

/// A range with bounds at two places; L20 is broken at a bound that isn't static.
pub fn static_range_of(low: Place, high: Place, range: Between) -> Found<StaticRange>
    ensures { result ≡ both (static_between range.subtype) (static_in L20 low range.low) (static_in L20 high range.high) }
{
    let subtype = range.subtype;
    let first = static_in(Code::L20, low, &range.low);
    let last = static_in(Code::L20, high, &range.high);
    drop(range);
    static_between(subtype, first, last)
}

/// What the bounds of an array are read for, by the type of its index.
pub fn type_want(ty: Option<u32>) -> Want
    ensures { result ≡ type_want ty }
{
    match ty {
        None => Want::Unknown,
        Some(ty) => Want::Type(ty),
    }
}

/// The bounds of an array, which stand at two places, by those of its index subtype, where these are known; L20 is broken at
/// one that isn't in them, where the array has any index.
pub fn bounds_for(low: Place, high: Place, index: Option<Bounds>, bounds: Bounds) -> Found<Bounds>
    ensures { result ≡ bounds_placed low high index bounds }
{
    match index {
        None => Found::Unknown,
        Some(index) => indexes_in(low, high, index, bounds),
    }
}
