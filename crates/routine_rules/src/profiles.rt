//! Profiles (Ada RM 6.1).

ghost use Rattle.std.specs.Prelude.{◌≡◌, ◌||◌, not, Some, IfOk};
ghost use Rattle.statement_typing.specs.Routines.{formals_of, is_out, mode_of};
ghost use Rattle.statement_typing.specs.Subtypes.{is_constrained};
ghost use Rattle.type_base.specs.Lookups.{form_at};
ghost use Rattle.typing_rules.specs.Fits.{both, found_then, with_found};

use ada_syntax::Mode as Written;
use ada_text::Span;
use ada_values::Place;
use front_codes::Code;
use sqlite_items::Items;
use statement_rules::{refuse, with_refused, with_unknown};
use statement_typing::{Formals, Profile};
use std::alloc::Global;
use type_base::{Starved, World};
use typed_units::Mode;
use typing_rules::Found;

/// The mode that is meant: where none is written it is `in`.
fn mode_of(mode: Written) -> Mode
    ensures { result ≡ mode_of mode }
{
    match mode {
        Written::Unstated | Written::In => Mode::In,
        Written::Out => Mode::Out,
        Written::InOut => Mode::InOut,
    }
}

/// Whether a parameter of a subtype may have a mode: an `out` parameter is of no array type without bounds.
fn may_have(world: &World, mode: Mode, subtype: u32) -> bool
    ensures { result ≡ (not (is_out mode) || is_constrained (form_at world.now subtype)) }
{
    match mode {
        Mode::In | Mode::InOut => true,
        Mode::Out => match world.form(subtype) {
            None => true,
            Some(form) => form.is_comparable(),
        },
    }
}

/// The parameters at a place with these names, by what their subtype is found to be. L27 is broken where an `out` parameter is
/// of an array type without bounds. `Err` where memory was refused.
pub fn formals_read(
    alloc: Global,
    world: &World,
    place: Place,
    names: &[Span],
    mode: Written,
    subtype: Found<u32>,
) -> Result<Found<Formals>, Starved>
    ensures { IfOk result (λ f. f ≡ found_then subtype (formals_of world.now place names.now (mode_of mode))) }
{
    match subtype {
        Found::Refused(refusal) => Ok(Found::Refused(refusal)),
        Found::Unknown => Ok(Found::Unknown),
        Found::Is(subtype) => {
            let mode = mode_of(mode);
            if may_have(world, mode, subtype) {
                let names = Items::from_slice(alloc, names)?;
                Ok(Found::Is(Formals {
                    names,
                    mode,
                    subtype,
                }))
            } else {
                Ok(refuse(Code::L27, place))
            }
        }
    }
}

/// The result of a function, by what its subtype is found to be.
pub fn result_read(subtype: Found<u32>) -> Found<Option<u32>>
    ensures { result ≡ with_found Some subtype }
{
    match subtype {
        Found::Is(subtype) => Found::Is(Some(subtype)),
        Found::Unknown => Found::Unknown,
        Found::Refused(refusal) => Found::Refused(refusal),
    }
}

fn with_result(formals: Items<Formals>, returned: Found<Option<u32>>) -> Found<Profile>
    ensures { result ≡ with_found (λ r. record { formals = formals; result = r }) returned }
{
    match returned {
        Found::Is(result) => Found::Is(Profile { formals, result }),
        Found::Unknown => {
            drop(formals);
            Found::Unknown
        }
        Found::Refused(refusal) => {
            drop(formals);
            Found::Refused(refusal)
        }
    }
}

/// A profile, of its parameters and its result.
pub fn profile_read(formals: Found<Items<Formals>>, returned: Found<Option<u32>>) -> Found<Profile>
    ensures { result ≡ both (λ fs r. record { formals = fs; result = r }) formals returned }
{
    match formals {
        Found::Is(formals) => with_result(formals, returned),
        Found::Unknown => with_unknown(returned),
        Found::Refused(refusal) => with_refused(refusal, returned),
    }
}
