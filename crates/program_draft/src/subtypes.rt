//! Subtypes with their numbers.

ghost use Rattle.std.specs.Prelude.{◌≡◌, IfOk, OnOk};
ghost use Rattle.sound_subtypes.specs.Sound.{IfIs, IsSound};
ghost use Rattle.statement_typing.specs.Drafts as drafts;
ghost use Rattle.statement_typing.specs.Objects as objects;
ghost use Rattle.statement_typing.specs.Subtypes as subtypes;
ghost use Rattle.type_base.specs.Moduli.{HasModulus};

use ada_values::NameText;
use statement_typing::{Draft, Noted};
use std::alloc::AllocError;
use type_base::{Subtype, World};
use typing_rules::Found;

/// Adds a subtype, with its name where it has one. Its modulus, where it has one, is from 2 to 2^64. `Err` where memory was
/// refused.
pub fn with_subtype(
    name: Option<NameText>,
    subtype: Subtype,
    draft: &mut Draft,
) -> Result<(), AllocError>
    requires { HasModulus subtype }
    ensures { OnOk result (draft.new ≡ drafts.with_subtype name subtype draft.old) }
{
    draft.names.push(name)?;
    draft.world.subtypes.push(subtype)
}

/// The number that the next subtype gets. `Err` where there are 2^32 of them.
pub fn next_subtype(draft: &Draft) -> Result<u32, AllocError>
    ensures { IfOk result (λ number. number ≡ drafts.next_subtype draft.now) }
{
    match u32::try_from(draft.world.subtypes.len()) {
        Ok(number) => Ok(number),
        Err(_) => Err(AllocError),
    }
}

/// The subtype that an indication gives.
pub fn noted_subtype(world: &World, noted: Noted) -> Option<Subtype>
    ensures { result ≡ subtypes.noted_subtype world.now noted }
{
    match noted {
        Noted::Known(number) => world.subtype(number),
        Noted::New(subtype) => Some(subtype),
    }
}

/// The number of the subtype that an indication gives, which is added where it has none yet. Its modulus, where it has one,
/// is from 2 to 2^64. `Err` where memory was refused, as it is where there are 2^32 subtypes.
pub fn entered(noted: Noted, draft: &mut Draft) -> Result<u32, AllocError>
    requires { IsSound noted }
    ensures number { IfOk result (λ number. number ≡ (drafts.entered noted draft.old).number) }
    ensures program { OnOk result (draft.new ≡ (drafts.entered noted draft.old).draft) }
{
    match noted {
        Noted::Known(number) => Ok(number),
        Noted::New(subtype) => {
            let number = next_subtype(draft)?;
            with_subtype(None, subtype, draft)?;
            Ok(number)
        }
    }
}

/// The number of the subtype that was found, or one that no subtype has where none was. `Err` where memory was refused, as it
/// is where there are 2^32 subtypes.
pub fn entered_by(found: &Found<Noted>, draft: &mut Draft) -> Result<u32, AllocError>
    requires { IfIs IsSound found.now }
    ensures number { IfOk result (λ number. number ≡ (objects.entered_by found.now draft.old).number) }
    ensures program { OnOk result (draft.new ≡ (objects.entered_by found.now draft.old).draft) }
{
    match found {
        Found::Is(noted) => entered(*noted, draft),
        Found::Unknown | Found::Refused(_) => next_subtype(draft),
    }
}
