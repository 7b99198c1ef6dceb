//! Declarations of types and of subtypes, and packages.

ghost use Rattle.std.specs.Prelude.{◌≡◌, OnOk, Some};
ghost use Rattle.program_scope.specs.Homes.{home_of};
ghost use Rattle.sound_subtypes.specs.Sound.{IfIs, IsSound, IsSoundDefinition};
ghost use Rattle.statement_typing.specs.Units as units;
ghost use Rattle.syntax_view.specs.View.{package_of};
ghost use Rattle.type_base.specs.Moduli.{HasModulus};

use crate::entering::{declare, declare_literals};
use crate::subtypes::{next_subtype, noted_subtype, with_subtype};
use crate::types::with_type;
use ada_syntax::Package;
use ada_text::Span;
use ada_values::NameText;
use program_scope::Home;
use statement_typing::{Definition, Draft, Noted};
use std::alloc::{AllocError, Global};
use type_base::{Entity, Subtype};
use typing_rules::Found;

/// A name for the type of a number, and those of its literals. `Err` where memory was refused.
fn with_named(
    alloc: Global,
    home: &Home,
    name: Span,
    literals: &[Span],
    number: u32,
    draft: &mut Draft,
) -> Result<(), AllocError>
    ensures { OnOk result (draft.new ≡ units.with_named (home_of home.now) name literals.now (record { number = number; draft = draft.old })) }
{
    let file = home.file.number;
    declare(alloc, file, name, Entity::Subtype(number), draft)?;
    declare_literals(alloc, file, number, literals, draft)
}

/// A type with this name, whose definition has these literals. Moduli that were found are from 2 to 2^64. `Err` where memory
/// was refused, as it is where there are 2^32 components or 2^32 - 1 subtypes.
pub fn with_definition(
    alloc: Global,
    home: &Home,
    name: Span,
    literals: &[Span],
    found: &Found<Definition>,
    draft: &mut Draft,
) -> Result<(), AllocError>
    requires { IfIs IsSoundDefinition found.now }
    ensures { OnOk result (draft.new ≡ units.with_definition (home_of home.now) name literals.now found.now draft.old) }
{
    match found {
        Found::Is(definition) => {
            let spelled = home.file.spelled(name.from);
            let number = with_type(alloc, home.file, spelled, definition, draft)?;
            with_named(alloc, home, name, literals, number, draft)
        }
        Found::Unknown | Found::Refused(_) => Ok(()),
    }
}

/// A name for a subtype, which is added. Its modulus, where it has one, is from 2 to 2^64. `Err` where memory was refused, as
/// it is where there are 2^32 subtypes.
fn with_subtype_of(
    alloc: Global,
    home: &Home,
    name: Span,
    subtype: Subtype,
    draft: &mut Draft,
) -> Result<(), AllocError>
    requires { HasModulus subtype }
    ensures { OnOk result (draft.new ≡ units.with_subtype_of (home_of home.now) name (Some subtype) draft.old) }
{
    let number = next_subtype(draft)?;
    let spelled = NameText::from_bytes(alloc, home.file.spelled(name.from))?;
    with_subtype(Some(spelled), subtype, draft)?;
    declare(
        alloc,
        home.file.number,
        name,
        Entity::Subtype(number),
        draft,
    )
}

/// A name for the subtype that an indication gives, which gets an entry of its own. Moduli that were found are from 2 to 2^64.
/// `Err` where memory was refused, as it is where there are 2^32 subtypes.
#[tactic(auto, using(sound_subtypes::proofs::Kept::noted_is_sound))]
pub fn with_indication(
    alloc: Global,
    home: &Home,
    name: Span,
    found: &Found<Noted>,
    draft: &mut Draft,
) -> Result<(), AllocError>
    requires { IfIs IsSound found.now }
    ensures { OnOk result (draft.new ≡ units.with_indication (home_of home.now) name found.now draft.old) }
{
    let Found::Is(noted) = found else {
        return Ok(());
    };
    draft.world.subtypes.are_sound();
    match noted_subtype(&draft.world, *noted) {
        Some(subtype) => with_subtype_of(alloc, home, name, subtype, draft),
        None => Ok(()),
    }
}

/// The name of a package. `Err` where memory was refused.
pub fn package_named(
    alloc: Global,
    home: &Home,
    unit: &Package,
    draft: &mut Draft,
) -> Result<(), AllocError>
    ensures { OnOk result (draft.new ≡ units.package_named (home_of home.now) (package_of unit.now) draft.old) }
{
    declare(alloc, home.file.number, unit.name, Entity::Package, draft)
}
