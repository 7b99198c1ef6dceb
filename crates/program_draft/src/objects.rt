//! Named numbers, constants and variables.

ghost use Rattle.std.specs.Prelude.{◌≡◌, OnOk};
ghost use Rattle.program_scope.specs.Homes.{home_of};
ghost use Rattle.statement_typing.specs.Objects as objects;

use crate::entering::declare_all;
use ada_text::Span;
use ada_values::Value;
use program_scope::Home;
use statement_typing::Draft;
use std::alloc::{AllocError, Global};
use type_base::Entity;

/// Constants of a package with these names and this value. `Err` where memory was refused, as it is where 2^32 constants
/// stand before it.
pub fn with_constant(
    alloc: Global,
    home: &Home,
    subtype: u32,
    value: Value,
    names: &[Span],
    draft: &mut Draft,
) -> Result<(), AllocError>
    ensures { OnOk result (draft.new ≡ objects.with_constant (home_of home.now) subtype value names.now draft.old) }
{
    let Ok(number) = u32::try_from(draft.world.constants.len()) else {
        return Err(AllocError);
    };
    draft.world.constants.push(value)?;
    declare_all(
        alloc,
        home.file.number,
        names,
        Entity::Constant(subtype, number),
        draft,
    )
}
