//! Named numbers, constants and variables, as far as they are found (Ada RM 3.3.1, 3.3.2).

ghost use Rattle.std.specs.Prelude.{◌≡◌, OnOk};
ghost use Rattle.program_scope.specs.Homes.{home_of};
ghost use Rattle.statement_typing.specs.Objects.{with_number, with_objects, with_package_objects};

use crate::Starved;
use crate::globals::of_package;
use crate::locals::with_locals;
use ada_text::Span;
use ada_values::Value;
use program_draft::declare_all;
use program_scope::Home;
use statement_typing::Draft;
use std::alloc::Global;
use type_base::Entity;
use typed_units::{Expr, Fitted};
use typing_rules::Found;

/// Named numbers with these names and this value. `Err` where memory was refused.
pub fn with_number(
    alloc: Global,
    home: &Home,
    names: &[Span],
    value: &Found<i128>,
    draft: &mut Draft,
) -> Result<(), Starved>
    ensures { OnOk result (draft.new ≡ with_number (home_of home.now) names.now value.now draft.old) }
{
    match value {
        Found::Is(number) => declare_all(
            alloc,
            home.file.number,
            names,
            Entity::Number(*number),
            draft,
        ),
        Found::Unknown | Found::Refused(_) => Ok(()),
    }
}

/// Objects of a subprogram with these names, each with a copy of the initial value. `Err` where memory was refused, as it is
/// where 2^32 local objects stand before one.
pub fn with_objects(
    alloc: Global,
    home: &Home,
    constant: bool,
    names: &[Span],
    subtype: u32,
    value: &Found<Option<Fitted<Expr>>>,
    draft: &mut Draft,
) -> Result<(), Starved>
    ensures { OnOk result (draft.new ≡ with_objects (home_of home.now) constant names.now subtype value.now draft.old) }
{
    match value {
        Found::Is(value) => with_locals(alloc, home, constant, subtype, value, names, draft),
        Found::Unknown | Found::Refused(_) => Ok(()),
    }
}

/// Objects of a package with these names, each variable with a copy of the initial value. `Err` where memory was refused, as
/// it is where 2^32 constants stand before one.
pub fn with_package_objects(
    alloc: Global,
    home: &Home,
    constant: bool,
    names: &[Span],
    subtype: u32,
    value: &Found<Option<Value>>,
    draft: &mut Draft,
) -> Result<(), Starved>
    ensures { OnOk result (draft.new ≡ with_package_objects (home_of home.now) constant names.now subtype value.now draft.old) }
{
    match value {
        Found::Is(value) => of_package(alloc, home, constant, names, subtype, value, draft),
        Found::Unknown | Found::Refused(_) => Ok(()),
    }
}
