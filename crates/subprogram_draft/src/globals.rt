//! Objects of packages.

ghost use Rattle.std.specs.Prelude.{◌≡◌, IfOk, OnOk};
ghost use Rattle.program_scope.specs.Homes.{home_of};
ghost use Rattle.statement_typing.specs.Objects.{changed_at, of_package, with_global, with_globals, with_settled};

use crate::Starved;
use ada_text::Span;
use ada_values::Value;
use program_draft::{declare, declare_all, with_constant};
use program_scope::Home;
use sqlite_items::Items;
use statement_typing::Draft;
use std::alloc::Global as Allocator;
use type_base::{Access, Entity};
use typed_units::{Global, Object};

/// A copy of an initial value.
fn copy_initial(alloc: Allocator, initial: &Option<Value>) -> Result<Option<Value>, Starved>
    ensures { IfOk result (λ c. c ≡ initial.now) }
{
    match initial {
        Some(value) => match value.copy(alloc) {
            Ok(value) => Ok(Some(value)),
            Err(error) => Err(error),
        },
        None => Ok(None),
    }
}

/// A variable of that name with a copy of the initial value.
fn filled(
    alloc: Allocator,
    global: &Global,
    subtype: u32,
    initial: &Option<Value>,
) -> Result<Global, Starved>
    ensures { IfOk result (λ g. g ≡ record global.now { subtype = subtype; initial = initial.now }) }
{
    let name = global.name.copy(alloc)?;
    match copy_initial(alloc, initial) {
        Ok(initial) => Ok(Global {
            name,
            subtype,
            initial,
        }),
        Err(error) => {
            drop(name);
            Err(error)
        }
    }
}

/// The variable of a number gets its subtype and a copy of its initial value; nothing changes where there is none.
#[tactic(auto, using(crate::proofs::InPlace::set_changed, crate::proofs::InPlace::none_unchanged))]
fn fill(
    alloc: Allocator,
    number: u32,
    subtype: u32,
    initial: &Option<Value>,
    globals: &mut Items<Global>,
) -> Result<(), Starved>
    ensures { OnOk result (globals.new ≡ changed_at number (λ x. record x { subtype = subtype; initial = initial.now }) globals.old) }
{
    let Some(global) = globals.get(number as usize) else {
        return Ok(());
    };
    let global = filled(alloc, global, subtype, initial)?;
    globals.set(number as usize, global);
    Ok(())
}

/// A variable of a package. `Err` where memory was refused.
fn with_global(
    alloc: Allocator,
    home: &Home,
    subtype: u32,
    initial: &Option<Value>,
    name: Span,
    number: u32,
    draft: &mut Draft,
) -> Result<(), Starved>
    ensures { OnOk result (draft.new ≡ with_global (home_of home.now) subtype initial.now name number draft.old) }
{
    fill(alloc, number, subtype, initial, &mut draft.globals)?;
    let entity = Entity::Object(subtype, Object::Global(number), Access::Variable);
    declare(alloc, home.file.number, name, entity, draft)
}

/// Variables of a package with these names. `Err` where memory was refused.
fn with_globals(
    alloc: Allocator,
    home: &Home,
    subtype: u32,
    value: &Option<Value>,
    names: &[Span],
    draft: &mut Draft,
) -> Result<(), Starved>
    ensures { OnOk result (draft.new ≡ with_globals (home_of home.now) subtype value.now names.now draft.old) }
{
    for name in names {
        let number = home.globals.rank(home.file.spot_of(*name));
        with_global(alloc, home, subtype, value, *name, number, draft)?;
    }
    Ok(())
}

/// Constants of a package with these names and a copy of this value. `Err` where memory was refused, as it is where 2^32
/// constants stand before them.
fn with_settled(
    alloc: Allocator,
    home: &Home,
    subtype: u32,
    value: &Value,
    names: &[Span],
    draft: &mut Draft,
) -> Result<(), Starved>
    ensures { OnOk result (draft.new ≡ with_settled (home_of home.now) subtype value.now names.now draft.old) }
{
    let number = match value {
        Value::Int(number) => *number,
        Value::Bool(truth) => i128::from(*truth),
        Value::Arr(_) | Value::Rec(_) => {
            let value = value.copy(alloc)?;
            return with_constant(alloc, home, subtype, value, names, draft);
        }
    };
    let entity = Entity::Static(subtype, number);
    declare_all(alloc, home.file.number, names, entity, draft)
}

/// Objects of a package with these names, each variable with a copy of the initial value. `Err` where memory was refused, as
/// it is where 2^32 constants stand before one.
pub(crate) fn of_package(
    alloc: Allocator,
    home: &Home,
    constant: bool,
    names: &[Span],
    subtype: u32,
    value: &Option<Value>,
    draft: &mut Draft,
) -> Result<(), Starved>
    ensures { OnOk result (draft.new ≡ of_package (home_of home.now) constant names.now subtype value.now draft.old) }
{
    if !constant {
        return with_globals(alloc, home, subtype, value, names, draft);
    }
    match value {
        Some(value) => with_settled(alloc, home, subtype, value, names, draft),
        None => Ok(()),
    }
}
