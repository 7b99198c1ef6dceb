//! Objects of subprograms.

ghost use Rattle.std.specs.Prelude.{◌≡◌, ◌∷◌, [], ◌++◌, Some, IfOk, OnOk};
ghost use Rattle.program_scope.specs.Homes.{home_of};
ghost use Rattle.statement_typing.specs.Objects.{local_as, opening_of, with_local, with_locals};

use crate::Starved;
use ada_text::Span;
use ada_values::{NameText, Place};
use expression_copies::copy_expression;
use expression_rules::number_in;
use program_draft::declare;
use program_scope::Home;
use sqlite_items::{Boxed, Items};
use statement_typing::Draft;
use std::alloc::Global;
use type_base::{Access, Entity};
use typed_units::{Action, Expr, Fitted, Local, Object, Stmt, Target};

/// What a local object is read as: a constant with a static value is that value.
fn local_as(constant: bool, subtype: u32, number: u32, value: &Option<Fitted<Expr>>) -> Entity
    ensures { result ≡ local_as constant subtype number value.now }
{
    if !constant {
        return Entity::Object(subtype, Object::Local(number), Access::Variable);
    }
    let Some(fitted) = value else {
        return Entity::Unknown;
    };
    match number_in(&fitted.value) {
        Some(value) => Entity::Static(subtype, value),
        None => Entity::Object(subtype, Object::Local(number), Access::Constant),
    }
}

/// The assignment of a copy of an initial value to a local object at a place.
fn assignment(
    alloc: Global,
    place: Place,
    number: u32,
    fitted: &Fitted<Expr>,
) -> Result<Stmt, Starved>
    ensures { IfOk result (λ s. opening_of place number (Some fitted.now) ≡ s ∷ []) }
{
    let value = copy_expression(alloc, &fitted.value)?;
    let target = Target {
        place,
        object: Object::Local(number),
        path: Items::new(alloc),
    };
    let fitted = Fitted {
        bounds: fitted.bounds,
        value,
    };
    match Boxed::new(alloc, Action::Assign(target, fitted)) {
        Ok(action) => Ok(Stmt { place, action }),
        Err(error) => Err(error),
    }
}

/// The initial value of a local object at a place is an assignment. `Err` where memory was refused.
fn open(
    alloc: Global,
    place: Place,
    number: u32,
    value: &Option<Fitted<Expr>>,
    opening: &mut Items<Stmt>,
) -> Result<(), Starved>
    ensures { OnOk result (opening.new ≡ opening.old ++ opening_of place number value.now) }
{
    match value {
        None => Ok(()),
        Some(fitted) => opening.push(assignment(alloc, place, number, fitted)?),
    }
}

/// The local objects with one more. `Err` where memory was refused.
fn add(
    alloc: Global,
    name: &[u8],
    subtype: u32,
    constant: bool,
    locals: &mut Items<Local>,
) -> Result<(), Starved>
    ensures { OnOk result (locals.new ≡ locals.old ++ record { name = name.now; subtype = subtype; constant = constant } ∷ []) }
{
    let name = NameText::from_bytes(alloc, name)?;
    locals.push(Local {
        name,
        subtype,
        constant,
    })
}

/// The local object of a number. `Err` where memory was refused.
fn with_local(
    alloc: Global,
    home: &Home,
    constant: bool,
    subtype: u32,
    value: &Option<Fitted<Expr>>,
    name: Span,
    number: u32,
    draft: &mut Draft,
) -> Result<(), Starved>
    ensures { OnOk result (draft.new ≡ with_local (home_of home.now) constant subtype value.now name number draft.old) }
{
    let spelled = home.file.spelled(name.from);
    add(alloc, spelled, subtype, constant, &mut draft.locals)?;
    open(
        alloc,
        home.place_at(name),
        number,
        value,
        &mut draft.opening,
    )?;
    let entity = local_as(constant, subtype, number, value);
    declare(alloc, home.file.number, name, entity, draft)
}

/// Local objects with these names, each with a copy of the initial value. `Err` where memory was refused, as it is where 2^32
/// local objects stand before one.
pub(crate) fn with_locals(
    alloc: Global,
    home: &Home,
    constant: bool,
    subtype: u32,
    value: &Option<Fitted<Expr>>,
    names: &[Span],
    draft: &mut Draft,
) -> Result<(), Starved>
    ensures { OnOk result (draft.new ≡ with_locals (home_of home.now) constant subtype value.now names.now draft.old) }
{
    for name in names {
        let Ok(number) = u32::try_from(draft.locals.len()) else {
            return Err(Starved);
        };
        with_local(alloc, home, constant, subtype, value, *name, number, draft)?;
    }
    Ok(())
}
