//! Profiles of subprograms (Ada RM 6.1).

ghost use Rattle.std.specs.Prelude.{◌≡◌, ◌+◌, length, IfOk, OnOk};
ghost use Rattle.program_scope.specs.Homes.{home_of};
ghost use Rattle.statement_typing.specs.Objects.{changed_at};
ghost use Rattle.statement_typing.specs.Routines.{access_of, with_formals, with_param, with_params, with_profile, with_routine};

use crate::Starved;
use crate::changes::{Change, change_routine};
use ada_text::Span;
use ada_values::NameText;
use program_draft::declare;
use program_scope::Home;
use sqlite_items::Items;
use statement_typing::{Draft, Formals, Profile};
use std::alloc::Global;
use type_base::{Access, Entity, Formal, Routine};
use typed_units::{Mode, Object, Param};
use typing_rules::Found;

/// How a parameter of a mode may be used.
fn access_of(mode: Mode) -> Access
    ensures { result ≡ access_of mode }
{
    match mode {
        Mode::In => Access::InParameter,
        Mode::Out | Mode::InOut => Access::Variable,
    }
}

/// The parameter of a number, of a subprogram. `Err` where memory was refused.
fn with_param(
    alloc: Global,
    home: &Home,
    routine: u32,
    mode: Mode,
    subtype: u32,
    name: Span,
    number: u32,
    draft: &mut Draft,
) -> Result<(), Starved>
    ensures { OnOk result (draft.new ≡ with_param (home_of home.now) routine mode subtype name number draft.old) }
{
    let parameter = Param {
        name: NameText::from_bytes(alloc, home.file.spelled(name.from))?,
        mode,
        subtype,
    };
    change_routine(
        alloc,
        routine,
        Change::Parameter(parameter),
        &mut draft.subs,
    )?;
    draft.world.formals.push(Formal {
        name: home.file.name(name.from),
        mode,
        subtype,
    })?;
    let entity = Entity::Object(subtype, Object::Param(number), access_of(mode));
    declare(alloc, home.file.number, name, entity, draft)
}

/// The parameters of a group, of which so many come before, and how many there are with them. `Err` where memory was refused,
/// as it is where they would be 2^32 or more.
fn with_params(
    alloc: Global,
    home: &Home,
    routine: u32,
    group: &Formals,
    before: u32,
    draft: &mut Draft,
) -> Result<u32, Starved>
    ensures draft { OnOk result (draft.new ≡ with_params (home_of home.now) routine group.now.mode group.now.subtype group.now.names before draft.old) }
    ensures count { IfOk result (λ count. count ≡ before + length group.now.names) }
{
    let mut count = before;
    for name in group.names.as_slice() {
        let Some(next) = count.checked_add(1) else {
            return Err(Starved);
        };
        with_param(
            alloc,
            home,
            routine,
            group.mode,
            group.subtype,
            *name,
            count,
            draft,
        )?;
        count = next;
    }
    Ok(count)
}

/// The parameters of a subprogram. `Err` where memory was refused, as it is where they are 2^32 or more.
fn with_formals(
    alloc: Global,
    home: &Home,
    routine: u32,
    groups: &[Formals],
    draft: &mut Draft,
) -> Result<(), Starved>
    ensures { OnOk result (draft.new ≡ with_formals (home_of home.now) routine groups.now 0 draft.old) }
{
    let mut count = 0;
    for group in groups {
        count = with_params(alloc, home, routine, group, count, draft)?;
    }
    Ok(())
}

/// The routine of a number gets so many formals of the world, from `first` on, and its result; nothing changes where there is
/// none.
#[tactic(auto, using(crate::proofs::InPlace::set_within, crate::proofs::InPlace::past_unchanged))]
fn set_routine(routine: u32, entry: Routine, routines: &mut Items<Routine>)
    ensures { routines.new ≡ changed_at routine (λ x. entry) routines.old }
{
    if (routine as usize) < routines.len() {
        routines.set(routine as usize, entry);
    }
}

/// A subprogram whose parameters are those formals of the world that stand from `first` on. `Err` where memory was refused, as
/// it is where the world has 2^32 formals or more.
fn with_routine(
    alloc: Global,
    home: &Home,
    routine: u32,
    name: Span,
    first: u32,
    result_subtype: Option<u32>,
    draft: &mut Draft,
) -> Result<(), Starved>
    ensures { OnOk result (draft.new ≡ with_routine (home_of home.now) routine name first result_subtype draft.old) }
{
    let Ok(all) = u32::try_from(draft.world.formals.len()) else {
        return Err(Starved);
    };
    let entry = Routine {
        first,
        count: all.saturating_sub(first),
        result: result_subtype,
    };
    change_routine(
        alloc,
        routine,
        Change::Returns(result_subtype),
        &mut draft.subs,
    )?;
    set_routine(routine, entry, &mut draft.world.routines);
    declare(
        alloc,
        home.file.number,
        name,
        Entity::Routine(routine),
        draft,
    )
}

/// A subprogram with its profile, as far as that is found. `Err` where memory was refused, as it is where the program has 2^32
/// formal parameters or more.
pub fn with_profile(
    alloc: Global,
    home: &Home,
    routine: u32,
    name: Span,
    profile: &Found<Profile>,
    draft: &mut Draft,
) -> Result<(), Starved>
    ensures { OnOk result (draft.new ≡ with_profile (home_of home.now) routine name profile.now draft.old) }
{
    let Found::Is(profile) = profile else {
        return Ok(());
    };
    let Ok(first) = u32::try_from(draft.world.formals.len()) else {
        return Err(Starved);
    };
    with_formals(alloc, home, routine, profile.formals.as_slice(), draft)?;
    with_routine(alloc, home, routine, name, first, profile.result, draft)
}
