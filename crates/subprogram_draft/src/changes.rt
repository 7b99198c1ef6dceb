//! Changes of the subprograms of a program that is being typed, each in its place.

ghost use Rattle.std.specs.Prelude.{◌≡◌, IfOk, OnOk};
ghost use Rattle.statement_typing.specs.Objects.{changed_at};
ghost use Rattle.statement_typing.specs.Units.{blank_sub};
ghost use Rattle.subprogram_draft.specs.Changes.{changed_by, filled_with};

use crate::Starved;
use ada_values::{NameText, Place};
use sqlite_items::Items;
use statement_typing::Subs;
use std::alloc::Global as Allocator;
use typed_units::{Contract, GlobalAspect, Local, Param, Stmt, Sub};

/// What a body adds to its subprogram: the place of its name, its local objects, how many parameters of `for` loops, indexes
/// and loops it has, the statements of its declarative part, and its own.
#[derive(Drop)]
pub(crate) struct Filling {
    pub place: Place,
    pub locals: Items<Local>,
    pub turns: u32,
    pub indexes: u32,
    pub loops: u32,
    pub opening: Items<Stmt>,
    pub body: Items<Stmt>,
}

/// One change of a subprogram.
#[derive(Drop)]
pub(crate) enum Change {
    /// One more formal parameter.
    Parameter(Param),
    /// The number of its result's subtype.
    Returns(Option<u32>),
    Pre(Contract),
    Post(Contract),
    Global(GlobalAspect),
    /// How many indexes its contract has.
    Indexes(u32),
    Body(Filling),
}

/// A subprogram of which nothing is known.
fn blank(alloc: Allocator) -> Result<Sub, Starved> {
    let name = NameText::from_bytes(alloc, &[])?;
    Ok(Sub {
        name,
        place: Place {
            file: 0,
            line: 0,
            column: 0,
        },
        params: Items::new(alloc),
        result: None,
        pre: None,
        post: None,
        global: None,
        locals: Items::new(alloc),
        turns: 0,
        indexes: 0,
        loops: 0,
        opening: Items::new(alloc),
        body: Items::new(alloc),
    })
}

/// A subprogram with its body. `Err` where it has 2^32 indexes or more.
fn fill(filling: Filling, sub: &mut Sub) -> Result<(), Starved>
    ensures { OnOk result (sub.new ≡ filled_with filling sub.old) }
{
    let Some(indexes) = sub.indexes.checked_add(filling.indexes) else {
        drop(filling);
        return Err(Starved);
    };
    let Filling {
        place,
        locals,
        turns,
        indexes: _,
        loops,
        opening,
        body,
    } = filling;
    sub.place = place;
    sub.locals = locals;
    sub.turns = turns;
    sub.indexes = indexes;
    sub.loops = loops;
    sub.opening = opening;
    sub.body = body;
    Ok(())
}

/// A subprogram that is changed. `Err` where memory was refused, as it is where it has 2^32 indexes or more.
fn apply(change: Change, sub: &mut Sub) -> Result<(), Starved>
    ensures { OnOk result (sub.new ≡ changed_by change sub.old) }
{
    match change {
        Change::Parameter(parameter) => sub.params.push(parameter),
        Change::Returns(result) => {
            sub.result = result;
            Ok(())
        }
        Change::Pre(contract) => {
            sub.pre = Some(contract);
            Ok(())
        }
        Change::Post(contract) => {
            sub.post = Some(contract);
            Ok(())
        }
        Change::Global(aspect) => {
            sub.global = Some(aspect);
            Ok(())
        }
        Change::Indexes(indexes) => {
            sub.indexes = indexes;
            Ok(())
        }
        Change::Body(filling) => fill(filling, sub),
    }
}

/// The subprogram of a number is changed in its place; nothing is where there is none. `Err` where memory was refused, as it
/// is where it would have 2^32 indexes or more.
#[tactic(auto, using(crate::proofs::InPlace::put_back, crate::proofs::InPlace::past_unchanged))]
pub(crate) fn change_routine(
    alloc: Allocator,
    routine: u32,
    change: Change,
    subs: &mut Subs,
) -> Result<(), Starved>
    ensures { OnOk result (subs.new ≡ changed_at routine (changed_by change) subs.old) }
{
    if routine as usize >= subs.len() {
        drop(change);
        return Ok(());
    }
    let mut sub = match blank(alloc) {
        Ok(blank) => subs.replace(routine, blank),
        Err(error) => {
            drop(change);
            return Err(error);
        }
    };
    match apply(change, &mut sub) {
        Ok(()) => {
            drop(subs.replace(routine, sub));
            Ok(())
        }
        Err(error) => {
            drop(sub);
            Err(error)
        }
    }
}
