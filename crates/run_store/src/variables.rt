//! The variables of a subprogram at work.

ghost use Rattle.std.specs.Prelude.{◌≡◌, IfOk, OnOk};
ghost use Rattle.typed_units.specs.Syntax.{Var, answer};
ghost use Rattle.typed_units.specs.View.{var};
ghost use Rattle.ada_semantics.specs.Store.{put, entered, with_globals};
ghost use Rattle.run_store.specs.RunSlots.{run_slot};
ghost use Rattle.run_store.specs.RunStores.{store_of};

use crate::lists::{put_in_list, slot_of_list};
use crate::slots::RunSlot;
use shared_items::{Copied, SharedItems};
use std::alloc::{AllocError, Global};
use typed_units::Object;

/// The variables of a subprogram, by kind and number, and the result of a function.
#[derive(Drop)]
pub struct RunVars {
    pub params: SharedItems<RunSlot>,
    pub locals: SharedItems<RunSlot>,
    pub globals: SharedItems<RunSlot>,
    pub turns: SharedItems<RunSlot>,
    pub indexes: SharedItems<RunSlot>,
    pub answer: RunSlot,
}

/// What a variable holds.
pub fn slot_of(vars: &RunVars, object: Object) -> Result<RunSlot, AllocError>
    ensures { IfOk result (λ s. run_slot s ≡ store_of vars.now (var object)) }
{
    match object {
        Object::Param(number) => slot_of_list(&vars.params, number),
        Object::Local(number) => slot_of_list(&vars.locals, number),
        Object::Global(number) => slot_of_list(&vars.globals, number),
        Object::Turn(number) => slot_of_list(&vars.turns, number),
        Object::Index(number) => slot_of_list(&vars.indexes, number),
    }
}

/// Writes what a variable holds.
pub fn put_slot(
    alloc: Global,
    vars: &mut RunVars,
    object: Object,
    s: RunSlot,
) -> Result<(), AllocError>
    ensures { OnOk result ((y : Var) → store_of vars.new y ≡ put (store_of vars.old) (var object) (run_slot s) y) }
{
    match object {
        Object::Param(number) => put_in_list(alloc, &mut vars.params, number, s),
        Object::Local(number) => put_in_list(alloc, &mut vars.locals, number, s),
        Object::Global(number) => put_in_list(alloc, &mut vars.globals, number, s),
        Object::Turn(number) => put_in_list(alloc, &mut vars.turns, number, s),
        Object::Index(number) => put_in_list(alloc, &mut vars.indexes, number, s),
    }
}

/// Writes the result of a function.
pub fn put_answer(vars: &mut RunVars, s: RunSlot)
    ensures { (y : Var) → store_of vars.new y ≡ put (store_of vars.old) answer (run_slot s) y }
{
    vars.answer = s;
}

impl Copied for RunVars {
    fn copied(&self) -> Result<RunVars, AllocError> {
        Ok(RunVars {
            params: self.params.copy()?,
            locals: self.locals.copy()?,
            globals: self.globals.copy()?,
            turns: self.turns.copy()?,
            indexes: self.indexes.copy()?,
            answer: self.answer.copied()?,
        })
    }
}

/// The variables of a subprogram that is called, before it has its parameters.
pub fn entered(alloc: Global, vars: &RunVars) -> Result<RunVars, AllocError>
    ensures { IfOk result (λ new. (y : Var) → store_of new y ≡ entered (store_of vars.now) y) }
{
    Ok(RunVars {
        params: SharedItems::new(alloc)?,
        locals: SharedItems::new(alloc)?,
        globals: vars.globals.copy()?,
        turns: SharedItems::new(alloc)?,
        indexes: SharedItems::new(alloc)?,
        answer: RunSlot::Empty,
    })
}

/// The caller's variables after a call that left these.
pub fn with_globals(vars: &mut RunVars, called: &RunVars) -> Result<(), AllocError>
    ensures { OnOk result ((y : Var) → store_of vars.new y ≡ with_globals (store_of vars.old) (store_of called.now) y) }
{
    let globals = called.globals.copy()?;
    vars.globals = globals;
    Ok(())
}
