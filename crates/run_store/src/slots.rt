//! What a variable of a run holds.

ghost use Rattle.std.specs.Prelude.{◌≡◌, IfOk, option_map};
ghost use Rattle.ada_semantics.specs.Store.{full, component_slot, item_slot, whole, wholes};
ghost use Rattle.run_values.specs.RunValues.{run_value, run_values};
ghost use Rattle.run_store.specs.RunSlots.{run_slot, run_slots};

use run_values::RunValue;
use shared_items::{Copied, SharedItems};
use std::alloc::{AllocError, Global};

/// What a variable holds: nothing that was ever set, a value, or a record of which some components may not be set.
#[derive(Drop)]
pub enum RunSlot {
    Empty,
    Full(RunValue),
    Parts(SharedItems<RunSlot>),
}

impl Copied for RunSlot {
    fn copied(&self) -> Result<RunSlot, AllocError> {
        match self {
            RunSlot::Empty => Ok(RunSlot::Empty),
            RunSlot::Full(value) => Ok(RunSlot::Full(value.copied()?)),
            RunSlot::Parts(parts) => Ok(RunSlot::Parts(parts.copy()?)),
        }
    }
}

/// What a component of a record holds.
pub fn component_slot(number: u32, s: &RunSlot) -> Result<RunSlot, AllocError>
    ensures { IfOk result (λ part. run_slot part ≡ component_slot number (run_slot s.now)) }
{
    match s {
        RunSlot::Empty => Ok(RunSlot::Empty),
        RunSlot::Full(value) => field_slot(number, value),
        RunSlot::Parts(parts) => match parts.get(number as usize) {
            Some(part) => part.copied(),
            None => Ok(RunSlot::Empty),
        },
    }
}

fn field_slot(number: u32, v: &RunValue) -> Result<RunSlot, AllocError>
    ensures { IfOk result (λ part. run_slot part ≡ component_slot number (full (run_value v.now))) }
{
    match v {
        RunValue::Rec(fields) => match fields.get(number as usize) {
            Some(field) => Ok(RunSlot::Full(field.copied()?)),
            None => Ok(RunSlot::Empty),
        },
        RunValue::Int(_) | RunValue::Bool(_) | RunValue::Arr(_) => Ok(RunSlot::Empty),
    }
}

/// What the item at a position from 0 of an array holds.
pub fn item_slot(position: usize, s: &RunSlot) -> Result<RunSlot, AllocError>
    ensures { IfOk result (λ part. run_slot part ≡ item_slot position (run_slot s.now)) }
{
    match s {
        RunSlot::Full(value) => item_of_value(position, value),
        RunSlot::Empty | RunSlot::Parts(_) => Ok(RunSlot::Empty),
    }
}

fn item_of_value(position: usize, v: &RunValue) -> Result<RunSlot, AllocError>
    ensures { IfOk result (λ part. run_slot part ≡ item_slot position (full (run_value v.now))) }
{
    match v {
        RunValue::Arr(array) => match array.items.get(position) {
            Some(item) => Ok(RunSlot::Full(item.copied()?)),
            None => Ok(RunSlot::Empty),
        },
        RunValue::Int(_) | RunValue::Bool(_) | RunValue::Rec(_) => Ok(RunSlot::Empty),
    }
}

/// The value, where all of it was set.
#[cycle(whole)]
pub fn whole_value(alloc: Global, s: &RunSlot) -> Result<Option<RunValue>, AllocError>
    ensures { IfOk result (λ v. option_map run_value v ≡ whole (run_slot s.now)) }
{
    match s {
        RunSlot::Empty => Ok(None),
        RunSlot::Full(value) => Ok(Some(value.copied()?)),
        RunSlot::Parts(parts) => match whole_parts(alloc, parts)? {
            Some(fields) => Ok(Some(RunValue::Rec(fields))),
            None => Ok(None),
        },
    }
}

#[cycle(whole)]
fn whole_parts(
    alloc: Global,
    parts: &SharedItems<RunSlot>,
) -> Result<Option<SharedItems<RunValue>>, AllocError>
    ensures { IfOk result (λ vs. option_map run_values vs ≡ wholes (run_slots parts.now)) }
{
    let mut all = SharedItems::new(alloc)?;
    for i in 0..parts.len() {
        let Some(part) = parts.get(i) else {
            return Ok(None);
        };
        match whole_value(alloc, part)? {
            Some(value) => all.push(alloc, value)?,
            None => return Ok(None),
        }
    }
    Ok(Some(all))
}
