//! The variables of one kind, by their numbers.

ghost use Rattle.std.specs.Prelude.{◌≡◌, ◌==◌, ℕ, ◌<◌, length, IfOk, OnOk};
ghost use Rattle.ada_semantics.specs.Outcome.{pick};
ghost use Rattle.ada_semantics.specs.Store.{slot_at};
ghost use Rattle.run_store.specs.RunSlots.{run_slot, run_slots};

use crate::slots::RunSlot;
use shared_items::{Copied, SharedItems};
use std::alloc::{AllocError, Global};

/// What a variable holds, by its number. One that isn't there was never set.
pub fn slot_of_list(list: &SharedItems<RunSlot>, number: u32) -> Result<RunSlot, AllocError>
    ensures { IfOk result (λ s. run_slot s ≡ slot_at (run_slots list.now) number) }
{
    match list.get(number as usize) {
        Some(s) => s.copied(),
        None => Ok(RunSlot::Empty),
    }
}

/// Writes what a variable holds, by its number. Those before it that aren't there hold nothing.
pub fn put_in_list(
    alloc: Global,
    list: &mut SharedItems<RunSlot>,
    number: u32,
    s: RunSlot,
) -> Result<(), AllocError>
    ensures { OnOk result
        ((k : ℕ) → slot_at (run_slots list.new) k ≡ pick (number == k) (run_slot s) (slot_at (run_slots list.old) k)) }
{
    let number = number as usize;
    grow(alloc, list, number)?;
    list.set(alloc, number, s)
}

fn grow(alloc: Global, list: &mut SharedItems<RunSlot>, number: usize) -> Result<(), AllocError>
    ensures long { OnOk result (number < length list.new) }
    ensures same { OnOk result ((k : ℕ) → slot_at (run_slots list.new) k ≡ slot_at (run_slots list.old) k) }
{
    'more: while list.len() <= number {
        list.push(alloc, RunSlot::Empty)?;
    }
    Ok(())
}
