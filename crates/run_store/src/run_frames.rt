//! A subprogram at work: its variables now, at its start, and at the entry of each loop.

ghost use Rattle.std.specs.Prelude.{◌≡◌, ◌==◌, ◌<◌, ℕ, [], length, IfOk, OnOk};
ghost use Rattle.ada_semantics.specs.Outcome.{pick};
ghost use Rattle.run_store.specs.declared.variables.RunVars.{RunVars};
ghost use Rattle.run_store.specs.Entries.{entry_of};

use crate::variables::RunVars;
use shared_items::Copied;
use sqlite_items::Items;
use std::alloc::{AllocError, Global};

/// A subprogram at work. `entries` has its variables as they were when the loop of each number was entered.
#[derive(Drop)]
pub struct RunFrame {
    pub state: RunVars,
    pub start: RunVars,
    pub entries: Items<Option<RunVars>>,
}

/// A subprogram at its start.
pub fn begin(alloc: Global, vars: RunVars) -> Result<RunFrame, AllocError>
    ensures { IfOk result (λ frame. frame ≡ record { state = vars; start = vars; entries = [] }) }
{
    let start = match vars.copied() {
        Ok(start) => start,
        Err(e) => {
            drop(vars);
            return Err(e);
        }
    };
    Ok(RunFrame {
        state: vars,
        start,
        entries: Items::new(alloc),
    })
}

/// The variables at the entry of a loop; those at the start, where it was not entered.
pub fn entry_vars(frame: &RunFrame, number: u32) -> &RunVars
    ensures { result.now ≡ entry_of frame.now.entries frame.now.start number }
{
    match frame.entries.get(number as usize) {
        Some(Some(vars)) => vars,
        Some(None) => &frame.start,
        None => &frame.start,
    }
}

/// The loop of a number is entered.
pub fn enter_loop(frame: &mut RunFrame, number: u32) -> Result<(), AllocError>
    ensures state { OnOk result (frame.new.state ≡ frame.old.state) }
    ensures start { OnOk result (frame.new.start ≡ frame.old.start) }
    ensures entries { OnOk result
        ((k : ℕ) → entry_of frame.new.entries frame.old.start k ≡ pick (k == number) frame.old.state (entry_of frame.old.entries frame.old.start k)) }
{
    let vars = frame.state.copied()?;
    put_entry(&mut frame.entries, number as usize, vars)
}

fn put_entry(
    entries: &mut Items<Option<RunVars>>,
    number: usize,
    vars: RunVars,
) -> Result<(), AllocError>
    ensures { OnOk result
        ((start : RunVars) (k : ℕ) → entry_of entries.new start k ≡ pick (k == number) vars (entry_of entries.old start k)) }
{
    match grow_entries(entries, number) {
        Ok(()) => {
            entries.set(number, Some(vars));
            Ok(())
        }
        Err(e) => {
            drop(vars);
            Err(e)
        }
    }
}

fn grow_entries(entries: &mut Items<Option<RunVars>>, number: usize) -> Result<(), AllocError>
    ensures long { OnOk result (number < length entries.new) }
    ensures same { OnOk result ((start : RunVars) (k : ℕ) → entry_of entries.new start k ≡ entry_of entries.old start k) }
{
    'more: while entries.len() <= number {
        entries.push(None)?;
    }
    Ok(())
}
