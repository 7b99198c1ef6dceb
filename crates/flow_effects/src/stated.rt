//! F6: stated `Global`s.

ghost use Rattle.std.specs.Prelude.{◌≡◌, ◌++◌, IfOk, OnOk};
ghost use Rattle.flow_rules.specs.Aliases.{set_at};
ghost use Rattle.flow_rules.specs.Functions.{all_in, fits, same_set, stated_fault, without};
ghost use Rattle.flow_rules.specs.Headed.{is_in_out, is_input, is_output, listed};
ghost use Rattle.flow_effects.specs.Modes.{is_mode};

use crate::Starved;
use crate::passed::is_in;
use flow_rules::{FlowFault, FlowList};
use sqlite_items::Items;
use std::alloc::Global;
use typed_units::{GlobalAspect, GlobalItem, GlobalMode};

fn is_mode(wanted: GlobalMode, mode: GlobalMode) -> bool
    ensures { result ≡ is_mode wanted mode }
{
    match wanted {
        GlobalMode::Input => match mode {
            GlobalMode::Input => true,
            GlobalMode::Output | GlobalMode::InOut => false,
        },
        GlobalMode::Output => match mode {
            GlobalMode::Output => true,
            GlobalMode::Input | GlobalMode::InOut => false,
        },
        GlobalMode::InOut => match mode {
            GlobalMode::InOut => true,
            GlobalMode::Input | GlobalMode::Output => false,
        },
    }
}

/// Adds the globals that are listed with a mode.
fn push_listed(
    found: &mut Items<u32>,
    mut items: &[GlobalItem],
    wanted: GlobalMode,
) -> Result<(), Starved>
    ensures { OnOk result (found.new ≡ found.old ++ listed (is_mode wanted) items.entry.now) }
{
    while let [item, rest @ ..] = items {
        if is_mode(wanted, item.mode) {
            found.push(item.global)?;
        }
        items = rest;
    }
    Ok(())
}

fn all_in(mut numbers: &[u32], others: &[u32]) -> bool
    ensures { result ≡ all_in numbers.entry.now others.now }
{
    while let [first, rest @ ..] = numbers {
        if !is_in(*first, others) {
            return false;
        }
        numbers = rest;
    }
    true
}

fn same_set(a: &[u32], b: &[u32]) -> bool
    ensures { result ≡ same_set a.now b.now }
{
    all_in(a, b) && all_in(b, a)
}

fn without(alloc: Global, mut numbers: &[u32], others: &[u32]) -> Result<Items<u32>, Starved>
    ensures { IfOk result (λ found. found ≡ without numbers.entry.now others.now) }
{
    let mut found = Items::new(alloc);
    while let [first, rest @ ..] = numbers {
        if !is_in(*first, others) {
            found.push(*first)?;
        }
        numbers = rest;
    }
    Ok(found)
}

fn fits(alloc: Global, items: &[GlobalItem], read: &[u32], written: &[u32]) -> Result<bool, Starved>
    ensures { IfOk result (λ fit. fit ≡ fits items.now read.now written.now) }
{
    let mut outputs = Items::new(alloc);
    push_listed(&mut outputs, items, GlobalMode::Output)?;
    push_listed(&mut outputs, items, GlobalMode::InOut)?;
    let mut inputs = Items::new(alloc);
    push_listed(&mut inputs, items, GlobalMode::Input)?;
    let read_alone = without(alloc, read, written)?;
    Ok(same_set(outputs.as_slice(), written) && same_set(inputs.as_slice(), read_alone.as_slice()))
}

/// Adds the fault of a stated `Global` that doesn't fit the sets.
pub(crate) fn push_stated_fault(
    alloc: Global,
    found: &mut FlowList,
    stated: &Option<GlobalAspect>,
    read: &[u32],
    written: &[u32],
) -> Result<(), Starved>
    ensures { OnOk result (found.new ≡ found.old ++ stated_fault stated.now read.now written.now) }
{
    match stated {
        None => Ok(()),
        Some(aspect) => {
            if fits(alloc, aspect.items.as_slice(), read, written)? {
                return Ok(());
            }
            found.push(FlowFault {
                rule: 6,
                place: aspect.place,
            })
        }
    }
}
