//! Parts of what a variable holds, by the way to them.

ghost use Rattle.std.specs.Prelude.{◌≡◌, IfOk, Some};
ghost use Rattle.ada_semantics.specs.Store.{full, whole, is_array};
ghost use Rattle.run_values.specs.RunValues.{run_value};
ghost use Rattle.ada_semantics.specs.Targets.{slot_in, reaches, own_bounds};
ghost use Rattle.run_store.specs.RunSlots.{run_slot};
ghost use Rattle.run_store.specs.Spots.{spots_of, stepped, is_item};

use crate::slots::{RunSlot, component_slot, item_slot};
use run_values::RunValue;
use shared_items::Copied;
use std::alloc::AllocError;
use typed_units::Bounds;

/// A step whose index is known: the component of a number, of so many, or the item at a position from 0.
#[derive(Clone, Copy, Debug, PartialEq, Eq)]
pub enum RunSpot {
    Component(u32, u32),
    Item(usize),
}

/// What stands there.
pub fn slot_within(spots: &[RunSpot], s: &RunSlot) -> Result<RunSlot, AllocError>
    ensures { IfOk result (λ part. run_slot part ≡ slot_in (spots_of spots.now) (run_slot s.now)) }
{
    let mut part = s.copied()?;
    for spot in spots {
        part = part_at(*spot, &part)?;
    }
    Ok(part)
}

/// What stands one step further.
pub fn part_at(spot: RunSpot, s: &RunSlot) -> Result<RunSlot, AllocError>
    ensures { IfOk result (λ part. run_slot part ≡ stepped spot (run_slot s.now)) }
{
    match spot {
        RunSpot::Component(number, _) => component_slot(number, s),
        RunSpot::Item(position) => item_slot(position, s),
    }
}

/// Whether each array on the way is set.
pub fn reaches(spots: &[RunSpot], s: &RunSlot) -> Result<bool, AllocError>
    ensures { IfOk result (λ all. all ≡ reaches (spots_of spots.now) (run_slot s.now)) }
{
    let mut part = s.copied()?;
    for spot in spots {
        if is_item(*spot) && !holds_array(&part) {
            return Ok(false);
        }
        part = part_at(*spot, &part)?;
    }
    Ok(true)
}

fn is_item(spot: RunSpot) -> bool
    ensures { result ≡ is_item spot }
{
    match spot {
        RunSpot::Item(_) => true,
        RunSpot::Component(_, _) => false,
    }
}

/// Whether an array stands there.
pub fn holds_array(s: &RunSlot) -> bool
    ensures { result ≡ is_array (run_slot s.now) }
{
    match s {
        RunSlot::Full(value) => is_array_value(value),
        RunSlot::Empty | RunSlot::Parts(_) => false,
    }
}

fn is_array_value(v: &RunValue) -> bool
    ensures { result ≡ is_array (full (run_value v.now)) }
{
    match v {
        RunValue::Arr(_) => true,
        RunValue::Int(_) | RunValue::Bool(_) | RunValue::Rec(_) => false,
    }
}

/// The bounds of an array that stands there.
#[tactic(auto, using(crate::proofs::OwnBounds::parts_bound))]
pub fn own_bounds(s: &RunSlot) -> Option<Bounds>
    ensures { result ≡ own_bounds (whole (run_slot s.now)) }
{
    match s {
        RunSlot::Full(value) => value_bounds(value),
        RunSlot::Empty | RunSlot::Parts(_) => None,
    }
}

fn value_bounds(v: &RunValue) -> Option<Bounds>
    ensures { result ≡ own_bounds (Some (run_value v.now)) }
{
    match v {
        RunValue::Arr(array) => Some(Bounds {
            first: array.first,
            last: array.last,
        }),
        RunValue::Int(_) | RunValue::Bool(_) | RunValue::Rec(_) => None,
    }
}
