//! Aggregates: what is given to which component, and the value that they make.

ghost use Rattle.std.specs.Prelude.{◌≡◌, ◌+ℤ◌, pos, IfOk, option_map};
ghost use Rattle.ada_semantics.specs.Operators.{lies_in, claims, claims_any, fill, built, span};
ghost use Rattle.ada_semantics.specs.Store.{empties, wholes};
ghost use Rattle.run_values.specs.RunValues.{run_value, run_values};
ghost use Rattle.run_values.specs.Components.{slot_of, slots_of};

use crate::arrays::{lies_within, span_within};
use crate::values::{RunArray, RunValue};
use shared_items::{Copied, SharedItems};
use sqlite_items::Items;
use std::alloc::{AllocError, Global};
use typed_units::{Bounds, Composite};

/// The components of an aggregate, as far as something was given to them.
pub type GivenList = Items<Option<RunValue>>;

/// The components from `first` to `last`, to which nothing was given.
#[tactic(auto, using(crate::proofs::GivenParts::nones_more))]
pub fn nothing_given(alloc: Global, first: i128, last: i128) -> Result<GivenList, AllocError>
    ensures { IfOk result (λ given. slots_of given ≡ empties (span first last)) }
{
    let Some(count) = span_within(first, last) else {
        return Err(AllocError);
    };
    let mut given = Items::new(alloc);
    for _number in 0..count {
        given.push(None)?;
    }
    Ok(given)
}

/// Whether a component lies in one of the ranges.
pub fn lies_in(ranges: &[Bounds], component: i128) -> bool
    ensures { result ≡ lies_in ranges.now component }
{
    for bounds in ranges {
        if lies_within(bounds.first, bounds.last, component) {
            return true;
        }
    }
    false
}

/// Whether an association gives a component, to which so far this was given.
pub fn claims(ranges: &[Bounds], others: bool, component: i128, given: &Option<RunValue>) -> bool
    ensures { result ≡ claims ranges.now others component (slot_of given.now) }
{
    if others {
        match given {
            None => true,
            Some(_) => false,
        }
    } else {
        lies_in(ranges, component)
    }
}

/// Whether an association gives any of the components, which begin at `first`.
pub fn claims_any(
    ranges: &[Bounds],
    others: bool,
    first: i128,
    given: &[Option<RunValue>],
) -> Result<bool, AllocError>
    ensures { IfOk result (λ any. any ≡ claims_any ranges.now others first (slots_of given.now)) }
{
    let mut component = first;
    for one in given {
        if claims(ranges, others, component, one) {
            return Ok(true);
        }
        component = following(component)?;
    }
    Ok(false)
}

fn following(component: i128) -> Result<i128, AllocError>
    ensures { IfOk result (λ next. next ≡ component +ℤ pos 1) }
{
    match component.checked_add(1) {
        Some(next) => Ok(next),
        None => Err(AllocError),
    }
}

/// The components after an association gave a value to some of them.
pub fn filled(
    alloc: Global,
    ranges: &[Bounds],
    others: bool,
    first: i128,
    v: &RunValue,
    given: &[Option<RunValue>],
) -> Result<GivenList, AllocError>
    ensures { IfOk result (λ new. slots_of new ≡ fill ranges.now others first (run_value v.now) (slots_of given.now)) }
{
    let mut filled = Items::new(alloc);
    let mut component = first;
    for one in given {
        if claims(ranges, others, component, one) {
            filled.push(Some(v.copied()?))?;
        } else {
            filled.push(copied_option(one)?)?;
        }
        component = following(component)?;
    }
    Ok(filled)
}

fn copied_option(one: &Option<RunValue>) -> Result<Option<RunValue>, AllocError>
    ensures { IfOk result (λ copy. copy ≡ one.now) }
{
    match one {
        None => Ok(None),
        Some(v) => Ok(Some(v.copied()?)),
    }
}

/// The components' values, where each was given one.
pub fn whole_values(
    alloc: Global,
    given: &[Option<RunValue>],
) -> Result<Option<SharedItems<RunValue>>, AllocError>
    ensures { IfOk result (λ all. option_map run_values all ≡ wholes (slots_of given.now)) }
{
    let mut all = SharedItems::new(alloc)?;
    for one in given {
        match one {
            None => return Ok(None),
            Some(v) => all.push(alloc, v.copied()?)?,
        }
    }
    Ok(Some(all))
}

/// The value that an aggregate's components make.
pub fn built(composite: Composite, bounds: &Bounds, items: SharedItems<RunValue>) -> RunValue
    ensures { run_value result ≡ built composite bounds.now (run_values items) }
{
    match composite {
        Composite::Array => RunValue::Arr(RunArray {
            first: bounds.first,
            last: bounds.last,
            items,
        }),
        Composite::Record => RunValue::Rec(items),
    }
}
