//! The items and the lengths of arrays.

ghost use Rattle.std.specs.Prelude.{◌≡◌, ℕ, ◌<◌, ◌≤◌, ◌≤ℤ◌, ◌<ℤ◌, IfOk, IfSome, MatchOption, pos, slice_get};
ghost use Rattle.std.specs.Option.{option_copied};
ghost use Rattle.ada_values.specs.Value.{array, number};
ghost use Rattle.ada_values.specs.Combine.{ranged};
ghost use Rattle.ada_values.specs.Scalars.{within};
ghost use Rattle.ada_values.specs.declared.place.Place.{Place};
ghost use Rattle.typed_units.specs.Syntax.{item, length_at};
ghost use Rattle.ada_semantics.specs.Operators.{apply1, apply2, item_of, position, span};
ghost use Rattle.run_values.specs.RunValues.{run_value, run_values};
ghost use Rattle.run_values.specs.Outcomes.{made};

use crate::checks::{Ending, Made, ends_at};
use crate::operators::in_base;
use crate::values::RunValue;
use ada_values::{OpFault, Place, Scalar};
use shared_items::{Copied, SharedItems};
use std::alloc::AllocError;
use typed_units::CheckKind;

// The greatest number of 128 bits.
const LONGEST: u128 = 170_141_183_460_469_231_731_687_303_715_884_105_727;

/// Whether a number lies within two bounds.
pub fn lies_within(first: i128, last: i128, number: i128) -> bool
    ensures { result ≡ within first last number }
{
    first <= number && number <= last
}

/// The position, from 0, of a number that isn't below the first, where it is below `count`.
pub fn position_below(first: i128, number: i128, count: usize) -> Option<usize>
    requires { first ≤ℤ number }
    ensures { MatchOption result (count ≤ position first number) (λ at. (at ≡ position first number) × (at < count)) }
{
    let position = number.abs_diff(first);
    if position < count as u128 {
        Some(position as usize)
    } else {
        None
    }
}

/// The item at an index that isn't below the first.
pub fn item_at(first: i128, index: i128, items: &SharedItems<RunValue>) -> Option<&RunValue>
    requires { first ≤ℤ index }
    ensures { option_copied result ≡ slice_get items.now (position first index) }
{
    match position_below(first, index, items.len()) {
        Some(position) => items.get(position),
        None => None,
    }
}

/// An item of an array, with whether there is an index check, and its place.
pub fn item_of(
    is_checked: bool,
    place: Place,
    a: &RunValue,
    index: &RunValue,
) -> Result<Made, AllocError>
    ensures { IfOk result
        (λ r. (n : ℕ) → made r n ≡ apply2 (item is_checked) place (run_value a.now) (run_value index.now) n) }
{
    let RunValue::Arr(array) = a else {
        return Ok(Made::Ends(Ending::Unset));
    };
    let RunValue::Int(index) = index else {
        return Ok(Made::Ends(Ending::Unset));
    };
    item_between(
        is_checked,
        place,
        array.first,
        array.last,
        &array.items,
        *index,
    )
}

fn item_between(
    is_checked: bool,
    place: Place,
    first: i128,
    last: i128,
    items: &SharedItems<RunValue>,
    index: i128,
) -> Result<Made, AllocError>
    ensures { IfOk result
        (λ r. (n : ℕ) → made r n ≡ item_of is_checked place (array first last (run_values items.now)) (number index) n) }
{
    if lies_within(first, last, index) {
        match item_at(first, index, items) {
            Some(item) => Ok(Made::Is(item.copied()?)),
            None => Ok(Made::Ends(Ending::Unset)),
        }
    } else if is_checked {
        Ok(ends_at(place, CheckKind::Index))
    } else {
        Ok(Made::Ends(Ending::Unset))
    }
}

/// `'Length` of an array, with the place of its tick.
#[tactic(auto, using(crate::proofs::Based::based_span))]
pub fn length_of(place: Place, s: &Scalar, v: &RunValue) -> Made
    ensures { (q : Place) (n : ℕ) → made result n ≡ apply1 (length_at place s.now) q (run_value v.now) n }
{
    match v {
        RunValue::Arr(array) => in_base(
            place,
            length_in(s.base_lo, s.base_hi, array.first, array.last),
        ),
        RunValue::Int(_) | RunValue::Bool(_) | RunValue::Rec(_) => Made::Ends(Ending::Unset),
    }
}

// How many numbers lie from `first` to `last`, in the base range.
fn length_in(low: i128, high: i128, first: i128, last: i128) -> Result<i128, OpFault>
    ensures { result ≡ ranged low high (Ok (pos (span first last))) }
{
    match length_between(first, last) {
        Some(length) => in_range(low, high, length),
        None => Err(OpFault::Overflow),
    }
}

/// How many numbers lie from `first` to `last`, where a list may have so many.
pub fn span_within(first: i128, last: i128) -> Option<usize>
    ensures { IfSome result (λ count. count ≡ span first last) }
{
    let length = length_between(first, last)?;
    if 0 <= length && length <= 18_446_744_073_709_551_615 {
        Some(length as usize)
    } else {
        None
    }
}

// How many numbers lie from `first` to `last`, where that has 128 bits.
fn length_between(first: i128, last: i128) -> Option<i128>
    ensures { MatchOption result (pos 170141183460469231731687303715884105727 <ℤ pos (span first last)) (λ length. length ≡ pos (span first last)) }
{
    if last < first {
        return Some(0);
    }
    let steps = last.abs_diff(first);
    if steps < LONGEST {
        Some(steps as i128 + 1)
    } else {
        None
    }
}

fn in_range(low: i128, high: i128, number: i128) -> Result<i128, OpFault>
    ensures { result ≡ ranged low high (Ok number) }
{
    if lies_within(low, high, number) {
        Ok(number)
    } else {
        Err(OpFault::Overflow)
    }
}
