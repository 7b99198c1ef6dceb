//! Walks over ranges in the order of their first values.

ghost use Rattle.std.specs.Prelude.{◌≡◌, ◌≤◌, ◌<◌, ℕ, ℤ, true, IfOk, All, filter};
ghost use Rattle.std.specs.List.Sorted.{IsPermutation, IsSortedByKey};
ghost use Rattle.std.specs.Ordering.{int_cmp};
ghost use Rattle.choice_cover.specs.Cover.{holds, times};
ghost use Rattle.choice_cover.specs.Sweeps.{IsFirstTwice, IsOnce, apart, fill, holds_any};

use crate::Starved;
use std::alloc::Global;
use typed_units::Bounds;

/// The ranges that hold a value.
fn not_null(alloc: Global, ranges: &[Bounds]) -> Result<Vec<Bounds>, Starved>
    ensures { IfOk result (λ v. v.items ≡ filter holds_any ranges.now) }
{
    let mut found = Vec::new(alloc);
    for range in ranges {
        if range.first <= range.last {
            found.push(*range)?;
        }
    }
    Ok(found)
}

/// The ranges that hold a value, in the order of their first values.
pub(crate) fn rising(alloc: Global, ranges: &[Bounds]) -> Result<Vec<Bounds>, Starved>
    ensures same { IfOk result (λ v. IsPermutation (filter holds_any ranges.now) v.items) }
    ensures rises { IfOk result (λ v. IsSortedByKey (λ b. b.first) int_cmp v.items) }
{
    let mut found = not_null(alloc, ranges)?;
    found.sort_by_key(|range| range.first)?;
    Ok(found)
}

/// Whether each range begins after the end of the one before it.
fn is_apart(sorted: &[Bounds]) -> bool
    ensures { result ≡ apart sorted.now }
{
    let Some((first, rest)) = sorted.split_first() else {
        return true;
    };
    let mut reach = first.last;
    for range in rest {
        if range.first <= reach {
            return false;
        }
        reach = range.last;
    }
    true
}

/// Whether the ranges hold each value of `lo .. hi`, which is not null. Their first values rise.
pub(crate) fn fills(sorted: &[Bounds], lo: i128, hi: i128) -> bool
    ensures { result ≡ fill lo hi sorted.now }
{
    let mut next = lo;
    for range in sorted {
        if range.first > next {
            return false;
        }
        if range.last >= hi {
            return true;
        }
        next = next.max(range.last + 1);
    }
    false
}

/// Whether no value lies in two of the ranges.
fn is_once(alloc: Global, ranges: &[Bounds]) -> Result<bool, Starved>
    ensures { IfOk result (λ yes. IsOnce ranges.now yes) }
{
    let sorted = rising(alloc, ranges)?;
    Ok(is_apart(&sorted))
}

/// The number of the first range that holds a value of an earlier one.
pub(crate) fn first_twice(alloc: Global, ranges: &[Bounds]) -> Result<Option<usize>, Starved>
    ensures { IfOk result (λ k. IsFirstTwice ranges.now k) }
{
    if is_once(alloc, ranges)? {
        return Ok(None);
    }
    let mut once = 0;
    let mut crowded = ranges.len();
    while once + 1 < crowded {
        let middle = once + (crowded - once) / 2;
        if is_once(alloc, &ranges[..middle])? {
            once = middle;
        } else {
            crowded = middle;
        }
    }
    Ok(Some(once))
}
