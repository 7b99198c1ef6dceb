//! Whether ranges hold each value of a range of values once.

ghost use Rattle.std.specs.Prelude.{◌≡◌, IfOk};
ghost use Rattle.choice_cover.specs.Cover.{IsCover};
ghost use Rattle.choice_cover.specs.Covering.{covering};

use crate::Starved;
use crate::bounds::inside_front;
use crate::sweeps::{fills, first_twice, rising};
use std::alloc::Global;
use typed_units::Bounds;

/// What ranges are for the values from a first to a last one.
#[derive(Clone, Copy, Debug, PartialEq, Eq)]
pub enum Cover {
    /// The range of this number holds a value that is not asked for. The ranges before it hold none such, and no value twice.
    Outside(usize),
    /// The range of this number holds a value that an earlier range holds. It holds none that is not asked for; nor do the
    /// ranges before it, which hold no value twice.
    Twice(usize),
    /// No value lies in two ranges, and none that is not asked for lies in one; but some value lies in none.
    Missing,
    /// Each value lies in one range, and the ranges hold no other value.
    Whole,
}

fn found_cover(alloc: Global, ranges: &[Bounds], lo: i128, hi: i128) -> Result<Cover, Starved>
    ensures { IfOk result (λ c. IsCover ranges.now lo hi c) }
{
    let front = inside_front(ranges, lo, hi);
    if let Some(k) = first_twice(alloc, &ranges[..front])? {
        return Ok(Cover::Twice(k));
    }
    if front < ranges.len() {
        return Ok(Cover::Outside(front));
    }
    if hi < lo {
        return Ok(Cover::Whole);
    }
    let sorted = rising(alloc, ranges)?;
    if fills(&sorted, lo, hi) {
        Ok(Cover::Whole)
    } else {
        Ok(Cover::Missing)
    }
}

/// What the ranges are for the values `lo .. hi`, which are none where `hi` is the smaller. A range whose last value is the
/// smaller holds none. The time grows as n log n, or n (log n)² where a value lies in two ranges.
#[tactic(auto, using(crate::proofs::Function::same_as))]
pub fn cover_of(alloc: Global, ranges: &[Bounds], lo: i128, hi: i128) -> Result<Cover, Starved>
    ensures is { IfOk result (λ c. IsCover ranges.now lo hi c) }
    ensures value { IfOk result (λ c. c ≡ covering ranges.now lo hi) }
{
    found_cover(alloc, ranges, lo, hi)
}
