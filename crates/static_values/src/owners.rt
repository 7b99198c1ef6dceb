//! Which share gives each component of a static aggregate.

ghost use Rattle.std.specs.Prelude.{◌≡◌, ◌<◌, ◌≤◌, ◌^◌, ◌&&◌, not, nat_lt, replicate, ℕ, pos, ◌+ℤ◌, ◌-ℤ◌, ◌≤ℤ◌, ◌<ℤ◌, IfOk, Some, None, length, vec_len};
ghost use Rattle.ada_values.specs.Scalars.{within};
ghost use Rattle.static_values.specs.Owners.{count_in, gives, owned, owners_from};
ghost use Rattle.statement_typing.specs.Values.{in_ranges};

use crate::Starved;
use statement_typing::Share;
use std::alloc::Global;
use typed_units::Bounds;

/// How many components there are. `Err` where they are 2^32 or more.
pub(crate) fn component_count(bounds: Bounds) -> Result<u32, Starved>
    ensures { IfOk result (λ n. n ≡ count_in bounds) }
{
    if bounds.last < bounds.first {
        return Ok(0);
    }
    let Some(more) = bounds.last.checked_sub(bounds.first) else {
        return Err(Starved);
    };
    if more >= 4294967295 {
        return Err(Starved);
    }
    Ok(more as u32 + 1)
}

/// How far a number stands behind another.
fn offset(from: i128, to: i128) -> usize
    requires ordered { from ≤ℤ to }
    requires near { (to -ℤ from) <ℤ pos (2 ^ 63) }
    ensures { pos result ≡ to -ℤ from }
{
    (to - from) as usize
}

/// Which of the components lie in a range: the first of them, counted from 0, and the one after the last.
fn components_in(bounds: Bounds, range: Bounds) -> (usize, usize)
    requires { count_in bounds < 2 ^ 63 }
    ensures ordered { result.0 ≤ result.1 }
    ensures within { result.1 ≤ count_in bounds }
    ensures each { (k : ℕ) → k < count_in bounds → within range.first range.last (bounds.first +ℤ pos k) ≡ (not (nat_lt k result.0) && nat_lt k result.1) }
{
    let first = range.first.max(bounds.first);
    let last = range.last.min(bounds.last);
    if last < first {
        return (0, 0);
    }
    (offset(bounds.first, first), offset(bounds.first, last) + 1)
}

/// The share of a number gives the components in a range.
fn give_range(owners: &mut Vec<Option<u32>>, bounds: Bounds, range: Bounds, share: u32)
    requires { length owners.old.items ≡ count_in bounds }
    ensures { owners.new.items ≡ owned (Some share) (within range.first range.last) bounds.first owners.old.items }
{
    let (from, to) = components_in(bounds, range);
    for at in from..to {
        owners[at] = Some(share);
    }
}

/// The share of a number gives the components in its ranges.
fn give_ranges(owners: &mut Vec<Option<u32>>, bounds: Bounds, ranges: &[Bounds], share: u32)
    requires { length owners.old.items ≡ count_in bounds }
    ensures { owners.new.items ≡ owned (Some share) (λ n. in_ranges n ranges.now) bounds.first owners.old.items }
{
    for range in ranges {
        give_range(owners, bounds, *range, share);
    }
}

/// The share of a number gives the components that it has: those in its ranges, and all for `others`.
fn give(owners: &mut Vec<Option<u32>>, bounds: Bounds, share: &Share, number: u32)
    requires { length owners.old.items ≡ count_in bounds }
    ensures { owners.new.items ≡ owned (Some number) (gives share.now) bounds.first owners.old.items }
{
    if share.others {
        give_range(owners, bounds, bounds, number);
    } else {
        give_ranges(owners, bounds, share.ranges.as_slice(), number);
    }
}

/// The number of the first share that gives each component. `Err` where memory was refused, as it is for 2^32 components or
/// shares, or more.
pub(crate) fn owners(
    alloc: Global,
    bounds: Bounds,
    shares: &[Share],
) -> Result<Vec<Option<u32>>, Starved>
    ensures { IfOk result (λ owners. owners.items ≡ owners_from 0 shares.now (count_in bounds) bounds.first) }
{
    let Ok(count) = u32::try_from(shares.len()) else {
        return Err(Starved);
    };
    let mut owners = no_owners(alloc, component_count(bounds)?)?;
    let mut left = count;
    while left > 0 {
        left -= 1;
        give(&mut owners, bounds, &shares[left as usize], left);
    }
    Ok(owners)
}

/// So many components without an owner.
fn no_owners(alloc: Global, count: u32) -> Result<Vec<Option<u32>>, Starved>
    ensures { IfOk result (λ owners. owners.items ≡ replicate count None) }
{
    let mut owners = Vec::new(alloc);
    for _ in 0..count {
        owners.push(None)?;
    }
    Ok(owners)
}
