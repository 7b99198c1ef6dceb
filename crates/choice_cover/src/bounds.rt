//! Ranges against the values that are asked for.

ghost use Rattle.std.specs.Prelude.{◌≡◌, ◌≤◌, ◌<◌, ℕ, ℤ, true, false, Some, length, slice_get};
ghost use Rattle.ada_values.specs.Scalars.{within};
ghost use Rattle.typed_units.specs.declared.operators.Bounds.{Bounds as Range};
ghost use Rattle.choice_cover.specs.Cover.{holds};
ghost use Rattle.choice_cover.specs.Sweeps.{fits_in};

use typed_units::Bounds;

/// Whether each value of the range lies in `lo .. hi`.
fn fits_in(range: Bounds, lo: i128, hi: i128) -> bool
    ensures { result ≡ fits_in lo hi range }
{
    range.last < range.first || lo <= range.first && range.last <= hi
}

/// How many ranges stand before the first that holds a value outside `lo .. hi`.
pub(crate) fn inside_front(ranges: &[Bounds], lo: i128, hi: i128) -> usize
    ensures within { result ≤ length ranges.now }
    ensures before { (k : ℕ) (b : Range) → k < result → slice_get ranges.now k ≡ Some b → fits_in lo hi b ≡ true }
    ensures first { (b : Range) → slice_get ranges.now result ≡ Some b → fits_in lo hi b ≡ false }
{
    for (k, range) in ranges.iter().enumerate() {
        if !fits_in(*range, lo, hi) {
            return k;
        }
    }
    ranges.len()
}
