//! Parts of lists.

ghost use Rattle.std.specs.Prelude.{◌≡◌, drop, take};

/// So many items from a number on, as far as there are any.
#[tactic(auto, using(crate::proofs::Named::cut))]
pub fn part_of<T>(all: &[T], first: u32, count: u32) -> &[T]
    ensures { result.now ≡ take count (drop first all.now) }
{
    let from = (first as usize).min(all.len());
    let rest = &all[from..];
    let to = (count as usize).min(rest.len());
    &rest[..to]
}
