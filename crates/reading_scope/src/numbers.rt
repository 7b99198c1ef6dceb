//! The numbers of indexes, loop parameters and loops in their subprogram, to be looked up by their places.

ghost use Rattle.std.specs.Prelude.{◌≡◌, ℕ, IfOk};
ghost use Rattle.std.specs.BTreeMap.{get};
ghost use Rattle.std.specs.Ordering.{nat_cmp};
ghost use Rattle.reading_scope.specs.Numbers.{number_in, numbered_at};

use sqlite_items::Items;
use std::alloc::{AllocError, Global};
use std::collections::BTreeMap;
use std::marker::Model;

/// An index, a loop parameter or a loop: its first byte, and its number in its subprogram, from 0.
#[derive(Clone, Copy)]
pub struct Numbered {
    pub at: u32,
    pub number: u32,
}

/// The numbers of a subprogram's indexes, loop parameters and loops. Contracts see their list.
#[derive(Drop)]
pub struct Numbers {
    list: Items<Numbered>,
    by_place: BTreeMap<u32, u32>,
}

impl Model for Numbers {
    ghost use Rattle.std.specs.Prelude.{◌≡◌, ℕ, List};
    ghost use Rattle.std.specs.BTreeMap.{get};
    ghost use Rattle.std.specs.Ordering.{nat_cmp};
    ghost use Rattle.reading_scope.specs.Numbers.{numbered_at};
    ghost use Rattle.reading_scope.specs.declared.numbers.Numbered.{Numbered};

    ghost Value = { List Numbered };

    ghost view = { λ n. n.list };

    ghost invariant = { λ n. (at : ℕ) → get nat_cmp n.by_place at ≡ numbered_at at n.list };
}

/// Of each byte the number of the first that begins there.
fn first_of_each(alloc: Global, list: &[Numbered]) -> Result<BTreeMap<u32, u32>, AllocError>
    ensures { IfOk result (λ first. (at : ℕ) → get nat_cmp first at ≡ numbered_at at list.now) }
{
    let mut first = BTreeMap::new(alloc);
    let mut left = list.len();
    while left > 0 {
        left -= 1;
        let numbered = list[left];
        first.insert(numbered.at, numbered.number)?;
    }
    Ok(first)
}

impl Numbers {
    /// The numbers of such a list. `Err` where memory was refused.
    pub fn new(alloc: Global, list: Items<Numbered>) -> Result<Numbers, AllocError>
        ensures { IfOk result (λ numbers. numbers ≡ list) }
    {
        let by_place = first_of_each(alloc, list.as_slice())?;
        Ok(Numbers { list, by_place })
    }

    /// The number of what begins at a byte, of the first such; 0 where nothing does. In logarithmic time.
    pub fn number_at(&self, at: u32) -> u32
        ensures { result ≡ number_in self.now at }
    {
        match self.by_place.get(&at) {
            Some(number) => *number,
            None => 0,
        }
    }
}
