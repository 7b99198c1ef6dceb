//! The numbers of declaring identifiers, to be looked up by their places.

ghost use Rattle.std.specs.Prelude.{◌≡◌, ◌<◌, ◌^◌, IfOk, length};
ghost use Rattle.program_scope.specs.Ranks.{HasRanks};
ghost use Rattle.statement_typing.specs.Files.{rank};

use name_library::Spot;
use sqlite_items::Items;
use std::alloc::{AllocError, Global};
use std::collections::BTreeMap;
use std::marker::Model;

/// Declaring identifiers in the order of their numbers, from 0. Contracts see their list.
#[derive(Drop)]
pub struct SpotRanks {
    list: Items<Spot>,
    count: u32,
    /// The numbers by the number of the file and the first byte of the identifier.
    by_spot: BTreeMap<(u32, u32), u32>,
}

impl Model for SpotRanks {
    ghost use Rattle.std.specs.Prelude.{◌≡◌, List, length};
    ghost use Rattle.name_library.specs.declared.links.Spot.{Spot};
    ghost use Rattle.program_scope.specs.Ranks.{HasRanks};

    ghost Value = { List Spot };

    ghost view = { λ r. r.list };

    ghost invariant = { λ r. HasRanks r.by_spot r.list × (r.count ≡ length r.list) };
}

/// The number of each identifier, of two that are one the first.
fn first_of_each(
    alloc: Global,
    spots: &[Spot],
    count: u32,
) -> Result<BTreeMap<(u32, u32), u32>, AllocError>
    requires { count ≡ length spots.now }
    ensures { IfOk result (λ first. HasRanks first spots.now) }
{
    let mut first = BTreeMap::new(alloc);
    let mut left = count;
    while left > 0 {
        left -= 1;
        let spot = spots[left as usize];
        first.insert((spot.file, spot.at), left)?;
    }
    Ok(first)
}

impl SpotRanks {
    /// The numbers of such a list. `Err` where memory was refused, as it is for 2^32 entries or more.
    pub fn new(alloc: Global, list: Items<Spot>) -> Result<SpotRanks, AllocError>
        ensures { IfOk result (λ ranks. ranks ≡ list) }
    {
        let Ok(count) = u32::try_from(list.as_slice().len()) else {
            return Err(AllocError);
        };
        let by_spot = first_of_each(alloc, list.as_slice(), count)?;
        Ok(SpotRanks {
            list,
            count,
            by_spot,
        })
    }

    /// The number of an identifier, or the length of the list where it isn't there. In logarithmic time.
    pub fn rank(&self, spot: Spot) -> u32
        ensures { result ≡ rank self.now spot }
    {
        match self.by_spot.get(&(spot.file, spot.at)) {
            Some(number) => *number,
            None => self.count,
        }
    }
}
