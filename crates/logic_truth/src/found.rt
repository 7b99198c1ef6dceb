//! Values that are computed.

ghost use Rattle.std.specs.Prelude.{◌≡◌, IfOk, true};
ghost use Rattle.logic_terms.specs.Value.{with_value};
ghost use Rattle.logic_terms.specs.Meaning.{field as field_of, item, with_field as with_field_of};
ghost use Rattle.logic_terms.specs.Arrays.{has_item as has};
ghost use Rattle.logic_truth.specs.Found.{found, found_all};

use logic_terms::Starved;
use sqlite_items::{Boxed, Items};
use std::alloc::Global;

/// Why no truth is found.
#[derive(Clone, Copy, Debug, PartialEq, Eq)]
pub enum TruthFault {
    /// A number that was visited leaves 128 bits.
    Wide,
    /// More than 10000 nodes were to be visited.
    TooLong,
    /// There was no memory left.
    Starved,
}

impl From<Starved> for TruthFault {
    ghost use Rattle.std.specs.Prelude.{◌≡◌};
    ghost use Rattle.logic_truth.specs.declared.found.TruthFault.TheVariants as fault;

    ghost from_gives = { λ _ e. e ≡ fault.Starved };

    fn from(_error: Starved) -> TruthFault {
        TruthFault::Starved
    }
}

/// The value of a constant term. An array is kept as the term that makes it, so its size costs nothing.
pub enum Found {
    Num(i128),
    Truth(bool),
    /// The array from a first to a last index with one value throughout.
    Filled(i128, i128, Boxed<Found>),
    /// The array with another value at an index.
    Stored(Boxed<Found>, i128, Boxed<Found>),
    Record(FoundList),
}

impl Drop for Found {
    fn drop(self) {
        match self {
            Found::Num(_) => {}
            Found::Truth(_) => {}
            Found::Filled(_, _, item) => drop(item),
            Found::Stored(array, _, item) => {
                drop(array);
                drop(item);
            }
            Found::Record(fields) => drop(fields),
        }
    }
}

impl Found {
    /// The item at an index that the array has.
    pub fn item_within(self, at: i128) -> Found
        requires { has (found self) at ≡ true }
        ensures { found result ≡ item (found self) at }
    {
        match self {
            Found::Filled(_, _, item) => item.into_inner(),
            Found::Stored(a, place, item) => {
                if place == at {
                    item.into_inner()
                } else {
                    a.into_inner().item_within(at)
                }
            }
            other => other,
        }
    }

    /// The field of a record, or 0.
    #[tactic(auto, using(logic_terms::proofs::Items::field_stored))]
    pub fn field(self, k: u32) -> Found
        ensures { found result ≡ field_of k (found self) }
    {
        match self {
            Found::Record(mut vs) => {
                if (k as usize) < vs.len() {
                    vs.remove(k as usize)
                } else {
                    Found::Num(0)
                }
            }
            Found::Stored(a, _, _) => a.into_inner().field(k),
            _ => Found::Num(0),
        }
    }

    /// The record with another value of a field.
    pub fn with_field(self, alloc: Global, k: u32, new: Found) -> Result<Found, Starved>
        ensures { IfOk result (λ r. found r ≡ with_field_of k (found self) (found new)) }
    {
        match self {
            Found::Record(vs) => Ok(Found::Record(replaced(vs, k, new))),
            Found::Stored(a, place, item) => {
                let a = a.into_inner().with_field(alloc, k, new)?;
                Ok(Found::Stored(Boxed::new(alloc, a)?, place, item))
            }
            other => Ok(other),
        }
    }
}

/// The fields with another value at a number, where there is one.
#[tactic(auto, using(crate::proofs::Whole::found_set, crate::proofs::Whole::found_not_set))]
fn replaced(mut vs: FoundList, k: u32, new: Found) -> FoundList
    ensures { found_all result ≡ with_value (found_all vs) k (found new) }
{
    if (k as usize) < vs.len() {
        vs.set(k as usize, new);
        vs
    } else {
        vs
    }
}

/// Values in order.
pub type FoundList = Items<Found>;

/// The numbers that the quantifiers around a place have reached, the nearest first.
#[derive(Clone, Copy)]
pub enum Variables<'a> {
    Nothing,
    Over(i128, &'a Variables<'a>),
}
