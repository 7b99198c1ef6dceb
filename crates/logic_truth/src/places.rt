//! The indices by which two arrays are told apart.

ghost use Rattle.std.specs.Prelude.{◌≡◌, ◌∷◌, ◌++◌, [], IfOk, MatchOption, true, false, ℤ};
ghost use Rattle.logic_terms.specs.Meaning.{within};
ghost use Rattle.logic_terms.specs.Arrays.{has_item};
ghost use Rattle.logic_truth.specs.Places.{is_place as place, IsFlat, Tells, is_array};
ghost use Rattle.logic_truth.specs.Found.{found};

use crate::arrays::{first_of, last_of};
use crate::found::Found;
use logic_terms::Starved;
use sqlite_items::Items;
use std::alloc::Global;

/// Indices of arrays.
pub type PlaceList = Items<i128>;

/// The indices at which the array was changed.
fn changed(alloc: Global, v: &Found) -> Result<PlaceList, Starved>
    ensures { IfOk result (λ ps. IsFlat ps (found v.now)) }
{
    match v {
        Found::Stored(a, at, _) => {
            let mut places = changed(alloc, a.get())?;
            places.push(*at)?;
            Ok(places)
        }
        _ => Ok(Items::new(alloc)),
    }
}

/// Whether the index is one of the places.
fn is_place(places: &PlaceList, at: i128) -> bool
    ensures { result ≡ place places.now at }
{
    for known in places.as_slice() {
        if *known == at {
            return true;
        }
    }
    false
}

/// The first index within the bounds that is none of the places.
fn free_place(first: i128, last: i128, places: &PlaceList) -> Option<i128>
    ensures { MatchOption result ((i : ℤ) → within first last i ≡ true → place places.now i ≡ true) (λ i. (within first last i ≡ true) × (place places.now i ≡ false)) }
{
    let mut at = first;
    while at <= last {
        if !is_place(places, at) {
            return Some(at);
        }
        if at == last {
            return None;
        }
        at += 1;
    }
    None
}

/// Places at which the two arrays, which have the same bounds, differ if they differ anywhere.
pub fn telling_places(alloc: Global, a: &Found, b: &Found) -> Result<PlaceList, Starved>
    requires array { is_array (found a.now) ≡ true }
    requires bounds { (i : ℤ) → has_item (found a.now) i ≡ has_item (found b.now) i }
    ensures { IfOk result (λ ps. Tells ps (found a.now) (found b.now)) }
{
    let mut places = changed(alloc, a)?;
    places.append(changed(alloc, b)?)?;
    match free_place(first_of(a), last_of(a), &places) {
        Some(free) => {
            places.push(free)?;
            Ok(places)
        }
        None => Ok(places),
    }
}
