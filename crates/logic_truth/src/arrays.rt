//! Arrays and records that are computed.

ghost use Rattle.std.specs.Prelude.{◌≡◌, ◌<◌, ◌↔◌, IfOk, IsTrue, true, length};
ghost use Rattle.logic_terms.specs.Value.{as_number, as_truth, default, defaults, kind_of, kinds_of, with_value};
ghost use Rattle.logic_terms.specs.Meaning.{field as field_of, filled, first, item, last, stored, with_field as with_field_of, within};
ghost use Rattle.logic_terms.specs.Arrays.{has_item as has, no_item};
ghost use Rattle.logic_truth.specs.Found.{found, found_all};

use crate::found::{Found, FoundList};
use logic_terms::Starved;
use sqlite_items::{Boxed, Items};
use std::alloc::Global;

/// The number that it is, or 0.
#[tactic(auto, using(logic_terms::proofs::Items::number_stored))]
pub fn number_of(v: &Found) -> i128
    ensures { result ≡ as_number (found v.now) }
{
    match v {
        Found::Num(n) => *n,
        Found::Stored(a, _, _) => number_of(a.get()),
        _ => 0,
    }
}

/// The truth value that it is, or false.
#[tactic(auto, using(logic_terms::proofs::Items::truth_stored))]
pub fn truth_of(v: &Found) -> bool
    ensures { result ≡ as_truth (found v.now) }
{
    match v {
        Found::Truth(b) => *b,
        Found::Stored(a, _, _) => truth_of(a.get()),
        _ => false,
    }
}

/// The number that it is, or 0.
pub fn into_number(v: Found) -> i128
    ensures { result ≡ as_number (found v) }
{
    number_of(&v)
}

/// The truth value that it is, or false.
pub fn into_truth(v: Found) -> bool
    ensures { result ≡ as_truth (found v) }
{
    truth_of(&v)
}

/// The first index of an array, or 0.
#[tactic(auto, using(logic_terms::proofs::Items::first_stored))]
pub fn first_of(v: &Found) -> i128
    ensures { result ≡ first (found v.now) }
{
    match v {
        Found::Filled(first, _, _) => *first,
        Found::Stored(a, _, _) => first_of(a.get()),
        _ => 0,
    }
}

/// The last index of an array, or 0.
#[tactic(auto, using(logic_terms::proofs::Items::last_stored))]
pub fn last_of(v: &Found) -> i128
    ensures { result ≡ last (found v.now) }
{
    match v {
        Found::Filled(_, last, _) => *last,
        Found::Stored(a, _, _) => last_of(a.get()),
        _ => 0,
    }
}

/// Whether it is an array with an item at the index.
#[tactic(auto, using(logic_terms::proofs::Items::has_item_stored))]
pub fn has_item(v: &Found, at: i128) -> bool
    ensures { result ≡ has (found v.now) at }
{
    match v {
        Found::Filled(first, last, _) => *first <= at && at <= *last,
        Found::Stored(a, _, _) => has_item(a.get(), at),
        _ => false,
    }
}

#[cycle(default)]
fn defaults_of(alloc: Global, vs: &FoundList) -> Result<FoundList, Starved>
    ensures { IfOk result (λ r. found_all r ≡ defaults (kinds_of (found_all vs.now))) }
{
    let mut none = Items::new(alloc);
    for v in vs.as_slice() {
        none.push(default_of(alloc, v)?)?;
    }
    Ok(none)
}

/// The default of the kind of a value.
#[cycle(default)]
fn default_of(alloc: Global, v: &Found) -> Result<Found, Starved>
    ensures { IfOk result (λ r. found r ≡ default (kind_of (found v.now))) }
{
    match v {
        Found::Num(_) => Ok(Found::Num(0)),
        Found::Truth(_) => Ok(Found::Truth(false)),
        Found::Filled(_, _, item) => {
            Ok(Found::Filled(1, 0, Boxed::new(alloc, default_of(alloc, item.get())?)?))
        }
        Found::Stored(a, _, _) => default_of(alloc, a.get()),
        Found::Record(vs) => Ok(Found::Record(defaults_of(alloc, vs)?)),
    }
}

/// What stands outside the bounds of an array.
#[tactic(auto, using(logic_terms::proofs::Items::no_item_stored))]
fn outside(alloc: Global, v: &Found) -> Result<Found, Starved>
    ensures { IfOk result (λ r. found r ≡ no_item (found v.now)) }
{
    match v {
        Found::Filled(_, _, item) => default_of(alloc, item.get()),
        Found::Stored(a, _, _) => outside(alloc, a.get()),
        _ => Ok(Found::Num(0)),
    }
}

/// The item at an index.
#[tactic(auto, using(logic_terms::proofs::Items::item_outside))]
pub fn select(alloc: Global, v: Found, at: i128) -> Result<Found, Starved>
    ensures { IfOk result (λ r. found r ≡ item (found v) at) }
{
    if has_item(&v, at) {
        Ok(v.item_within(at))
    } else {
        outside(alloc, &v)
    }
}

/// The array with another item at an index.
pub fn store(alloc: Global, v: Found, at: i128, item: Found) -> Result<Found, Starved>
    ensures { IfOk result (λ r. found r ≡ stored (found v) at (found item)) }
{
    let v = Boxed::new(alloc, v)?;
    Ok(Found::Stored(v, at, Boxed::new(alloc, item)?))
}

/// The array with one item throughout.
pub fn fill(alloc: Global, first: i128, last: i128, item: Found) -> Result<Found, Starved>
    ensures { IfOk result (λ r. found r ≡ filled first last (found item)) }
{
    Ok(Found::Filled(first, last, Boxed::new(alloc, item)?))
}
