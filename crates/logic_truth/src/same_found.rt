//! Whether two computed values are the same.

ghost use Rattle.std.specs.Prelude.{◌≡◌, IfOk, true, ℤ};
ghost use Rattle.logic_terms.specs.Value.{number, same_value, same_values, truth};
ghost use Rattle.logic_terms.specs.Arrays.{has_item as has};
ghost use Rattle.logic_truth.specs.Places.{is_array as array, same_at as same_at_places, same_here};
ghost use Rattle.logic_truth.specs.Found.{found, found_all};

use crate::arrays::{first_of, has_item, last_of};
use crate::forms::{fields_of, is_array, item_of, number_in, truth_in};
use crate::found::{Found, FoundList};
use crate::kinds::has_same_kind;
use crate::places::{PlaceList, telling_places};
use logic_terms::Starved;
use std::alloc::Global;

/// Whether the value is this number.
fn is_number(x: i128, b: &Found) -> bool
    ensures { result ≡ same_value (number x) (found b.now) }
{
    match number_in(b) {
        Some(y) => x == y,
        None => false,
    }
}

/// Whether the value is this truth value.
fn is_truth(x: bool, b: &Found) -> bool
    ensures { result ≡ same_value (truth x) (found b.now) }
{
    match truth_in(b) {
        Some(y) => x == y,
        None => false,
    }
}

/// Whether the fields are the same, one by one.
#[cycle(same_found)]
fn same_fields(alloc: Global, a: &FoundList, b: &FoundList) -> Result<bool, Starved>
    ensures { IfOk result (λ r. r ≡ same_values (found_all a.now) (found_all b.now)) }
{
    if a.len() != b.len() {
        return Ok(false);
    }
    for i in 0..a.len() {
        if !same_found(alloc, &a.as_slice()[i], &b.as_slice()[i])? {
            return Ok(false);
        }
    }
    Ok(true)
}

/// Whether the items at an index, where there are items, are the same.
#[cycle(same_found)]
fn is_same_at(alloc: Global, a: &Found, b: &Found, at: i128) -> Result<bool, Starved>
    requires { (i : ℤ) → has (found a.now) i ≡ has (found b.now) i }
    ensures { IfOk result (λ r. r ≡ same_here (found a.now) (found b.now) at) }
{
    if has_item(a, at) {
        same_found(alloc, item_of(a, at), item_of(b, at))
    } else {
        Ok(true)
    }
}

/// Whether the items at these places, where there are items, are the same.
#[cycle(same_found)]
fn same_at(alloc: Global, a: &Found, b: &Found, places: &PlaceList) -> Result<bool, Starved>
    requires { (i : ℤ) → has (found a.now) i ≡ has (found b.now) i }
    ensures { IfOk result (λ r. r ≡ same_at_places (found a.now) (found b.now) places.now) }
{
    for place in places.as_slice() {
        if !is_same_at(alloc, a, b, *place)? {
            return Ok(false);
        }
    }
    Ok(true)
}

/// Whether two arrays are the same.
#[cycle(same_found)]
fn same_array(alloc: Global, a: &Found, b: &Found) -> Result<bool, Starved>
    requires first { array (found a.now) ≡ true }
    requires second { array (found b.now) ≡ true }
    ensures { IfOk result (λ r. r ≡ same_value (found a.now) (found b.now)) }
{
    if first_of(a) != first_of(b) {
        return Ok(false);
    }
    if last_of(a) != last_of(b) {
        return Ok(false);
    }
    if !has_same_kind(alloc, a, b)? {
        return Ok(false);
    }
    let places = telling_places(alloc, a, b)?;
    same_at(alloc, a, b, &places)
}

/// Whether two values are the same.
#[cycle(same_found)]
pub fn same_found(alloc: Global, a: &Found, b: &Found) -> Result<bool, Starved>
    ensures { IfOk result (λ r. r ≡ same_value (found a.now) (found b.now)) }
{
    if let Some(x) = number_in(a) {
        return Ok(is_number(x, b));
    }
    if let Some(x) = truth_in(a) {
        return Ok(is_truth(x, b));
    }
    if let Some(xs) = fields_of(a) {
        return match fields_of(b) {
            Some(ys) => same_fields(alloc, xs, ys),
            None => Ok(false),
        };
    }
    if is_array(b) {
        same_array(alloc, a, b)
    } else {
        Ok(false)
    }
}
