//! The components of static aggregates.

ghost use Rattle.std.specs.Prelude.{◌≡◌, ◌++◌, IfOk, OnOk};
ghost use Rattle.static_values.specs.Owners.{count_in, value_by, values_by};
ghost use Rattle.statement_typing.specs.Values.{shares_from, whole};
ghost use Rattle.typing_rules.specs.Fits.{with_found};

use crate::Starved;
use crate::owners::owners;
use ada_values::{ArrayValue, Value};
use sqlite_items::{Items, at};
use statement_typing::Share;
use std::alloc::Global;
use typed_units::{Bounds, Composite};
use typing_rules::Found;

/// Adds what the share of a number gives.
fn push_value(
    alloc: Global,
    shares: &[Share],
    owner: Option<u32>,
    values: &mut Items<Value>,
) -> Result<(), Starved>
    ensures { OnOk result (values.new ≡ values.old ++ value_by shares.now owner) }
{
    let Some(number) = owner else {
        return Ok(());
    };
    match at(shares, number as usize) {
        Some(share) => values.push(share.value.copy(alloc)?),
        None => Ok(()),
    }
}

/// What the shares of these numbers give.
fn values_by(
    alloc: Global,
    shares: &[Share],
    owners: &[Option<u32>],
) -> Result<Items<Value>, Starved>
    ensures { IfOk result (λ values. values ≡ values_by shares.now owners.now) }
{
    let mut values = Items::new(alloc);
    for owner in owners {
        push_value(alloc, shares, *owner, &mut values)?;
    }
    Ok(values)
}

/// The components with their numbers in these bounds. `Err` where memory was refused, as it is for 2^32 components or more.
/// The time grows as the number of components and of ranges, where no two ranges meet.
#[tactic(auto, using(crate::proofs::Owned::values_are))]
fn components(alloc: Global, bounds: Bounds, shares: &[Share]) -> Result<Items<Value>, Starved>
    ensures { IfOk result (λ values. values ≡ shares_from (count_in bounds) bounds.first shares.now) }
{
    let owners = owners(alloc, bounds, shares)?;
    values_by(alloc, shares, &owners)
}

/// The array or the record that shares make.
fn whole(
    alloc: Global,
    composite: Composite,
    bounds: Bounds,
    shares: &[Share],
) -> Result<Value, Starved>
    ensures { IfOk result (λ value. value ≡ whole composite bounds shares.now) }
{
    let items = components(alloc, bounds, shares)?;
    match composite {
        Composite::Array => Ok(Value::Arr(ArrayValue {
            first: bounds.first,
            last: bounds.last,
            items,
        })),
        Composite::Record => Ok(Value::Rec(items)),
    }
}

/// The same, where all shares are found.
pub(crate) fn found_whole(
    alloc: Global,
    composite: Composite,
    bounds: Bounds,
    shares: Found<Items<Share>>,
) -> Result<Found<Value>, Starved>
    ensures { IfOk result (λ found. found ≡ with_found (whole composite bounds) shares) }
{
    match shares {
        Found::Refused(refusal) => Ok(Found::Refused(refusal)),
        Found::Unknown => Ok(Found::Unknown),
        Found::Is(shares) => match whole(alloc, composite, bounds, shares.as_slice()) {
            Ok(value) => {
                drop(shares);
                Ok(Found::Is(value))
            }
            Err(error) => {
                drop(shares);
                Err(error)
            }
        },
    }
}
