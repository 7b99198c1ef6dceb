//! The sorts of computed values.

ghost use Rattle.std.specs.Prelude.{◌≡◌, IfOk, map};
ghost use Rattle.logic_terms.specs.Value.{kind_of as kind_in, kinds_of as kinds_in_values, same_kind};
ghost use Rattle.logic_terms.specs.Sorts.{sort, kinds_in};
ghost use Rattle.logic_truth.specs.Found.{found, found_all};

use crate::found::{Found, FoundList};
use logic_terms::{Sort, SortList, Starved, same_sort};
use sqlite_items::{Boxed, Items};
use std::alloc::Global;

#[cycle(kind)]
fn kinds_of(alloc: Global, vs: &FoundList) -> Result<SortList, Starved>
    ensures { IfOk result (λ s. kinds_in (map sort s) ≡ kinds_in_values (found_all vs.now)) }
{
    let mut sorts = Items::new(alloc);
    for v in vs.as_slice() {
        sorts.push(kind_of(alloc, v)?)?;
    }
    Ok(sorts)
}

/// The sort of a value.
#[cycle(kind)]
fn kind_of(alloc: Global, v: &Found) -> Result<Sort, Starved>
    ensures { IfOk result (λ s. sort s ≡ kind_in (found v.now)) }
{
    match v {
        Found::Num(_) => Ok(Sort::Num),
        Found::Truth(_) => Ok(Sort::Truth),
        Found::Filled(_, _, item) => Ok(Sort::Array(Boxed::new(
            alloc,
            kind_of(alloc, item.get())?,
        )?)),
        Found::Stored(a, _, _) => kind_of(alloc, a.get()),
        Found::Record(vs) => Ok(Sort::Record(kinds_of(alloc, vs)?)),
    }
}

/// Whether two values are of one sort.
pub fn has_same_kind(alloc: Global, a: &Found, b: &Found) -> Result<bool, Starved>
    ensures { IfOk result (λ r. r ≡ same_kind (kind_in (found a.now)) (kind_in (found b.now))) }
{
    Ok(same_sort(&kind_of(alloc, a)?, &kind_of(alloc, b)?))
}
