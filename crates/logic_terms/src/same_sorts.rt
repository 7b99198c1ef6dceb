//! Whether two sorts are the same.

ghost use Rattle.std.specs.Prelude.{◌≡◌, map};
ghost use Rattle.logic_terms.specs.Sorts.{kinds_in, sort};
ghost use Rattle.logic_terms.specs.Value.{same_kind, same_kinds};

use crate::sort::{Sort, SortList};

#[cycle(same_sort)]
fn same_sorts(a: &SortList, b: &SortList) -> bool
    ensures { result ≡ same_kinds (kinds_in (map sort a.now)) (kinds_in (map sort b.now)) }
{
    if a.len() != b.len() {
        return false;
    }
    for i in 0..a.len() {
        if !same_sort(&a.as_slice()[i], &b.as_slice()[i]) {
            return false;
        }
    }
    true
}

/// Whether two sorts are the same.
#[cycle(same_sort)]
pub fn same_sort(a: &Sort, b: &Sort) -> bool
    ensures { result ≡ same_kind (sort a.now) (sort b.now) }
{
    match (a, b) {
        (Sort::Num, Sort::Num) => true,
        (Sort::Truth, Sort::Truth) => true,
        (Sort::Array(x), Sort::Array(y)) => same_sort(x.get(), y.get()),
        (Sort::Record(xs), Sort::Record(ys)) => same_sorts(xs, ys),
        _ => false,
    }
}
