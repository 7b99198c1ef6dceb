//! The sorts of operators' values, from those of their operands, and none where an operand has none or one that does not fit.
//!
//! What makes, compares or drops sorts is never inlined, since the functions that call it recurse and are to leave the stack
//! alone.

ghost use Rattle.std.specs.Prelude.{◌≡◌, ◌&&◌, ◌++◌, ◌∷◌, [], Some, IfOk, OnOk};
ghost use Rattle.logic_terms.specs.Node.{eq, fill, fld, fst, ite, lst, sel, sto, tru, upd};
ghost use Rattle.logic_terms.specs.Operators.{binary_of, comparison_of, connective_of, list_of, ternary_of, unary_of};
ghost use Rattle.logic_terms.specs.Value.{numbers, records};
ghost use Rattle.logic_terms.specs.Sorts.{sort};
ghost use Rattle.logic_terms.specs.Sorting.{given, kind-upd, kind_over, kindn, nth_kind, on1, on2, on3};
ghost use Rattle.cert_lines.specs.Symbols.{is_some_numbers};
ghost use Rattle.cert_sorts.specs.Found.{found, kinds, numbers_if, signature, truths_if};

use crate::scope::{FoundSort, Scope, call_sort, number_if};
use logic_terms::{
    BinaryOperator, Comparison, Connective, ListOperator, Sort, SortList, Starved, TernaryOperator,
    UnaryOperator, same_sort,
};
use sqlite_items::{Boxed, at};
use std::alloc::Global;

/// Whether it is the sort of numbers.
#[inline(never)]
pub fn is_num(s: FoundSort) -> bool
    ensures { result ≡ is_some_numbers (found s) }
{
    match s {
        Some(found) => match found.into_inner() {
            Sort::Num => true,
            _ => false,
        },
        None => false,
    }
}

/// Whether it is the sort of truth values.
#[inline(never)]
pub fn is_truth(s: FoundSort) -> bool
    ensures { truths_if result ≡ on1 tru (found s) }
{
    match s {
        Some(found) => match found.into_inner() {
            Sort::Truth => true,
            _ => false,
        },
        None => false,
    }
}

/// Whether it is the sort of an array, whose bounds are numbers.
#[inline(never)]
pub fn is_array(s: FoundSort) -> bool
    ensures first { numbers_if result ≡ on1 fst (found s) }
    ensures last { numbers_if result ≡ on1 lst (found s) }
{
    match s {
        Some(found) => match found.into_inner() {
            Sort::Array(_) => true,
            _ => false,
        },
        None => false,
    }
}

/// Whether `=` is well sorted between terms of these sorts.
#[inline(never)]
pub fn can_equate(a: FoundSort, b: FoundSort) -> bool
    ensures { truths_if result ≡ on2 eq (found a) (found b) }
{
    match (a, b) {
        (Some(x), Some(y)) => equates(x.get(), y.get()),
        _ => false,
    }
}

/// Whether two sorts are the same, and not that of truth values.
fn equates(a: &Sort, b: &Sort) -> bool
    ensures { truths_if result ≡ on2 eq (Some (sort a.now)) (Some (sort b.now)) }
{
    match a {
        Sort::Truth => false,
        _ => same_sort(a, b),
    }
}

/// Of `ite`, of which the condition is well sorted or not.
#[inline(never)]
pub fn sort_of_choice(sorted: bool, a: FoundSort, b: FoundSort) -> FoundSort
    ensures { found result ≡ on3 ite (truths_if sorted) (found a) (found b) }
{
    match (a, b) {
        (Some(x), Some(y)) => {
            if sorted && same_sort(x.get(), y.get()) {
                Some(x)
            } else {
                None
            }
        }
        _ => None,
    }
}

/// The sort of the items of an array of this sort.
fn items_of(array: Sort) -> FoundSort
    ensures { found result ≡ on2 sel (Some (sort array)) (Some numbers) }
{
    match array {
        Sort::Array(item) => Some(item),
        _ => None,
    }
}

/// Of `sel`, at a number or not.
#[inline(never)]
pub fn sort_of_item(a: FoundSort, at_number: bool) -> FoundSort
    ensures { found result ≡ on2 sel (found a) (numbers_if at_number) }
{
    match a {
        Some(array) => {
            if at_number {
                items_of(array.into_inner())
            } else {
                None
            }
        }
        None => None,
    }
}

/// Whether an array of this sort has such items.
fn holds_item(array: &Sort, item: &Sort) -> bool
    ensures { given result (sort array.now) ≡ on3 sto (Some (sort array.now)) (Some numbers) (Some (sort item.now)) }
{
    match array {
        Sort::Array(old) => same_sort(old.get(), item),
        _ => false,
    }
}

/// Of `sto`, at a number or not.
#[inline(never)]
pub fn sort_of_store(a: FoundSort, at_number: bool, v: FoundSort) -> FoundSort
    ensures { found result ≡ on3 sto (found a) (numbers_if at_number) (found v) }
{
    match (a, v) {
        (Some(array), Some(item)) => {
            if at_number && holds_item(array.get(), item.get()) {
                Some(array)
            } else {
                None
            }
        }
        _ => None,
    }
}

/// Of `fill`, of which either bound is a number or not.
#[inline(never)]
pub fn sort_of_fill(
    alloc: Global,
    first: bool,
    last: bool,
    v: FoundSort,
) -> Result<FoundSort, Starved>
    ensures { IfOk result (λ r. found r ≡ on3 fill (numbers_if first) (numbers_if last) (found v)) }
{
    match v {
        Some(item) => {
            if first && last {
                Ok(Some(Boxed::new(alloc, Sort::Array(item))?))
            } else {
                Ok(None)
            }
        }
        None => Ok(None),
    }
}

/// The sort of field `k` of a record.
#[tactic(auto, using(crate::proofs::Lists::field_there, crate::proofs::Lists::field_past))]
fn field_sort(alloc: Global, k: u32, fields: &SortList) -> Result<FoundSort, Starved>
    ensures { IfOk result (λ s. found s ≡ nth_kind (kinds fields.now) k) }
{
    match at(fields.as_slice(), k as usize) {
        Some(field) => Ok(Some(Boxed::new(alloc, field.copy(alloc)?)?)),
        None => Ok(None),
    }
}

/// The sort of field `k` of what has this sort.
fn sort_in(alloc: Global, k: u32, holder: &Sort) -> Result<FoundSort, Starved>
    ensures { IfOk result (λ s. found s ≡ on1 (fld k) (Some (sort holder.now))) }
{
    match holder {
        Sort::Record(fields) => field_sort(alloc, k, fields),
        _ => Ok(None),
    }
}

/// Of `fld`.
#[inline(never)]
pub fn sort_of_field(alloc: Global, k: u32, r: FoundSort) -> Result<FoundSort, Starved>
    ensures { IfOk result (λ s. found s ≡ on1 (fld k) (found r)) }
{
    match r {
        Some(holder) => sort_in(alloc, k, holder.get()),
        None => Ok(None),
    }
}

/// Whether the sort of field `k` is `new`.
#[tactic(auto, using(crate::proofs::Lists::update_there, crate::proofs::Lists::update_past))]
fn has_field(fields: &SortList, k: u32, new: &Sort) -> bool
    ensures { given result (records (kinds fields.now)) ≡ kind-upd (nth_kind (kinds fields.now) k) (kinds fields.now) (sort new.now) }
{
    match at(fields.as_slice(), k as usize) {
        Some(old) => same_sort(old, new),
        None => false,
    }
}

/// Whether what has this sort has a field `k` of the sort `new`.
fn holds_field(holder: &Sort, k: u32, new: &Sort) -> bool
    ensures { given result (sort holder.now) ≡ on2 (upd k) (Some (sort holder.now)) (Some (sort new.now)) }
{
    match holder {
        Sort::Record(fields) => has_field(fields, k, new),
        _ => false,
    }
}

/// Of `upd`.
#[inline(never)]
pub fn sort_of_update(k: u32, r: FoundSort, v: FoundSort) -> FoundSort
    ensures { found result ≡ on2 (upd k) (found r) (found v) }
{
    match (r, v) {
        (Some(holder), Some(new)) => {
            if holds_field(holder.get(), k, new.get()) {
                Some(holder)
            } else {
                None
            }
        }
        _ => None,
    }
}

/// Of an operator with one operand of this sort.
#[inline(never)]
pub fn unary_sort(
    alloc: Global,
    operator: UnaryOperator,
    a: FoundSort,
) -> Result<FoundSort, Starved>
    ensures { IfOk result (λ r. found r ≡ on1 (unary_of operator) (found a)) }
{
    match operator {
        UnaryOperator::First | UnaryOperator::Last => number_if(alloc, is_array(a)),
        UnaryOperator::Field(k) => sort_of_field(alloc, k, a),
    }
}

/// Of an operator with two operands of these sorts.
#[inline(never)]
#[tactic(auto, using(crate::proofs::Fitting::arithmetic, crate::proofs::Fitting::index))]
pub fn binary_sort(
    alloc: Global,
    operator: BinaryOperator,
    a: FoundSort,
    b: FoundSort,
) -> Result<FoundSort, Starved>
    ensures { IfOk result (λ r. found r ≡ on2 (binary_of operator) (found a) (found b)) }
{
    match operator {
        BinaryOperator::Compute(_) => {
            let first = is_num(a);
            let second = is_num(b);
            number_if(alloc, first && second)
        }
        BinaryOperator::Select => Ok(sort_of_item(a, is_num(b))),
        BinaryOperator::Update(k) => Ok(sort_of_update(k, a, b)),
    }
}

/// Of an operator with three operands of these sorts.
#[inline(never)]
#[tactic(auto, using(crate::proofs::Fitting::limits, crate::proofs::Fitting::store))]
pub fn ternary_sort(
    alloc: Global,
    operator: TernaryOperator,
    a: FoundSort,
    b: FoundSort,
    c: FoundSort,
) -> Result<FoundSort, Starved>
    ensures { IfOk result (λ r. found r ≡ on3 (ternary_of operator) (found a) (found b) (found c)) }
{
    match operator {
        TernaryOperator::Store => Ok(sort_of_store(a, is_num(b), c)),
        TernaryOperator::Fill => {
            let first = is_num(a);
            let last = is_num(b);
            sort_of_fill(alloc, first, last, c)
        }
    }
}

/// Of a call, or of a record, at operands of these sorts.
#[inline(never)]
pub fn list_sort(
    alloc: Global,
    scope: &Scope,
    operator: ListOperator,
    sorts: SortList,
) -> Result<FoundSort, Starved>
    ensures { IfOk result (λ r. found r ≡ kindn (signature scope.now) (list_of operator) (kinds sorts)) }
{
    match operator {
        ListOperator::Call(k) => call_sort(alloc, scope, k, &sorts),
        ListOperator::Record => Ok(Some(Boxed::new(alloc, Sort::Record(sorts))?)),
    }
}

/// Whether terms of these sorts can be compared.
#[inline(never)]
#[tactic(auto, using(crate::proofs::Fitting::order))]
pub fn can_compare(operator: Comparison, a: FoundSort, b: FoundSort) -> bool
    ensures { truths_if result ≡ on2 (comparison_of operator) (found a) (found b) }
{
    match operator {
        Comparison::AtMost => {
            let first = is_num(a);
            let second = is_num(b);
            first && second
        }
        Comparison::Equal => can_equate(a, b),
    }
}

/// Whether a connective between formulas that are well sorted or not is.
#[inline(never)]
pub fn are_joined(connective: Connective, p: bool, q: bool) -> bool
    ensures { truths_if result ≡ on2 (connective_of connective) (truths_if p) (truths_if q) }
{
    match connective {
        Connective::And | Connective::Or | Connective::Iff => p && q,
    }
}

/// Whether a quantifier with bounds of these sorts, and a body that is well sorted or not, is.
#[inline(never)]
#[tactic(auto, using(crate::proofs::Fitting::quantifier))]
pub fn is_quantified(first: FoundSort, last: FoundSort, body: bool) -> bool
    ensures { truths_if result ≡ kind_over (found first) (found last) (truths_if body) }
{
    let first = is_num(first);
    let last = is_num(last);
    first && last && body
}

/// Adds a sort to a list.
#[inline(never)]
pub fn push_sort(sorts: &mut SortList, s: Boxed<Sort>) -> Result<(), Starved>
    ensures { OnOk result (sorts.new ≡ sorts.old ++ s ∷ []) }
{
    sorts.push(s.into_inner())
}
