//! Symbols, variables and calls.

ghost use Rattle.std.specs.Prelude.{◌≡◌, IfOk};
ghost use Rattle.logic_terms.specs.Sorting.{kind-call, nth};
ghost use Rattle.logic_terms.specs.Value.{same_kinds};
ghost use Rattle.cert_lines.specs.Symbols.{new_kinds};
ghost use Rattle.cert_sorts.specs.Found.{found, kinds, numbers_if, signature, truths_if};

use logic_terms::{Goal, Sort, SortList, Starved, same_sort};
use sqlite_items::Boxed;
use std::alloc::Global;

/// The sort that was found, or none.
pub type FoundSort = Option<Boxed<Sort>>;

/// The symbols and the calls of a goal, with new symbols of numbers after the goal's.
#[derive(Drop)]
pub struct Scope<'a> {
    pub goal: &'a Goal,
    pub fresh: u32,
}

/// The sort of numbers where `is` holds, and else none.
#[inline(never)]
pub fn number_if(alloc: Global, is: bool) -> Result<FoundSort, Starved>
    ensures { IfOk result (λ r. found r ≡ numbers_if is) }
{
    if is {
        Ok(Some(Boxed::new(alloc, Sort::Num)?))
    } else {
        Ok(None)
    }
}

/// The sort of truth values where `is` holds, and else none.
#[inline(never)]
pub fn truth_if(alloc: Global, is: bool) -> Result<FoundSort, Starved>
    ensures { IfOk result (λ r. found r ≡ truths_if is) }
{
    if is {
        Ok(Some(Boxed::new(alloc, Sort::Truth)?))
    } else {
        Ok(None)
    }
}

/// The sort of variable `k` under `depth` quantifiers, or of new symbol `k` of `depth`: all are numbers.
#[inline(never)]
#[tactic(auto, using(crate::proofs::Lists::new_there, crate::proofs::Lists::new_past))]
pub fn variable_sort(alloc: Global, k: u64, depth: u64) -> Result<FoundSort, Starved>
    ensures { IfOk result (λ r. found r ≡ nth (new_kinds depth) k) }
{
    if k < depth {
        number_if(alloc, true)
    } else {
        Ok(None)
    }
}

/// The sort of symbol `k`.
#[inline(never)]
#[tactic(auto, using(crate::proofs::Lists::symbol_there, crate::proofs::Lists::symbol_new))]
pub fn symbol_sort(alloc: Global, scope: &Scope, k: u32) -> Result<FoundSort, Starved>
    ensures { IfOk result (λ r. found r ≡ nth (signature scope.now).symbols k) }
{
    let symbols = scope.goal.symbols.as_slice();
    let k = k as usize;
    if k < symbols.len() {
        Ok(Some(Boxed::new(alloc, symbols[k].sort.copy(alloc)?)?))
    } else {
        let new = (k - symbols.len()) as u64;
        variable_sort(alloc, new, u64::from(scope.fresh))
    }
}

/// Whether two lists of sorts are the same, one by one.
pub fn same_sorts(a: &SortList, b: &SortList) -> bool
    ensures { result ≡ same_kinds (kinds a.now) (kinds b.now) }
{
    if a.len() != b.len() {
        return false;
    }
    for i in 0..a.len() {
        if !same_sort(&a.as_slice()[i], &b.as_slice()[i]) {
            return false;
        }
    }
    true
}

/// The sort of call `k` at arguments of these sorts.
#[tactic(auto, using(crate::proofs::Lists::call_there, crate::proofs::Lists::call_past))]
pub fn call_sort(
    alloc: Global,
    scope: &Scope,
    k: u32,
    arguments: &SortList,
) -> Result<FoundSort, Starved>
    ensures { IfOk result (λ r. found r ≡ kind-call (nth (signature scope.now).calls k) (kinds arguments.now)) }
{
    let calls = scope.goal.calls.as_slice();
    let k = k as usize;
    if k >= calls.len() {
        return Ok(None);
    }
    let call = &calls[k];
    if same_sorts(&call.arguments, arguments) {
        Ok(Some(Boxed::new(alloc, call.answer.copy(alloc)?)?))
    } else {
        Ok(None)
    }
}
