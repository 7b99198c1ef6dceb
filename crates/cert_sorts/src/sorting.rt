//! The sorts of terms and formulas.
//!
//! Terms nest deep: what recurses holds boxes and truth values alone, and calls nothing that could be inlined.

ghost use Rattle.std.specs.Prelude.{◌≡◌, ◌∷◌, [], IfOk};
ghost use Rattle.logic_terms.specs.Value.{numbers};
ghost use Rattle.logic_terms.specs.Operators.{list_of};
ghost use Rattle.logic_terms.specs.Sorting.{node_kind, node_kinds, onn};
ghost use Rattle.logic_terms.specs.Goal.{problem};
ghost use Rattle.logic_terms.specs.View.{term, formula, terms};
ghost use Rattle.cert_lines.specs.Symbols.{is_some_numbers, is_some_truths, new_kinds, with_new};
ghost use Rattle.cert_sorts.specs.Found.{found, signature, truths_if};

use crate::operators::{
    are_joined, binary_sort, can_compare, is_num, is_quantified, is_truth, list_sort, push_sort,
    sort_of_choice, ternary_sort, unary_sort,
};
use crate::scope::{FoundSort, Scope, number_if, symbol_sort, truth_if, variable_sort};
use logic_terms::{
    Formula, FormulaParts, Goal, ListOperator, Starved, Term, TermList, TermParts, formula_parts,
    term_parts,
};
use sqlite_items::Items;
use std::alloc::Global;

/// Of a call, or of a record, at these operands.
#[tactic(auto, using(crate::proofs::Operands::operands_more, crate::proofs::Operands::operands_none))]
#[cycle(sorting)]
#[inline(never)]
fn sort_over(
    alloc: Global,
    scope: &Scope,
    operator: ListOperator,
    ts: &TermList,
    depth: u64,
) -> Result<FoundSort, Starved>
    ensures { IfOk result (λ r. found r ≡ onn (signature scope.now) (list_of operator) (node_kinds (signature scope.now) (new_kinds depth) (terms ts.now))) }
{
    let mut sorts = Items::new(alloc);
    for t in ts.as_slice() {
        match sort_of_term(alloc, scope, t, depth)? {
            Some(sort) => push_sort(&mut sorts, sort)?,
            None => return Ok(None),
        }
    }
    list_sort(alloc, scope, operator, sorts)
}

/// Of a term under `depth` quantifiers.
#[cycle(sorting)]
#[inline(never)]
fn sort_of_term(alloc: Global, scope: &Scope, t: &Term, depth: u64) -> Result<FoundSort, Starved>
    ensures { IfOk result (λ r. found r ≡ node_kind (signature scope.now) (new_kinds depth) (term t.now)) }
{
    match term_parts(t) {
        TermParts::Number(_) => number_if(alloc, true),
        TermParts::Symbol(k) => symbol_sort(alloc, scope, k),
        TermParts::Bound(k) => variable_sort(alloc, u64::from(k), depth),
        TermParts::Bit(p) => truth_if(alloc, is_sorted(alloc, scope, p, depth)?),
        TermParts::Choice(p, a, b) => {
            let sorted = is_sorted(alloc, scope, p, depth)?;
            let a = sort_of_term(alloc, scope, a, depth)?;
            let b = sort_of_term(alloc, scope, b, depth)?;
            Ok(sort_of_choice(sorted, a, b))
        }
        TermParts::One(operator, a) => {
            let a = sort_of_term(alloc, scope, a, depth)?;
            unary_sort(alloc, operator, a)
        }
        TermParts::Two(operator, a, b) => {
            let a = sort_of_term(alloc, scope, a, depth)?;
            let b = sort_of_term(alloc, scope, b, depth)?;
            binary_sort(alloc, operator, a, b)
        }
        TermParts::Three(operator, a, b, c) => {
            let a = sort_of_term(alloc, scope, a, depth)?;
            let b = sort_of_term(alloc, scope, b, depth)?;
            let c = sort_of_term(alloc, scope, c, depth)?;
            ternary_sort(alloc, operator, a, b, c)
        }
        TermParts::List(operator, ts) => sort_over(alloc, scope, operator, ts, depth),
    }
}

/// Whether a body is well sorted under one more quantifier. No memory holds 2**64 quantifiers.
#[cycle(sorting)]
#[inline(never)]
fn is_sorted_below(alloc: Global, scope: &Scope, p: &Formula, depth: u64) -> Result<bool, Starved>
    ensures { IfOk result (λ b. truths_if b ≡ node_kind (signature scope.now) (numbers ∷ new_kinds depth) (formula p.now)) }
{
    match depth.checked_add(1) {
        Some(below) => is_sorted(alloc, scope, p, below),
        None => Err(Starved),
    }
}

/// Whether a formula is well sorted under `depth` quantifiers.
#[cycle(sorting)]
#[inline(never)]
fn is_sorted(alloc: Global, scope: &Scope, p: &Formula, depth: u64) -> Result<bool, Starved>
    ensures { IfOk result (λ b. truths_if b ≡ node_kind (signature scope.now) (new_kinds depth) (formula p.now)) }
{
    match formula_parts(p) {
        FormulaParts::Constant(_) => Ok(true),
        FormulaParts::Truth(t) => Ok(is_truth(sort_of_term(alloc, scope, t, depth)?)),
        FormulaParts::Compared(operator, a, b) => {
            let a = sort_of_term(alloc, scope, a, depth)?;
            let b = sort_of_term(alloc, scope, b, depth)?;
            Ok(can_compare(operator, a, b))
        }
        FormulaParts::Not(q) => is_sorted(alloc, scope, q, depth),
        FormulaParts::Joined(connective, q, r) => {
            let q = is_sorted(alloc, scope, q, depth)?;
            let r = is_sorted(alloc, scope, r, depth)?;
            Ok(are_joined(connective, q, r))
        }
        FormulaParts::Quantified(_, l, h, q) => {
            let l = sort_of_term(alloc, scope, l, depth)?;
            let h = sort_of_term(alloc, scope, h, depth)?;
            let q = is_sorted_below(alloc, scope, q, depth)?;
            Ok(is_quantified(l, h, q))
        }
    }
}

/// The sort of a closed term, and none where it is not closed and well sorted for the goal's symbols and calls and `fresh`
/// new symbols of numbers after the goal's.
pub fn sort_of(alloc: Global, goal: &Goal, fresh: u32, t: &Term) -> Result<FoundSort, Starved>
    ensures { IfOk result (λ r. found r ≡ node_kind (with_new (problem goal.now).signature fresh) [] (term t.now)) }
{
    sort_of_term(alloc, &Scope { goal, fresh }, t, 0)
}

/// Whether a term is a closed, well sorted number, for the goal's symbols and calls and `fresh` new symbols of numbers after
/// the goal's.
pub fn is_number(alloc: Global, goal: &Goal, fresh: u32, t: &Term) -> Result<bool, Starved>
    ensures { IfOk result (λ b. b ≡ is_some_numbers (node_kind (with_new (problem goal.now).signature fresh) [] (term t.now))) }
{
    Ok(is_num(sort_of(alloc, goal, fresh, t)?))
}

/// Whether a formula is closed and well sorted, for the goal's symbols and calls and `fresh` new symbols of numbers after
/// the goal's.
#[tactic(auto, using(crate::proofs::Fitting::some_truths))]
pub fn is_formula(alloc: Global, goal: &Goal, fresh: u32, p: &Formula) -> Result<bool, Starved>
    ensures { IfOk result (λ b. b ≡ is_some_truths (node_kind (with_new (problem goal.now).signature fresh) [] (formula p.now))) }
{
    is_sorted(alloc, &Scope { goal, fresh }, p, 0)
}
