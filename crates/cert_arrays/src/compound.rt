//! Items and bounds of arrays.

ghost use Rattle.std.specs.Prelude.{◌≡◌, ◌∷◌, [], IfOk};
ghost use Rattle.logic_terms.specs.Node.{any, bound, eq, fst, le, lst, neg, op1, op2, quant, sel};
ghost use Rattle.logic_terms.specs.Sorts.{sort};
ghost use Rattle.logic_terms.specs.View.{formula, term};
ghost use Rattle.cert_rules.specs.Clause.{equals as equals_at};
ghost use Rattle.cert_rules.specs.Compound.{array_clause as array_clause_of, extensional as extensional_by, filled_fact as filled_fact_of};
ghost use Rattle.cert_rules.specs.Judged.{yields};
ghost use Rattle.cert_rules.specs.Judges.{Judges, clause};

use cert_rules::{
    LineFault, boxed, clause_of_four, clause_of_one, clause_of_three, clause_of_two, equal, equals,
    first, item, last, not, not_at_most, not_equal,
};
use logic_terms::{Formula, FormulaList, Sort, Starved, Term};
use sqlite_items::Boxed;
use std::alloc::Global;

/// `(= i j)`.
fn same(alloc: Global, i: &Term, j: &Term) -> Result<Boxed<Formula>, Starved>
    ensures { IfOk result (λ r. formula r ≡ op2 eq (term i.now) (term j.now)) }
{
    equal(alloc, boxed(alloc, i)?, boxed(alloc, j)?)
}

/// `(not (= i j))`.
fn differ(alloc: Global, i: &Term, j: &Term) -> Result<Boxed<Formula>, Starved>
    ensures { IfOk result (λ r. formula r ≡ op1 neg (op2 eq (term i.now) (term j.now))) }
{
    not_equal(alloc, boxed(alloc, i)?, boxed(alloc, j)?)
}

/// `(not (<= i j))`.
fn past(alloc: Global, i: &Term, j: &Term) -> Result<Boxed<Formula>, Starved>
    ensures { IfOk result (λ r. formula r ≡ op1 neg (op2 le (term i.now) (term j.now))) }
{
    not_at_most(alloc, boxed(alloc, i)?, boxed(alloc, j)?)
}

/// `(= t v)`, where the terms are of this sort.
fn is_value(alloc: Global, of: &Sort, t: &Term, v: &Term) -> Result<Boxed<Formula>, Starved>
    ensures { IfOk result (λ r. formula r ≡ equals_at (sort of.now) (term t.now) (term v.now)) }
{
    equals(alloc, of, boxed(alloc, t)?, boxed(alloc, v)?)
}

/// `(= t (sel a j))`, where the terms are of this sort.
fn is_item(
    alloc: Global,
    of: &Sort,
    t: &Term,
    a: &Term,
    j: &Term,
) -> Result<Boxed<Formula>, Starved>
    ensures { IfOk result (λ r. formula r ≡ equals_at (sort of.now) (term t.now) (op2 sel (term a.now) (term j.now))) }
{
    let there = item(alloc, a, boxed(alloc, j)?)?;
    equals(alloc, of, boxed(alloc, t)?, there)
}

/// `(not (<= (fst a) j))`.
fn before_first(alloc: Global, a: &Term, j: &Term) -> Result<Boxed<Formula>, Starved>
    ensures { IfOk result (λ r. formula r ≡ op1 neg (op2 le (op1 fst (term a.now)) (term j.now))) }
{
    not_at_most(alloc, first(alloc, a)?, boxed(alloc, j)?)
}

/// `(not (<= j (lst a)))`.
fn past_last(alloc: Global, a: &Term, j: &Term) -> Result<Boxed<Formula>, Starved>
    ensures { IfOk result (λ r. formula r ≡ op1 neg (op2 le (term j.now) (op1 lst (term a.now)))) }
{
    not_at_most(alloc, boxed(alloc, j)?, last(alloc, a)?)
}

/// What `t`, the item at `j` of an array `a` with `v` at `i`, is: `v`, where `i` and `j` are equal and within the bounds.
fn changed_item(
    alloc: Global,
    of: &Sort,
    t: &Term,
    a: &Term,
    i: &Term,
    v: &Term,
    j: &Term,
) -> Result<FormulaList, LineFault>
    ensures { Judges clause (yields (op1 neg (op2 eq (term i.now) (term j.now)) ∷ op1 neg (op2 le (op1 fst (term a.now)) (term j.now)) ∷ op1 neg (op2 le (term j.now) (op1 lst (term a.now))) ∷ equals_at (sort of.now) (term t.now) (term v.now) ∷ [])) result }
{
    Ok(clause_of_four(
        alloc,
        differ(alloc, i, j)?,
        before_first(alloc, a, j)?,
        past_last(alloc, a, j)?,
        is_value(alloc, of, t, v)?,
    )?)
}

/// What `t`, the item at `j` of an array `a` with `v` at `i`, is: that of `a`, where `i` and `j` are not equal.
fn kept_item(
    alloc: Global,
    of: &Sort,
    t: &Term,
    a: &Term,
    i: &Term,
    j: &Term,
) -> Result<FormulaList, LineFault>
    ensures { Judges clause (yields (op2 eq (term i.now) (term j.now) ∷ equals_at (sort of.now) (term t.now) (op2 sel (term a.now) (term j.now)) ∷ [])) result }
{
    let is = is_item(alloc, of, t, a, j)?;
    Ok(clause_of_two(alloc, same(alloc, i, j)?, is)?)
}

/// What `t`, the item at `j` of the array from `f` to `l` with `v` throughout, is: `v`, within the bounds.
fn filled_item(
    alloc: Global,
    of: &Sort,
    t: &Term,
    f: &Term,
    l: &Term,
    v: &Term,
    j: &Term,
) -> Result<FormulaList, LineFault>
    ensures { Judges clause (yields (filled_fact_of (sort of.now) (term t.now) (term f.now) (term l.now) (term v.now) (term j.now))) result }
{
    Ok(clause_of_three(
        alloc,
        past(alloc, f, j)?,
        past(alloc, j, l)?,
        is_value(alloc, of, t, v)?,
    )?)
}

/// What the item `t` at `j` of `a` is, for a changed or a filled array.
#[tactic(auto, using(cert_rules::proofs::Parts::past_two))]
fn item_clause(
    alloc: Global,
    of: &Sort,
    t: &Term,
    a: &Term,
    j: &Term,
    part: u32,
) -> Result<FormulaList, LineFault>
    requires { term t.now ≡ op2 sel (term a.now) (term j.now) }
    ensures { Judges clause (array_clause_of (sort of.now) (op2 sel (term a.now) (term j.now)) part) result }
{
    match a {
        Term::Sto(b, i, v) => match part {
            0 => changed_item(alloc, of, t, b.get(), i.get(), v.get(), j),
            1 => kept_item(alloc, of, t, b.get(), i.get(), j),
            _ => Err(LineFault::NotAllowed),
        },
        Term::Fill(f, l, v) => match part {
            4 => filled_item(alloc, of, t, f.get(), l.get(), v.get(), j),
            _ => Err(LineFault::NotAllowed),
        },
        _ => Err(LineFault::NotAllowed),
    }
}

/// That `t` is `u`.
fn same_number(alloc: Global, t: &Term, u: Boxed<Term>) -> Result<FormulaList, LineFault>
    ensures { Judges clause (yields (op2 eq (term t.now) (term u) ∷ [])) result }
{
    Ok(clause_of_one(alloc, equal(alloc, boxed(alloc, t)?, u)?)?)
}

/// What the first index `t` of `a` is, for a changed or a filled array.
fn first_clause(
    alloc: Global,
    of: &Sort,
    t: &Term,
    a: &Term,
    part: u32,
) -> Result<FormulaList, LineFault>
    requires { term t.now ≡ op1 fst (term a.now) }
    ensures { Judges clause (array_clause_of (sort of.now) (op1 fst (term a.now)) part) result }
{
    match a {
        Term::Sto(b, _, _) => match part {
            2 => same_number(alloc, t, first(alloc, b.get())?),
            _ => Err(LineFault::NotAllowed),
        },
        Term::Fill(f, _, _) => match part {
            5 => same_number(alloc, t, boxed(alloc, f.get())?),
            _ => Err(LineFault::NotAllowed),
        },
        _ => Err(LineFault::NotAllowed),
    }
}

/// What the last index `t` of `a` is, for a changed or a filled array.
fn last_clause(
    alloc: Global,
    of: &Sort,
    t: &Term,
    a: &Term,
    part: u32,
) -> Result<FormulaList, LineFault>
    requires { term t.now ≡ op1 lst (term a.now) }
    ensures { Judges clause (array_clause_of (sort of.now) (op1 lst (term a.now)) part) result }
{
    match a {
        Term::Sto(b, _, _) => match part {
            3 => same_number(alloc, t, last(alloc, b.get())?),
            _ => Err(LineFault::NotAllowed),
        },
        Term::Fill(_, l, _) => match part {
            6 => same_number(alloc, t, boxed(alloc, l.get())?),
            _ => Err(LineFault::NotAllowed),
        },
        _ => Err(LineFault::NotAllowed),
    }
}

/// What an item or a bound of a changed or a filled array is, by the number of the part, where the term is of this sort.
/// `NotAllowed` at another term or part.
pub fn array_clause(alloc: Global, of: &Sort, t: &Term, part: u32) -> Result<FormulaList, LineFault>
    ensures { Judges clause (array_clause_of (sort of.now) (term t.now) part) result }
{
    match t {
        Term::Sel(a, j) => item_clause(alloc, of, t, a.get(), j.get(), part),
        Term::Fst(a) => first_clause(alloc, of, t, a.get(), part),
        Term::Lst(a) => last_clause(alloc, of, t, a.get(), part),
        _ => Err(LineFault::NotAllowed),
    }
}

/// `(sel a b0)`.
fn item_there(alloc: Global, a: &Term) -> Result<Boxed<Term>, Starved>
    ensures { IfOk result (λ r. term r ≡ op2 sel (term a.now) (bound 0)) }
{
    item(alloc, a, Boxed::new(alloc, Term::Bound(0))?)
}

/// `(= (sel a b0) (sel b b0))`, where the items are of this sort.
fn items_same(alloc: Global, of: &Sort, a: &Term, b: &Term) -> Result<Boxed<Formula>, Starved>
    ensures { IfOk result (λ r. formula r ≡ equals_at (sort of.now) (op2 sel (term a.now) (bound 0)) (op2 sel (term b.now) (bound 0))) }
{
    equals(alloc, of, item_there(alloc, a)?, item_there(alloc, b)?)
}

/// `(not (= (sel a b0) (sel b b0)))`, where the items are of this sort.
fn items_differ(alloc: Global, of: &Sort, a: &Term, b: &Term) -> Result<Boxed<Formula>, Starved>
    ensures { IfOk result (λ r. formula r ≡ op1 neg (equals_at (sort of.now) (op2 sel (term a.now) (bound 0)) (op2 sel (term b.now) (bound 0)))) }
{
    not(alloc, items_same(alloc, of, a, b)?)
}

/// `(any (fst a) (lst a) p)`.
fn somewhere(alloc: Global, a: &Term, p: Boxed<Formula>) -> Result<Boxed<Formula>, Starved>
    ensures { IfOk result (λ r. formula r ≡ quant any (op1 fst (term a.now)) (op1 lst (term a.now)) (formula p)) }
{
    let from = first(alloc, a)?;
    Boxed::new(alloc, Formula::Any(from, last(alloc, a)?, p))
}

/// `(not (= (fst a) (fst b)))`.
fn firsts_differ(alloc: Global, a: &Term, b: &Term) -> Result<Boxed<Formula>, Starved>
    ensures { IfOk result (λ r. formula r ≡ op1 neg (op2 eq (op1 fst (term a.now)) (op1 fst (term b.now)))) }
{
    not_equal(alloc, first(alloc, a)?, first(alloc, b)?)
}

/// `(not (= (lst a) (lst b)))`.
fn lasts_differ(alloc: Global, a: &Term, b: &Term) -> Result<Boxed<Formula>, Starved>
    ensures { IfOk result (λ r. formula r ≡ op1 neg (op2 eq (op1 lst (term a.now)) (op1 lst (term b.now)))) }
{
    not_equal(alloc, last(alloc, a)?, last(alloc, b)?)
}

/// `(any (fst a) (lst a) (not (= (sel a b0) (sel b b0))))`, where the items are of this sort.
fn some_item_differs(
    alloc: Global,
    of: &Sort,
    a: &Term,
    b: &Term,
) -> Result<Boxed<Formula>, Starved>
    ensures { IfOk result (λ r. formula r ≡ quant any (op1 fst (term a.now)) (op1 lst (term a.now)) (op1 neg (equals_at (sort of.now) (op2 sel (term a.now) (bound 0)) (op2 sel (term b.now) (bound 0))))) }
{
    somewhere(alloc, a, items_differ(alloc, of, a, b)?)
}

/// That two arrays with items of this sort are equal where their bounds are and no item differs.
pub fn extensional(
    alloc: Global,
    item_of: &Sort,
    a: &Term,
    b: &Term,
) -> Result<FormulaList, Starved>
    ensures { IfOk result (λ r. clause r ≡ extensional_by (sort item_of.now) (term a.now) (term b.now)) }
{
    clause_of_four(
        alloc,
        same(alloc, a, b)?,
        firsts_differ(alloc, a, b)?,
        lasts_differ(alloc, a, b)?,
        some_item_differs(alloc, item_of, a, b)?,
    )
}
