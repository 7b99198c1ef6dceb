//! A term replaced by another at one occurrence, part after part. `left` is how many more occurrences are to be passed, and
//! none where one was replaced.

ghost use Rattle.std.specs.Prelude.{◌≡◌, ◌++◌, ◌∷◌, [], IfOk, OnOk, Some};
ghost use Rattle.logic_terms.specs.View.{formula, term, terms};
ghost use Rattle.cert_rules.specs.Replacing.{replaced};
ghost use Rattle.cert_replacing.specs.Swapping.{Replaces, met as met_by, swap, swap_among, swap_parts};

use logic_terms::{
    Formula, FormulaParts, Starved, Term, TermList, TermParts, binary_term, compared,
    formula_parts, joined, list_term, quantified, same_term, term_parts, ternary_term, unary_term,
};
use sqlite_items::{Boxed, Items};
use std::alloc::Global;

/// The term that is replaced, and the one in its place.
#[derive(Drop)]
struct Change<'a> {
    from: &'a Term,
    to: &'a Term,
}

/// At an occurrence with `k` more to be passed before the one that is replaced.
#[inline(never)]
fn met(
    alloc: Global,
    change: &Change,
    t: &Term,
    k: u32,
    left: &mut Option<u32>,
) -> Result<Term, Starved>
    ensures part { IfOk result (λ r. term r ≡ (met_by (term change.now.to.now) (term t.now) k).0) }
    ensures left { IfOk result (λ r. left.new ≡ (met_by (term change.now.to.now) (term t.now) k).1) }
{
    if k == 0 {
        *left = None;
        change.to.copy(alloc)
    } else {
        *left = Some(k - 1);
        t.copy(alloc)
    }
}

/// Adds a term to a list.
#[inline(never)]
fn push_term(list: &mut TermList, t: Term) -> Result<(), Starved>
    ensures { OnOk result (list.new ≡ list.old ++ t ∷ []) }
{
    list.push(t)
}

#[cycle(swapping)]
#[inline(never)]
fn swap_boxed(
    alloc: Global,
    change: &Change,
    t: &Term,
    left: &mut Option<u32>,
) -> Result<Boxed<Term>, Starved>
    ensures part { IfOk result (λ r. term r ≡ (swap (term change.now.from.now) (term change.now.to.now) (term t.now) left.old).0) }
    ensures left { IfOk result (λ r. left.new ≡ (swap (term change.now.from.now) (term change.now.to.now) (term t.now) left.old).1) }
{
    let new = swap_term(alloc, change, t, left)?;
    Boxed::new(alloc, new)
}

#[cycle(swapping)]
#[inline(never)]
fn swap_boxed_formula(
    alloc: Global,
    change: &Change,
    p: &Formula,
    left: &mut Option<u32>,
) -> Result<Boxed<Formula>, Starved>
    ensures part { IfOk result (λ r. formula r ≡ (swap (term change.now.from.now) (term change.now.to.now) (formula p.now) left.old).0) }
    ensures left { IfOk result (λ r. left.new ≡ (swap (term change.now.from.now) (term change.now.to.now) (formula p.now) left.old).1) }
{
    let new = swap_formula(alloc, change, p, left)?;
    Boxed::new(alloc, new)
}

#[cycle(swapping)]
#[tactic(auto, using(crate::proofs::Swaps::among_more))]
#[inline(never)]
fn swap_terms(
    alloc: Global,
    change: &Change,
    ts: &TermList,
    left: &mut Option<u32>,
) -> Result<TermList, Starved>
    ensures part { IfOk result (λ r. terms r ≡ (swap_among (term change.now.from.now) (term change.now.to.now) (terms ts.now) left.old).0) }
    ensures left { IfOk result (λ r. left.new ≡ (swap_among (term change.now.from.now) (term change.now.to.now) (terms ts.now) left.old).1) }
{
    let mut made = Items::new(alloc);
    for t in ts.as_slice() {
        let new = swap_term(alloc, change, t, left)?;
        push_term(&mut made, new)?;
    }
    Ok(made)
}

/// In the parts of a term.
#[cycle(swapping)]
fn swap_in_term(
    alloc: Global,
    change: &Change,
    t: &Term,
    left: &mut Option<u32>,
) -> Result<Term, Starved>
    ensures part { IfOk result (λ r. term r ≡ (swap_parts (term change.now.from.now) (term change.now.to.now) (term t.now) left.old).0) }
    ensures left { IfOk result (λ r. left.new ≡ (swap_parts (term change.now.from.now) (term change.now.to.now) (term t.now) left.old).1) }
{
    match term_parts(t) {
        TermParts::Number(n) => Ok(Term::Num(n)),
        TermParts::Symbol(k) => Ok(Term::Sym(k)),
        TermParts::Bound(k) => Ok(Term::Bound(k)),
        TermParts::Bit(p) => {
            let p = swap_boxed_formula(alloc, change, p, left)?;
            Ok(Term::Bit(p))
        }
        TermParts::Choice(p, a, b) => {
            let p = swap_boxed_formula(alloc, change, p, left)?;
            let a = swap_boxed(alloc, change, a, left)?;
            let b = swap_boxed(alloc, change, b, left)?;
            Ok(Term::Ite(p, a, b))
        }
        TermParts::One(operator, a) => {
            let a = swap_boxed(alloc, change, a, left)?;
            Ok(unary_term(operator, a))
        }
        TermParts::Two(operator, a, b) => {
            let a = swap_boxed(alloc, change, a, left)?;
            let b = swap_boxed(alloc, change, b, left)?;
            Ok(binary_term(operator, a, b))
        }
        TermParts::Three(operator, a, b, c) => {
            let a = swap_boxed(alloc, change, a, left)?;
            let b = swap_boxed(alloc, change, b, left)?;
            let c = swap_boxed(alloc, change, c, left)?;
            Ok(ternary_term(operator, a, b, c))
        }
        TermParts::List(operator, ts) => {
            let ts = swap_terms(alloc, change, ts, left)?;
            Ok(list_term(operator, ts))
        }
    }
}

#[cycle(swapping)]
#[tactic(auto, using(crate::proofs::Swaps::swap_none, crate::proofs::Swaps::swap_met, crate::proofs::Swaps::swap_apart))]
#[inline(never)]
fn swap_term(
    alloc: Global,
    change: &Change,
    t: &Term,
    left: &mut Option<u32>,
) -> Result<Term, Starved>
    ensures part { IfOk result (λ r. term r ≡ (swap (term change.now.from.now) (term change.now.to.now) (term t.now) left.old).0) }
    ensures left { IfOk result (λ r. left.new ≡ (swap (term change.now.from.now) (term change.now.to.now) (term t.now) left.old).1) }
{
    match *left {
        None => t.copy(alloc),
        Some(k) => {
            if same_term(change.from, t) {
                met(alloc, change, t, k, left)
            } else {
                swap_in_term(alloc, change, t, left)
            }
        }
    }
}

/// In the parts of a formula.
#[cycle(swapping)]
fn swap_in_formula(
    alloc: Global,
    change: &Change,
    p: &Formula,
    left: &mut Option<u32>,
) -> Result<Formula, Starved>
    ensures part { IfOk result (λ r. formula r ≡ (swap_parts (term change.now.from.now) (term change.now.to.now) (formula p.now) left.old).0) }
    ensures left { IfOk result (λ r. left.new ≡ (swap_parts (term change.now.from.now) (term change.now.to.now) (formula p.now) left.old).1) }
{
    match formula_parts(p) {
        FormulaParts::Constant(true) => Ok(Formula::True),
        FormulaParts::Constant(false) => Ok(Formula::False),
        FormulaParts::Truth(t) => {
            let t = swap_boxed(alloc, change, t, left)?;
            Ok(Formula::Tru(t))
        }
        FormulaParts::Compared(operator, a, b) => {
            let a = swap_boxed(alloc, change, a, left)?;
            let b = swap_boxed(alloc, change, b, left)?;
            Ok(compared(operator, a, b))
        }
        FormulaParts::Not(q) => {
            let q = swap_boxed_formula(alloc, change, q, left)?;
            Ok(Formula::Not(q))
        }
        FormulaParts::Joined(operator, q, r) => {
            let q = swap_boxed_formula(alloc, change, q, left)?;
            let r = swap_boxed_formula(alloc, change, r, left)?;
            Ok(joined(operator, q, r))
        }
        FormulaParts::Quantified(quantifier, l, h, q) => {
            let l = swap_boxed(alloc, change, l, left)?;
            let h = swap_boxed(alloc, change, h, left)?;
            let q = swap_boxed_formula(alloc, change, q, left)?;
            Ok(quantified(quantifier, l, h, q))
        }
    }
}

#[cycle(swapping)]
#[tactic(auto, using(crate::proofs::Swaps::swap_none))]
#[inline(never)]
fn swap_formula(
    alloc: Global,
    change: &Change,
    p: &Formula,
    left: &mut Option<u32>,
) -> Result<Formula, Starved>
    ensures part { IfOk result (λ r. formula r ≡ (swap (term change.now.from.now) (term change.now.to.now) (formula p.now) left.old).0) }
    ensures left { IfOk result (λ r. left.new ≡ (swap (term change.now.from.now) (term change.now.to.now) (formula p.now) left.old).1) }
{
    match *left {
        None => p.copy(alloc),
        Some(_) => swap_in_formula(alloc, change, p, left),
    }
}

/// A formula with `from` replaced by `to` at an occurrence, which are numbered from 0 in the order of the text, or none where
/// there are not so many.
#[tactic(auto, using(crate::proofs::Swaps::swap_done, crate::proofs::Swaps::swap_passed))]
pub fn replace_in(
    alloc: Global,
    from: &Term,
    to: &Term,
    p: &Formula,
    occurrence: u32,
) -> Result<Option<Boxed<Formula>>, Starved>
    ensures { IfOk result (λ r. Replaces r (replaced (term from.now) (term to.now) (formula p.now) occurrence)) }
{
    let mut left = Some(occurrence);
    let changed = swap_formula(alloc, &Change { from, to }, p, &mut left)?;
    let changed = Boxed::new(alloc, changed)?;
    match left {
        None => Ok(Some(changed)),
        Some(_) => Ok(None),
    }
}
