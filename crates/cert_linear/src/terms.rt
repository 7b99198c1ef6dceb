//! The terms that a formula says are at least 0.

ghost use Rattle.std.specs.Prelude.{◌≡◌, IfOk, map, [], ◌∷◌, pos};
ghost use Rattle.logic_terms.specs.Node.{num};
ghost use Rattle.logic_terms.specs.View.{term, formula};
ghost use Rattle.cert_rules.specs.Linear.{minus, terms_of};
ghost use Rattle.cert_rules.specs.Judges.{Judges};
ghost use Rattle.cert_linear.specs.Here.{here};

use cert_rules::{LineFault, boxed, number};
use cert_sorts::is_number;
use logic_terms::{Formula, Goal, Starved, Term, TermList};
use sqlite_items::{Boxed, Items};
use std::alloc::Global;

/// `(- a b)`.
fn minus(alloc: Global, a: Boxed<Term>, b: Boxed<Term>) -> Result<Boxed<Term>, Starved>
    ensures { IfOk result (λ t. term t ≡ minus (term a) (term b)) }
{
    Boxed::new(alloc, Term::Sub(a, b))
}

/// `(- a b)` of copies.
fn difference(alloc: Global, a: &Term, b: &Term) -> Result<Boxed<Term>, Starved>
    ensures { IfOk result (λ t. term t ≡ minus (term a.now) (term b.now)) }
{
    let a = boxed(alloc, a)?;
    minus(alloc, a, boxed(alloc, b)?)
}

/// Of `(<= a b)`: that b - a is at least 0.
fn at_most(alloc: Global, a: &Term, b: &Term) -> Result<TermList, Starved>
    ensures { IfOk result (λ ts. map term ts ≡ minus (term b.now) (term a.now) ∷ []) }
{
    let mut terms = Items::new(alloc);
    terms.push(difference(alloc, b, a)?.into_inner())?;
    Ok(terms)
}

/// Of `(not (<= a b))`: that a - b - 1 is at least 0.
fn above(alloc: Global, a: &Term, b: &Term) -> Result<TermList, Starved>
    ensures { IfOk result (λ ts. map term ts ≡ minus (minus (term a.now) (term b.now)) (num (pos 1)) ∷ []) }
{
    let mut terms = Items::new(alloc);
    let more = difference(alloc, a, b)?;
    terms.push(minus(alloc, more, number(alloc, 1)?)?.into_inner())?;
    Ok(terms)
}

/// Of `(= a b)`: that b - a and a - b are at least 0.
fn equal(alloc: Global, a: &Term, b: &Term) -> Result<TermList, Starved>
    ensures { IfOk result (λ ts. map term ts ≡ minus (term b.now) (term a.now) ∷ minus (term a.now) (term b.now) ∷ []) }
{
    let mut terms = Items::new(alloc);
    terms.push(difference(alloc, b, a)?.into_inner())?;
    terms.push(difference(alloc, a, b)?.into_inner())?;
    Ok(terms)
}

/// The terms that a formula says are at least 0. Another formula than an order of numbers, its negation or an equation of
/// numbers is not allowed.
pub fn terms_of(alloc: Global, goal: &Goal, fresh: u32, p: &Formula) -> Result<TermList, LineFault>
    ensures { Judges (map term) (terms_of (here goal.now fresh) (formula p.now)) result }
{
    match p {
        Formula::Le(a, b) => Ok(at_most(alloc, a.get(), b.get())?),
        Formula::Eq(a, b) => {
            if is_number(alloc, goal, fresh, a.get())? {
                Ok(equal(alloc, a.get(), b.get())?)
            } else {
                Err(LineFault::NotAllowed)
            }
        }
        Formula::Not(q) => match q.get() {
            Formula::Le(a, b) => Ok(above(alloc, a.get(), b.get())?),
            _ => Err(LineFault::NotAllowed),
        },
        _ => Err(LineFault::NotAllowed),
    }
}
