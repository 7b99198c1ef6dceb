//! Formulas from their parts, in boxes as terms are.

ghost use Rattle.std.specs.Prelude.{◌≡◌, IfOk};
ghost use Rattle.logic_terms.specs.Binding.{negated};
ghost use Rattle.logic_terms.specs.Node.{conj, eq, iff, le, neg, op1, op2, tru};
ghost use Rattle.logic_terms.specs.Sorts.{sort};
ghost use Rattle.logic_terms.specs.View.{formula, term};
ghost use Rattle.cert_rules.specs.Clause.{equals as equals_at};
ghost use Rattle.cert_rules.specs.Literal.{literal as literal_of};

use logic_terms::{Formula, Sort, Starved, Term, negate};
use sqlite_items::Boxed;
use std::alloc::Global;

/// A copy of a formula.
pub fn boxed_formula(alloc: Global, p: &Formula) -> Result<Boxed<Formula>, Starved>
    ensures { IfOk result (λ r. r ≡ p.now) }
{
    Boxed::new(alloc, p.copy(alloc)?)
}

/// The formula with a `not` before it, or without the one that it has.
pub fn negation(alloc: Global, p: &Formula) -> Result<Boxed<Formula>, Starved>
    ensures { IfOk result (λ r. formula r ≡ negated (formula p.now)) }
{
    Boxed::new(alloc, negate(alloc, p)?)
}

/// The formula where it holds, or else its negation.
pub fn literal(alloc: Global, p: &Formula, holds: bool) -> Result<Boxed<Formula>, Starved>
    ensures { IfOk result (λ r. formula r ≡ literal_of holds (formula p.now)) }
{
    if holds {
        boxed_formula(alloc, p)
    } else {
        negation(alloc, p)
    }
}

/// `(not p)`.
pub fn not(alloc: Global, p: Boxed<Formula>) -> Result<Boxed<Formula>, Starved>
    ensures { IfOk result (λ r. formula r ≡ op1 neg (formula p)) }
{
    Boxed::new(alloc, Formula::Not(p))
}

/// `(and p q)`.
pub fn both(alloc: Global, p: Boxed<Formula>, q: Boxed<Formula>) -> Result<Boxed<Formula>, Starved>
    ensures { IfOk result (λ r. formula r ≡ op2 conj (formula p) (formula q)) }
{
    Boxed::new(alloc, Formula::And(p, q))
}

/// `(<= a b)`.
pub fn at_most(alloc: Global, a: Boxed<Term>, b: Boxed<Term>) -> Result<Boxed<Formula>, Starved>
    ensures { IfOk result (λ r. formula r ≡ op2 le (term a) (term b)) }
{
    Boxed::new(alloc, Formula::Le(a, b))
}

/// `(not (<= a b))`.
pub fn not_at_most(alloc: Global, a: Boxed<Term>, b: Boxed<Term>) -> Result<Boxed<Formula>, Starved>
    ensures { IfOk result (λ r. formula r ≡ op1 neg (op2 le (term a) (term b))) }
{
    not(alloc, at_most(alloc, a, b)?)
}

/// `(= a b)`.
pub fn equal(alloc: Global, a: Boxed<Term>, b: Boxed<Term>) -> Result<Boxed<Formula>, Starved>
    ensures { IfOk result (λ r. formula r ≡ op2 eq (term a) (term b)) }
{
    Boxed::new(alloc, Formula::Eq(a, b))
}

/// `(not (= a b))`.
pub fn not_equal(alloc: Global, a: Boxed<Term>, b: Boxed<Term>) -> Result<Boxed<Formula>, Starved>
    ensures { IfOk result (λ r. formula r ≡ op1 neg (op2 eq (term a) (term b))) }
{
    not(alloc, equal(alloc, a, b)?)
}

/// `(tru a)`.
fn is_true(alloc: Global, a: Boxed<Term>) -> Result<Boxed<Formula>, Starved>
    ensures { IfOk result (λ r. formula r ≡ op1 tru (term a)) }
{
    Boxed::new(alloc, Formula::Tru(a))
}

/// `(iff (tru a) (tru b))`.
fn same_truth(alloc: Global, a: Boxed<Term>, b: Boxed<Term>) -> Result<Boxed<Formula>, Starved>
    ensures { IfOk result (λ r. formula r ≡ op2 iff (op1 tru (term a)) (op1 tru (term b))) }
{
    let p = is_true(alloc, a)?;
    Boxed::new(alloc, Formula::Iff(p, is_true(alloc, b)?))
}

/// `(= a b)`, where the terms are of this sort; of truth values it is `(iff (tru a) (tru b))`.
pub fn equals(
    alloc: Global,
    of: &Sort,
    a: Boxed<Term>,
    b: Boxed<Term>,
) -> Result<Boxed<Formula>, Starved>
    ensures { IfOk result (λ r. formula r ≡ equals_at (sort of.now) (term a) (term b)) }
{
    match of {
        Sort::Truth => same_truth(alloc, a, b),
        _ => equal(alloc, a, b),
    }
}
