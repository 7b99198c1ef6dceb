//! Copies of terms and formulas.

ghost use Rattle.std.specs.Prelude.{◌≡◌, ◌++◌, ◌∷◌, [], IfOk, OnOk};
ghost use Rattle.logic_terms.specs.Node.{ite, op1, op2, op3, opn, quant};
ghost use Rattle.logic_terms.specs.Operators.{binary_of, comparison_of, connective_of, list_of, quantifier_of, ternary_of, unary_of};
ghost use Rattle.logic_terms.specs.View.{formula, term, terms};

use crate::Starved;
use crate::nesting::{MOST_LEVELS, below};
use crate::operators::{
    BinaryOperator, Comparison, Connective, ListOperator, Quantifier, TernaryOperator,
    UnaryOperator, binary_term, compared, joined, list_term, quantified, ternary_term, unary_term,
};
use crate::parts::{FormulaParts, TermParts, formula_parts, term_parts};
use crate::syntax::{Formula, Term, TermList};
use sqlite_items::{Boxed, Items};
use std::alloc::Global;

/// A copy of a term behind a box, where what stands around it may nest this many levels.
#[cycle(copy)]
fn boxed(alloc: Global, t: &Term, left: u32) -> Result<Boxed<Term>, Starved>
    ensures { IfOk result (λ r. term r ≡ term t.now) }
{
    let copy = copy_term(alloc, t, below(left)?)?;
    Boxed::new(alloc, copy)
}

/// A copy of a formula behind a box, where what stands around it may nest this many levels.
#[cycle(copy)]
pub fn boxed_formula(alloc: Global, p: &Formula, left: u32) -> Result<Boxed<Formula>, Starved>
    ensures { IfOk result (λ r. formula r ≡ formula p.now) }
{
    let copy = copy_formula(alloc, p, below(left)?)?;
    Boxed::new(alloc, copy)
}

#[cycle(copy)]
fn copy_terms(alloc: Global, ts: &TermList, left: u32) -> Result<TermList, Starved>
    ensures { IfOk result (λ r. terms r ≡ terms ts.now) }
{
    let left = below(left)?;
    let mut copy = Items::new(alloc);
    for t in ts.as_slice() {
        push_term(&mut copy, copy_term(alloc, t, left)?)?;
    }
    Ok(copy)
}

/// A copy of a choice.
#[cycle(copy)]
fn copy_choice(alloc: Global, p: &Formula, a: &Term, b: &Term, left: u32) -> Result<Term, Starved>
    ensures { IfOk result (λ r. term r ≡ op3 ite (formula p.now) (term a.now) (term b.now)) }
{
    let p = boxed_formula(alloc, p, left)?;
    let a = boxed(alloc, a, left)?;
    let b = boxed(alloc, b, left)?;
    Ok(Term::Ite(p, a, b))
}

/// A copy of a term with two operands.
#[cycle(copy)]
fn copy_two(
    alloc: Global,
    op: BinaryOperator,
    a: &Term,
    b: &Term,
    left: u32,
) -> Result<Term, Starved>
    ensures { IfOk result (λ r. term r ≡ op2 (binary_of op) (term a.now) (term b.now)) }
{
    let a = boxed(alloc, a, left)?;
    let b = boxed(alloc, b, left)?;
    Ok(binary_term(op, a, b))
}

/// A copy of a term with three operands.
#[cycle(copy)]
fn copy_three(
    alloc: Global,
    op: TernaryOperator,
    a: &Term,
    b: &Term,
    c: &Term,
    left: u32,
) -> Result<Term, Starved>
    ensures { IfOk result (λ r. term r ≡ op3 (ternary_of op) (term a.now) (term b.now) (term c.now)) }
{
    let a = boxed(alloc, a, left)?;
    let b = boxed(alloc, b, left)?;
    let c = boxed(alloc, c, left)?;
    Ok(ternary_term(op, a, b, c))
}

/// A copy of a term, which may nest this many levels.
#[cycle(copy)]
pub fn copy_term(alloc: Global, t: &Term, left: u32) -> Result<Term, Starved>
    ensures { IfOk result (λ r. term r ≡ term t.now) }
{
    match term_parts(t) {
        TermParts::Number(n) => Ok(Term::Num(n)),
        TermParts::Symbol(k) => Ok(Term::Sym(k)),
        TermParts::Bound(k) => Ok(Term::Bound(k)),
        TermParts::Bit(p) => Ok(Term::Bit(boxed_formula(alloc, p, left)?)),
        TermParts::Choice(p, a, b) => copy_choice(alloc, p, a, b, left),
        TermParts::One(op, a) => Ok(unary_term(op, boxed(alloc, a, left)?)),
        TermParts::Two(op, a, b) => copy_two(alloc, op, a, b, left),
        TermParts::Three(op, a, b, c) => copy_three(alloc, op, a, b, c, left),
        TermParts::List(op, ts) => Ok(list_term(op, copy_terms(alloc, ts, left)?)),
    }
}

/// A copy of what is said of two terms.
#[cycle(copy)]
fn copy_compared(
    alloc: Global,
    op: Comparison,
    a: &Term,
    b: &Term,
    left: u32,
) -> Result<Formula, Starved>
    ensures { IfOk result (λ r. formula r ≡ op2 (comparison_of op) (term a.now) (term b.now)) }
{
    let a = boxed(alloc, a, left)?;
    let b = boxed(alloc, b, left)?;
    Ok(compared(op, a, b))
}

/// A copy of two formulas that are joined.
#[cycle(copy)]
fn copy_joined(
    alloc: Global,
    op: Connective,
    p: &Formula,
    q: &Formula,
    left: u32,
) -> Result<Formula, Starved>
    ensures { IfOk result (λ r. formula r ≡ op2 (connective_of op) (formula p.now) (formula q.now)) }
{
    let p = boxed_formula(alloc, p, left)?;
    let q = boxed_formula(alloc, q, left)?;
    Ok(joined(op, p, q))
}

/// A copy of a formula with a quantifier.
#[cycle(copy)]
fn copy_quantified(
    alloc: Global,
    op: Quantifier,
    first: &Term,
    last: &Term,
    p: &Formula,
    left: u32,
) -> Result<Formula, Starved>
    ensures { IfOk result (λ r. formula r ≡ quant (quantifier_of op) (term first.now) (term last.now) (formula p.now)) }
{
    let first = boxed(alloc, first, left)?;
    let last = boxed(alloc, last, left)?;
    let p = boxed_formula(alloc, p, left)?;
    Ok(quantified(op, first, last, p))
}

/// A copy of a formula, which may nest this many levels.
#[cycle(copy)]
pub fn copy_formula(alloc: Global, p: &Formula, left: u32) -> Result<Formula, Starved>
    ensures { IfOk result (λ r. formula r ≡ formula p.now) }
{
    match formula_parts(p) {
        FormulaParts::Constant(true) => Ok(Formula::True),
        FormulaParts::Constant(false) => Ok(Formula::False),
        FormulaParts::Truth(t) => Ok(Formula::Tru(boxed(alloc, t, left)?)),
        FormulaParts::Compared(op, a, b) => copy_compared(alloc, op, a, b, left),
        FormulaParts::Not(q) => Ok(Formula::Not(boxed_formula(alloc, q, left)?)),
        FormulaParts::Joined(op, q, r) => copy_joined(alloc, op, q, r, left),
        FormulaParts::Quantified(op, first, last, q) => {
            copy_quantified(alloc, op, first, last, q, left)
        }
    }
}

/// Adds a term to a list. Apart from what recurses, whose frames it would make larger.
#[inline(never)]
pub fn push_term(list: &mut TermList, t: Term) -> Result<(), Starved>
    ensures { OnOk result (list.new ≡ list.old ++ t ∷ []) }
{
    list.push(t)
}

impl Term {
    /// A copy of the term. `Starved` also where the term nests more than `MOST_LEVELS`.
    pub fn copy(&self, alloc: Global) -> Result<Term, Starved>
        ensures { IfOk result (λ r. r ≡ self.now) }
    {
        copy_term(alloc, self, MOST_LEVELS)
    }
}

impl Formula {
    /// A copy of the formula. `Starved` also where the formula nests more than `MOST_LEVELS`.
    pub fn copy(&self, alloc: Global) -> Result<Formula, Starved>
        ensures { IfOk result (λ r. r ≡ self.now) }
    {
        copy_formula(alloc, self, MOST_LEVELS)
    }
}
