//! Negation, and a term in place of a variable.

ghost use Rattle.std.specs.Prelude.{◌≡◌, IfOk, suc};
ghost use Rattle.logic_terms.specs.Node.{ite, op2, op3, quant};
ghost use Rattle.logic_terms.specs.Operators.{binary_of, comparison_of, connective_of, quantifier_of, ternary_of};
ghost use Rattle.logic_terms.specs.View.{term, formula, terms};
ghost use Rattle.logic_terms.specs.Binding.{negated, put, puts};

use crate::Starved;
use crate::copy::{boxed_formula, copy_term, push_term};
use crate::nesting::{MOST_LEVELS, below};
use crate::operators::{
    BinaryOperator, Comparison, Connective, Quantifier, TernaryOperator, binary_term, compared,
    joined, list_term, quantified, ternary_term, unary_term,
};
use crate::parts::{FormulaParts, TermParts, formula_parts, term_parts};
use crate::syntax::{Formula, Term, TermList};
use sqlite_items::{Boxed, Items};
use std::alloc::Global;

/// `f` without its `not`, or else `not f`.
pub fn negate(alloc: Global, f: &Formula) -> Result<Formula, Starved>
    ensures { IfOk result (λ r. formula r ≡ negated (formula f.now)) }
{
    match formula_parts(f) {
        FormulaParts::Not(p) => p.copy(alloc),
        _ => Ok(Formula::Not(boxed_formula(alloc, f, MOST_LEVELS)?)),
    }
}

/// A term that is put in place of a variable, where what is made may nest so many levels more.
#[derive(Clone, Copy)]
struct Putting<'a> {
    alloc: Global,
    replacement: &'a Term,
    /// The number of the variable: how many quantifiers stand around.
    variable: u32,
}

impl<'a> Putting<'a> {
    #[cycle(put)]
    fn term_in(&self, a: &Term, left: u32) -> Result<Boxed<Term>, Starved>
        ensures { IfOk result (λ r. term r ≡ put (term self.now.replacement.now) self.now.variable (term a.now)) }
    {
        let changed = self.term(a, below(left)?)?;
        Boxed::new(self.alloc, changed)
    }

    #[cycle(put)]
    fn formula_in(&self, p: &Formula, left: u32) -> Result<Boxed<Formula>, Starved>
        ensures { IfOk result (λ r. formula r ≡ put (term self.now.replacement.now) self.now.variable (formula p.now)) }
    {
        let changed = self.formula(p, below(left)?)?;
        Boxed::new(self.alloc, changed)
    }

    /// Under a quantifier, where the variable's number is one more. That many quantifiers would have that many levels.
    #[cycle(put)]
    fn body(&self, p: &Formula, left: u32) -> Result<Boxed<Formula>, Starved>
        ensures { IfOk result (λ r. formula r ≡ put (term self.now.replacement.now) (suc self.now.variable) (formula p.now)) }
    {
        if self.variable >= MOST_LEVELS {
            Err(Starved)
        } else {
            let further = Putting {
                alloc: self.alloc,
                replacement: self.replacement,
                variable: self.variable + 1,
            };
            further.formula_in(p, left)
        }
    }

    #[cycle(put)]
    fn terms_in(&self, ts: &TermList, left: u32) -> Result<TermList, Starved>
        ensures { IfOk result (λ r. terms r ≡ puts (term self.now.replacement.now) self.now.variable (terms ts.now)) }
    {
        let left = below(left)?;
        let mut changed = Items::new(self.alloc);
        for a in ts.as_slice() {
            push_term(&mut changed, self.term(a, left)?)?;
        }
        Ok(changed)
    }

    #[cycle(put)]
    fn choice(&self, p: &Formula, a: &Term, b: &Term, left: u32) -> Result<Term, Starved>
        ensures { IfOk result (λ r. term r ≡ put (term self.now.replacement.now) self.now.variable (op3 ite (formula p.now) (term a.now) (term b.now))) }
    {
        let p = self.formula_in(p, left)?;
        let a = self.term_in(a, left)?;
        let b = self.term_in(b, left)?;
        Ok(Term::Ite(p, a, b))
    }

    #[cycle(put)]
    fn two(&self, op: BinaryOperator, a: &Term, b: &Term, left: u32) -> Result<Term, Starved>
        ensures { IfOk result (λ r. term r ≡ put (term self.now.replacement.now) self.now.variable (op2 (binary_of op) (term a.now) (term b.now))) }
    {
        let a = self.term_in(a, left)?;
        let b = self.term_in(b, left)?;
        Ok(binary_term(op, a, b))
    }

    #[cycle(put)]
    fn three(
        &self,
        op: TernaryOperator,
        a: &Term,
        b: &Term,
        c: &Term,
        left: u32,
    ) -> Result<Term, Starved>
        ensures { IfOk result (λ r. term r ≡ put (term self.now.replacement.now) self.now.variable (op3 (ternary_of op) (term a.now) (term b.now) (term c.now))) }
    {
        let a = self.term_in(a, left)?;
        let b = self.term_in(b, left)?;
        let c = self.term_in(c, left)?;
        Ok(ternary_term(op, a, b, c))
    }

    #[cycle(put)]
    fn term(&self, a: &Term, left: u32) -> Result<Term, Starved>
        ensures { IfOk result (λ r. term r ≡ put (term self.now.replacement.now) self.now.variable (term a.now)) }
    {
        match term_parts(a) {
            TermParts::Number(n) => Ok(Term::Num(n)),
            TermParts::Symbol(k) => Ok(Term::Sym(k)),
            TermParts::Bound(k) => {
                if k == self.variable {
                    copy_term(self.alloc, self.replacement, left)
                } else {
                    Ok(Term::Bound(k))
                }
            }
            TermParts::Bit(p) => Ok(Term::Bit(self.formula_in(p, left)?)),
            TermParts::Choice(p, b, c) => self.choice(p, b, c, left),
            TermParts::One(op, b) => Ok(unary_term(op, self.term_in(b, left)?)),
            TermParts::Two(op, b, c) => self.two(op, b, c, left),
            TermParts::Three(op, b, c, d) => self.three(op, b, c, d, left),
            TermParts::List(op, ts) => Ok(list_term(op, self.terms_in(ts, left)?)),
        }
    }

    #[cycle(put)]
    fn compared(&self, op: Comparison, a: &Term, b: &Term, left: u32) -> Result<Formula, Starved>
        ensures { IfOk result (λ r. formula r ≡ put (term self.now.replacement.now) self.now.variable (op2 (comparison_of op) (term a.now) (term b.now))) }
    {
        let a = self.term_in(a, left)?;
        let b = self.term_in(b, left)?;
        Ok(compared(op, a, b))
    }

    #[cycle(put)]
    fn joined(
        &self,
        op: Connective,
        p: &Formula,
        q: &Formula,
        left: u32,
    ) -> Result<Formula, Starved>
        ensures { IfOk result (λ r. formula r ≡ put (term self.now.replacement.now) self.now.variable (op2 (connective_of op) (formula p.now) (formula q.now))) }
    {
        let p = self.formula_in(p, left)?;
        let q = self.formula_in(q, left)?;
        Ok(joined(op, p, q))
    }

    #[cycle(put)]
    fn quantified(
        &self,
        op: Quantifier,
        first: &Term,
        last: &Term,
        p: &Formula,
        left: u32,
    ) -> Result<Formula, Starved>
        ensures { IfOk result (λ r. formula r ≡ put (term self.now.replacement.now) self.now.variable (quant (quantifier_of op) (term first.now) (term last.now) (formula p.now))) }
    {
        let first = self.term_in(first, left)?;
        let last = self.term_in(last, left)?;
        let p = self.body(p, left)?;
        Ok(quantified(op, first, last, p))
    }

    #[cycle(put)]
    fn formula(&self, p: &Formula, left: u32) -> Result<Formula, Starved>
        ensures { IfOk result (λ r. formula r ≡ put (term self.now.replacement.now) self.now.variable (formula p.now)) }
    {
        match formula_parts(p) {
            FormulaParts::Constant(true) => Ok(Formula::True),
            FormulaParts::Constant(false) => Ok(Formula::False),
            FormulaParts::Truth(a) => Ok(Formula::Tru(self.term_in(a, left)?)),
            FormulaParts::Compared(op, a, b) => self.compared(op, a, b, left),
            FormulaParts::Not(q) => Ok(Formula::Not(self.formula_in(q, left)?)),
            FormulaParts::Joined(op, q, r) => self.joined(op, q, r, left),
            FormulaParts::Quantified(op, first, last, q) => {
                self.quantified(op, first, last, q, left)
            }
        }
    }
}

/// `f` with the closed `t` for its outermost variable.
pub fn put_in(alloc: Global, f: &Formula, t: &Term) -> Result<Formula, Starved>
    ensures { IfOk result (λ r. formula r ≡ put (term t.now) 0 (formula f.now)) }
{
    let putting = Putting {
        alloc,
        replacement: t,
        variable: 0,
    };
    putting.formula(f, MOST_LEVELS)
}
