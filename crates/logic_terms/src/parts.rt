//! What terms and formulas are made of.

ghost use Rattle.std.specs.Prelude.{◌≡◌};
ghost use Rattle.logic_terms.specs.Node.{arith, op2};
ghost use Rattle.logic_terms.specs.Operators.{arith_of};
ghost use Rattle.logic_terms.specs.Parts.{formula_from, term_from};
ghost use Rattle.logic_terms.specs.View.{formula, term};

use crate::operators::{
    Arithmetic, BinaryOperator, Comparison, Connective, ListOperator, Quantifier, TernaryOperator,
    UnaryOperator,
};
use crate::syntax::{Formula, Term, TermList};
use sqlite_items::Boxed;

/// A term's operator with its operands.
#[derive(Clone, Copy)]
pub enum TermParts<'a> {
    Number(i128),
    Symbol(u32),
    Bound(u32),
    Bit(&'a Formula),
    Choice(&'a Formula, &'a Term, &'a Term),
    One(UnaryOperator, &'a Term),
    Two(BinaryOperator, &'a Term, &'a Term),
    Three(TernaryOperator, &'a Term, &'a Term, &'a Term),
    List(ListOperator, &'a TermList),
}

/// A formula's operator with its operands.
#[derive(Clone, Copy)]
pub enum FormulaParts<'a> {
    Constant(bool),
    Truth(&'a Term),
    Compared(Comparison, &'a Term, &'a Term),
    Not(&'a Formula),
    Joined(Connective, &'a Formula, &'a Formula),
    Quantified(Quantifier, &'a Term, &'a Term, &'a Formula),
}

/// The parts of a term.
pub fn term_parts(t: &Term) -> TermParts
    ensures { term_from result ≡ term t.now }
{
    match t {
        Term::Num(n) => TermParts::Number(*n),
        Term::Sym(k) => TermParts::Symbol(*k),
        Term::Bound(k) => TermParts::Bound(*k),
        Term::Add(a, b) => computed(Arithmetic::Add, a, b),
        Term::Sub(a, b) => computed(Arithmetic::Sub, a, b),
        Term::Mul(a, b) => computed(Arithmetic::Mul, a, b),
        Term::Quo(a, b) => computed(Arithmetic::Quo, a, b),
        Term::Rem(a, b) => computed(Arithmetic::Rem, a, b),
        Term::Mod(a, b) => computed(Arithmetic::Mod, a, b),
        Term::Pow(a, b) => computed(Arithmetic::Pow, a, b),
        Term::Bit(p) => TermParts::Bit(p.get()),
        Term::Ite(p, a, b) => TermParts::Choice(p.get(), a.get(), b.get()),
        Term::Sel(a, i) => TermParts::Two(BinaryOperator::Select, a.get(), i.get()),
        Term::Sto(a, i, v) => {
            TermParts::Three(TernaryOperator::Store, a.get(), i.get(), v.get())
        }
        Term::Fst(a) => TermParts::One(UnaryOperator::First, a.get()),
        Term::Lst(a) => TermParts::One(UnaryOperator::Last, a.get()),
        Term::Fill(first, last, v) => {
            TermParts::Three(TernaryOperator::Fill, first.get(), last.get(), v.get())
        }
        Term::Rec(ts) => TermParts::List(ListOperator::Record, ts),
        Term::Fld(k, r) => TermParts::One(UnaryOperator::Field(*k), r.get()),
        Term::Upd(k, r, v) => TermParts::Two(BinaryOperator::Update(*k), r.get(), v.get()),
        Term::Call(k, ts) => TermParts::List(ListOperator::Call(*k), ts),
    }
}

/// The parts of an operation on two numbers.
fn computed<'a>(op: Arithmetic, a: &'a Boxed<Term>, b: &'a Boxed<Term>) -> TermParts<'a>
    ensures { term_from result ≡ op2 (arith (arith_of op)) (term a.now) (term b.now) }
{
    TermParts::Two(BinaryOperator::Compute(op), a.get(), b.get())
}

/// The parts of a formula.
pub fn formula_parts(p: &Formula) -> FormulaParts
    ensures { formula_from result ≡ formula p.now }
{
    match p {
        Formula::True => FormulaParts::Constant(true),
        Formula::False => FormulaParts::Constant(false),
        Formula::Tru(t) => FormulaParts::Truth(t.get()),
        Formula::Le(a, b) => FormulaParts::Compared(Comparison::AtMost, a.get(), b.get()),
        Formula::Eq(a, b) => FormulaParts::Compared(Comparison::Equal, a.get(), b.get()),
        Formula::Not(q) => FormulaParts::Not(q.get()),
        Formula::And(q, r) => FormulaParts::Joined(Connective::And, q.get(), r.get()),
        Formula::Or(q, r) => FormulaParts::Joined(Connective::Or, q.get(), r.get()),
        Formula::Iff(q, r) => FormulaParts::Joined(Connective::Iff, q.get(), r.get()),
        Formula::All(first, last, q) => {
            FormulaParts::Quantified(Quantifier::All, first.get(), last.get(), q.get())
        }
        Formula::Any(first, last, q) => {
            FormulaParts::Quantified(Quantifier::Any, first.get(), last.get(), q.get())
        }
    }
}
