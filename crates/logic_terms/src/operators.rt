//! The operators of terms and formulas.

ghost use Rattle.std.specs.Prelude.{◌≡◌};
ghost use Rattle.logic_terms.specs.Node.{op1, op2, op3, opn, quant};
ghost use Rattle.logic_terms.specs.Operators.{binary_of, comparison_of, connective_of, list_of, quantifier_of, ternary_of, unary_of};
ghost use Rattle.logic_terms.specs.View.{formula, term, terms};

use crate::syntax::{Formula, Term, TermList};
use sqlite_items::Boxed;

/// An operation on two numbers.
#[derive(Clone, Copy)]
pub enum Arithmetic {
    Add,
    Sub,
    Mul,
    Quo,
    Rem,
    Mod,
    Pow,
}

/// An operator of terms with one operand, a term.
#[derive(Clone, Copy)]
pub enum UnaryOperator {
    First,
    Last,
    Field(u32),
}

/// An operator of terms with two operands, which are terms.
#[derive(Clone, Copy)]
pub enum BinaryOperator {
    Compute(Arithmetic),
    Select,
    Update(u32),
}

/// An operator of terms with three operands, which are terms.
#[derive(Clone, Copy)]
pub enum TernaryOperator {
    Store,
    Fill,
}

/// An operator of terms with a list of operands.
#[derive(Clone, Copy)]
pub enum ListOperator {
    Record,
    Call(u32),
}

/// What a formula says of two terms.
#[derive(Clone, Copy)]
pub enum Comparison {
    AtMost,
    Equal,
}

/// What joins two formulas.
#[derive(Clone, Copy)]
pub enum Connective {
    And,
    Or,
    Iff,
}

/// How a quantifier binds its variable.
#[derive(Clone, Copy)]
pub enum Quantifier {
    All,
    Any,
}

/// The term with one operand.
pub fn unary_term(op: UnaryOperator, a: Boxed<Term>) -> Term
    ensures { term result ≡ op1 (unary_of op) (term a) }
{
    match op {
        UnaryOperator::First => Term::Fst(a),
        UnaryOperator::Last => Term::Lst(a),
        UnaryOperator::Field(k) => Term::Fld(k, a),
    }
}

/// The term with two operands.
pub fn binary_term(op: BinaryOperator, a: Boxed<Term>, b: Boxed<Term>) -> Term
    ensures { term result ≡ op2 (binary_of op) (term a) (term b) }
{
    match op {
        BinaryOperator::Compute(Arithmetic::Add) => Term::Add(a, b),
        BinaryOperator::Compute(Arithmetic::Sub) => Term::Sub(a, b),
        BinaryOperator::Compute(Arithmetic::Mul) => Term::Mul(a, b),
        BinaryOperator::Compute(Arithmetic::Quo) => Term::Quo(a, b),
        BinaryOperator::Compute(Arithmetic::Rem) => Term::Rem(a, b),
        BinaryOperator::Compute(Arithmetic::Mod) => Term::Mod(a, b),
        BinaryOperator::Compute(Arithmetic::Pow) => Term::Pow(a, b),
        BinaryOperator::Select => Term::Sel(a, b),
        BinaryOperator::Update(k) => Term::Upd(k, a, b),
    }
}

/// The term with three operands.
pub fn ternary_term(op: TernaryOperator, a: Boxed<Term>, b: Boxed<Term>, c: Boxed<Term>) -> Term
    ensures { term result ≡ op3 (ternary_of op) (term a) (term b) (term c) }
{
    match op {
        TernaryOperator::Store => Term::Sto(a, b, c),
        TernaryOperator::Fill => Term::Fill(a, b, c),
    }
}

/// The term with a list of operands.
pub fn list_term(op: ListOperator, ts: TermList) -> Term
    ensures { term result ≡ opn (list_of op) (terms ts) }
{
    match op {
        ListOperator::Record => Term::Rec(ts),
        ListOperator::Call(k) => Term::Call(k, ts),
    }
}

/// The formula on two terms.
pub fn compared(op: Comparison, a: Boxed<Term>, b: Boxed<Term>) -> Formula
    ensures { formula result ≡ op2 (comparison_of op) (term a) (term b) }
{
    match op {
        Comparison::AtMost => Formula::Le(a, b),
        Comparison::Equal => Formula::Eq(a, b),
    }
}

/// The formula that joins two.
pub fn joined(op: Connective, p: Boxed<Formula>, q: Boxed<Formula>) -> Formula
    ensures { formula result ≡ op2 (connective_of op) (formula p) (formula q) }
{
    match op {
        Connective::And => Formula::And(p, q),
        Connective::Or => Formula::Or(p, q),
        Connective::Iff => Formula::Iff(p, q),
    }
}

/// The formula with a quantifier: from `first` to `last`.
pub fn quantified(
    op: Quantifier,
    first: Boxed<Term>,
    last: Boxed<Term>,
    body: Boxed<Formula>,
) -> Formula
    ensures { formula result ≡ quant (quantifier_of op) (term first) (term last) (formula body) }
{
    match op {
        Quantifier::All => Formula::All(first, last, body),
        Quantifier::Any => Formula::Any(first, last, body),
    }
}
