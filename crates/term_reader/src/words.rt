//! The words after a bracket.

ghost use Rattle.std.specs.Prelude.{◌≡◌, ◌<◌, ◌≤◌, ◌++◌, length, drop, map, slice_index_or, IfOk, IfErr};
ghost use Rattle.term_reader.specs.Trees.{gives, an_array};
ghost use Rattle.term_reader.specs.Words.{builds, word, words, IsNoWord};
ghost use Rattle.term_reader.specs.Operators.{build};

use crate::operator::Operator;
use crate::part::Side;
use crate::table::word_among;
use logic_terms::{
    Arithmetic, BinaryNode, BinaryOperator, Comparison, Connective, ListOperator, Quantifier,
    TernaryNode, TernaryOperator, UnaryNode, UnaryOperator,
};

/// A word, and what it stands for.
type Row = (&'static [u8], Operator);

/// The words of terms.
static TERM_WORDS: [Row; 18] = [
    (
        b"+",
        Operator::Two(BinaryNode::Term(BinaryOperator::Compute(Arithmetic::Add))),
    ),
    (
        b"-",
        Operator::Two(BinaryNode::Term(BinaryOperator::Compute(Arithmetic::Sub))),
    ),
    (
        b"*",
        Operator::Two(BinaryNode::Term(BinaryOperator::Compute(Arithmetic::Mul))),
    ),
    (
        b"quo",
        Operator::Two(BinaryNode::Term(BinaryOperator::Compute(Arithmetic::Quo))),
    ),
    (
        b"rem",
        Operator::Two(BinaryNode::Term(BinaryOperator::Compute(Arithmetic::Rem))),
    ),
    (
        b"mod",
        Operator::Two(BinaryNode::Term(BinaryOperator::Compute(Arithmetic::Mod))),
    ),
    (
        b"pow",
        Operator::Two(BinaryNode::Term(BinaryOperator::Compute(Arithmetic::Pow))),
    ),
    (b"bit", Operator::One(UnaryNode::Bit)),
    (b"ite", Operator::Three(TernaryNode::Choice)),
    (
        b"sel",
        Operator::Two(BinaryNode::Term(BinaryOperator::Select)),
    ),
    (
        b"sto",
        Operator::Three(TernaryNode::Term(TernaryOperator::Store)),
    ),
    (b"fst", Operator::One(UnaryNode::Term(UnaryOperator::First))),
    (b"lst", Operator::One(UnaryNode::Term(UnaryOperator::Last))),
    (
        b"fill",
        Operator::Three(TernaryNode::Term(TernaryOperator::Fill)),
    ),
    (b"rec", Operator::List(ListOperator::Record)),
    (
        b"fld ",
        Operator::One(UnaryNode::Term(UnaryOperator::Field(0))),
    ),
    (
        b"upd ",
        Operator::Two(BinaryNode::Term(BinaryOperator::Update(0))),
    ),
    (b"call ", Operator::List(ListOperator::Call(0))),
];

/// The words of formulas.
static FORMULA_WORDS: [Row; 9] = [
    (b"tru", Operator::One(UnaryNode::Truth)),
    (
        b"<=",
        Operator::Two(BinaryNode::Compared(Comparison::AtMost)),
    ),
    (b"=", Operator::Two(BinaryNode::Compared(Comparison::Equal))),
    (b"not", Operator::One(UnaryNode::Not)),
    (b"and", Operator::Two(BinaryNode::Joined(Connective::And))),
    (b"or", Operator::Two(BinaryNode::Joined(Connective::Or))),
    (b"iff", Operator::Two(BinaryNode::Joined(Connective::Iff))),
    (b"all", Operator::Quantified(Quantifier::All)),
    (b"any", Operator::Quantified(Quantifier::Any)),
];

/// The words of sorts.
static SORT_WORDS: [Row; 2] = [(b"A", Operator::Array), (b"R", Operator::Record)];

/// The words of a side.
fn words_of(side: Side) -> &'static [Row]
    ensures words { map (λ w. w.0.now) result.now ≡ words side }
    ensures builds { map (λ w. build w.1) result.now ≡ builds side 0 }
{
    match side {
        Side::Term => &TERM_WORDS,
        Side::Formula => &FORMULA_WORDS,
        Side::Sort => &SORT_WORDS,
    }
}

/// What the word at a place of a table stands for.
fn operator_at(table: &[Row], place: usize) -> Operator
    requires { place < length table.now }
    ensures { build result ≡ slice_index_or (map (λ w. build w.1) table.now) place an_array }
{
    table[place].1
}

/// What a word stands for, and the place after it.
#[derive(Clone, Copy)]
pub struct Chosen {
    pub operator: Operator,
    pub to: usize,
}

/// The word at a place. The error is the first byte after which none of the words goes on so.
pub fn choose(bytes: &[u8], at: usize, side: Side) -> Result<Chosen, usize>
    requires { at ≤ length bytes.now }
    ensures before { IfOk result (λ c. at < c.to) }
    ensures inside { IfOk result (λ c. c.to ≤ length bytes.now) }
    ensures text { IfOk result (λ c. drop at bytes.now ≡ word (build c.operator) ++ drop c.to bytes.now) }
    ensures side { IfOk result (λ c. gives (build c.operator) ≡ side) }
    ensures place { IfErr result (λ to. to ≤ length bytes.now) }
    ensures fault { IfErr result (λ to. IsNoWord (words side) (drop at bytes.now) (drop to bytes.now)) }
{
    let table = words_of(side);
    match word_among(table, bytes, at) {
        Err(to) => Err(to),
        Ok(found) => Ok(Chosen {
            operator: operator_at(table, found.place),
            to: found.to,
        }),
    }
}
