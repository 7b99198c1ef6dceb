//! Terms and formulas as one kind of node, for what goes through both in the same way.

ghost use Rattle.std.specs.Prelude.{◌≡◌};
ghost use Rattle.logic_terms.specs.NodeParts.{node_from, node_of};
ghost use Rattle.logic_terms.specs.View.{formula, term};

use crate::operators::{
    BinaryOperator, Comparison, Connective, ListOperator, Quantifier, TernaryOperator,
    UnaryOperator,
};
use crate::parts::{FormulaParts, TermParts, formula_parts, term_parts};
use crate::syntax::{Formula, Term, TermList};

/// A term or a formula.
#[derive(Clone, Copy)]
pub enum NodeRef<'a> {
    Term(&'a Term),
    Formula(&'a Formula),
}

/// A node without operands.
#[derive(Clone, Copy)]
pub enum Leaf {
    Number(i128),
    Constant(bool),
    Symbol(u32),
    Bound(u32),
}

/// An operator of terms and formulas with one operand.
#[derive(Clone, Copy)]
pub enum UnaryNode {
    /// A truth value as a term.
    Bit,
    /// A term of truth values as a formula.
    Truth,
    Not,
    Term(UnaryOperator),
}

/// An operator of terms and formulas with two operands.
#[derive(Clone, Copy)]
pub enum BinaryNode {
    Term(BinaryOperator),
    Compared(Comparison),
    Joined(Connective),
}

/// An operator of terms and formulas with three operands.
#[derive(Clone, Copy)]
pub enum TernaryNode {
    /// Between two terms, by a formula.
    Choice,
    Term(TernaryOperator),
}

/// A node's operator with its operands.
#[derive(Clone, Copy)]
pub enum NodeParts<'a> {
    Leaf(Leaf),
    One(UnaryNode, NodeRef<'a>),
    Two(BinaryNode, NodeRef<'a>, NodeRef<'a>),
    Three(TernaryNode, NodeRef<'a>, NodeRef<'a>, NodeRef<'a>),
    List(ListOperator, &'a TermList),
    Quantified(Quantifier, NodeRef<'a>, NodeRef<'a>, NodeRef<'a>),
}

/// The parts of a term.
fn parts_of_term(t: &Term) -> NodeParts
    ensures { node_from result ≡ term t.now }
{
    match term_parts(t) {
        TermParts::Number(n) => NodeParts::Leaf(Leaf::Number(n)),
        TermParts::Symbol(k) => NodeParts::Leaf(Leaf::Symbol(k)),
        TermParts::Bound(k) => NodeParts::Leaf(Leaf::Bound(k)),
        TermParts::Bit(p) => NodeParts::One(UnaryNode::Bit, NodeRef::Formula(p)),
        TermParts::Choice(p, a, b) => NodeParts::Three(
            TernaryNode::Choice,
            NodeRef::Formula(p),
            NodeRef::Term(a),
            NodeRef::Term(b),
        ),
        TermParts::One(op, a) => NodeParts::One(UnaryNode::Term(op), NodeRef::Term(a)),
        TermParts::Two(op, a, b) => {
            NodeParts::Two(BinaryNode::Term(op), NodeRef::Term(a), NodeRef::Term(b))
        }
        TermParts::Three(op, a, b, c) => NodeParts::Three(
            TernaryNode::Term(op),
            NodeRef::Term(a),
            NodeRef::Term(b),
            NodeRef::Term(c),
        ),
        TermParts::List(op, ts) => NodeParts::List(op, ts),
    }
}

/// The parts of a formula.
fn parts_of_formula(p: &Formula) -> NodeParts
    ensures { node_from result ≡ formula p.now }
{
    match formula_parts(p) {
        FormulaParts::Constant(b) => NodeParts::Leaf(Leaf::Constant(b)),
        FormulaParts::Truth(t) => NodeParts::One(UnaryNode::Truth, NodeRef::Term(t)),
        FormulaParts::Compared(op, a, b) => {
            NodeParts::Two(BinaryNode::Compared(op), NodeRef::Term(a), NodeRef::Term(b))
        }
        FormulaParts::Not(q) => NodeParts::One(UnaryNode::Not, NodeRef::Formula(q)),
        FormulaParts::Joined(op, q, r) => NodeParts::Two(
            BinaryNode::Joined(op),
            NodeRef::Formula(q),
            NodeRef::Formula(r),
        ),
        FormulaParts::Quantified(op, first, last, q) => NodeParts::Quantified(
            op,
            NodeRef::Term(first),
            NodeRef::Term(last),
            NodeRef::Formula(q),
        ),
    }
}

/// The parts of a node.
pub fn node_parts(n: NodeRef) -> NodeParts
    ensures { node_from result ≡ node_of n.entry }
{
    match n {
        NodeRef::Term(t) => parts_of_term(t),
        NodeRef::Formula(p) => parts_of_formula(p),
    }
}
