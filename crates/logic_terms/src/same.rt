//! Whether two terms or formulas are the same node.

ghost use Rattle.std.specs.Prelude.{◌≡◌};
ghost use Rattle.logic_terms.specs.NodeParts.{leaf_of, node_of, op1_of, op2_of, op3_of};
ghost use Rattle.logic_terms.specs.Operators.{arith_of, binary_of, comparison_of, connective_of, list_of, quantifier_of, ternary_of, unary_of};
ghost use Rattle.logic_terms.specs.Same.{arith_number, same_node as are_same, same_nodes, same_op1, same_op2, same_op3, same_opn, same_quant};
ghost use Rattle.logic_terms.specs.View.{formula, term, terms};

use crate::node::{BinaryNode, Leaf, NodeParts, NodeRef, TernaryNode, UnaryNode, node_parts};
use crate::operators::{
    Arithmetic, BinaryOperator, Comparison, Connective, ListOperator, Quantifier, TernaryOperator,
    UnaryOperator,
};
use crate::syntax::{Formula, Term, TermList};

/// The number of an operation; each has its own.
fn arithmetic_number(op: Arithmetic) -> u32
    ensures { result ≡ arith_number (arith_of op) }
{
    match op {
        Arithmetic::Add => 0,
        Arithmetic::Sub => 1,
        Arithmetic::Mul => 2,
        Arithmetic::Quo => 3,
        Arithmetic::Rem => 4,
        Arithmetic::Mod => 5,
        Arithmetic::Pow => 6,
    }
}

fn same_unary(x: UnaryOperator, y: UnaryOperator) -> bool
    ensures { result ≡ same_op1 (unary_of x) (unary_of y) }
{
    match (x, y) {
        (UnaryOperator::First, UnaryOperator::First) => true,
        (UnaryOperator::Last, UnaryOperator::Last) => true,
        (UnaryOperator::Field(j), UnaryOperator::Field(k)) => j == k,
        _ => false,
    }
}

fn same_binary(x: BinaryOperator, y: BinaryOperator) -> bool
    ensures { result ≡ same_op2 (binary_of x) (binary_of y) }
{
    match (x, y) {
        (BinaryOperator::Compute(o), BinaryOperator::Compute(p)) => {
            arithmetic_number(o) == arithmetic_number(p)
        }
        (BinaryOperator::Select, BinaryOperator::Select) => true,
        (BinaryOperator::Update(j), BinaryOperator::Update(k)) => j == k,
        _ => false,
    }
}

fn same_ternary(x: TernaryOperator, y: TernaryOperator) -> bool
    ensures { result ≡ same_op3 (ternary_of x) (ternary_of y) }
{
    match (x, y) {
        (TernaryOperator::Store, TernaryOperator::Store) => true,
        (TernaryOperator::Fill, TernaryOperator::Fill) => true,
        _ => false,
    }
}

fn same_list(x: ListOperator, y: ListOperator) -> bool
    ensures { result ≡ same_opn (list_of x) (list_of y) }
{
    match (x, y) {
        (ListOperator::Record, ListOperator::Record) => true,
        (ListOperator::Call(j), ListOperator::Call(k)) => j == k,
        _ => false,
    }
}

fn same_comparison(x: Comparison, y: Comparison) -> bool
    ensures { result ≡ same_op2 (comparison_of x) (comparison_of y) }
{
    match (x, y) {
        (Comparison::AtMost, Comparison::AtMost) => true,
        (Comparison::Equal, Comparison::Equal) => true,
        _ => false,
    }
}

fn same_connective(x: Connective, y: Connective) -> bool
    ensures { result ≡ same_op2 (connective_of x) (connective_of y) }
{
    match (x, y) {
        (Connective::And, Connective::And) => true,
        (Connective::Or, Connective::Or) => true,
        (Connective::Iff, Connective::Iff) => true,
        _ => false,
    }
}

fn same_quantifier(x: Quantifier, y: Quantifier) -> bool
    ensures { result ≡ same_quant (quantifier_of x) (quantifier_of y) }
{
    match (x, y) {
        (Quantifier::All, Quantifier::All) => true,
        (Quantifier::Any, Quantifier::Any) => true,
        _ => false,
    }
}

fn same_leaf(x: Leaf, y: Leaf) -> bool
    ensures { result ≡ are_same (leaf_of x) (leaf_of y) }
{
    match (x, y) {
        (Leaf::Number(m), Leaf::Number(n)) => m == n,
        (Leaf::Constant(p), Leaf::Constant(q)) => p == q,
        (Leaf::Symbol(j), Leaf::Symbol(k)) => j == k,
        (Leaf::Bound(j), Leaf::Bound(k)) => j == k,
        _ => false,
    }
}

fn same_unary_node(x: UnaryNode, y: UnaryNode) -> bool
    ensures { result ≡ same_op1 (op1_of x) (op1_of y) }
{
    match (x, y) {
        (UnaryNode::Bit, UnaryNode::Bit) => true,
        (UnaryNode::Truth, UnaryNode::Truth) => true,
        (UnaryNode::Not, UnaryNode::Not) => true,
        (UnaryNode::Term(o), UnaryNode::Term(q)) => same_unary(o, q),
        _ => false,
    }
}

fn same_binary_node(x: BinaryNode, y: BinaryNode) -> bool
    ensures { result ≡ same_op2 (op2_of x) (op2_of y) }
{
    match (x, y) {
        (BinaryNode::Term(o), BinaryNode::Term(q)) => same_binary(o, q),
        (BinaryNode::Compared(o), BinaryNode::Compared(q)) => same_comparison(o, q),
        (BinaryNode::Joined(o), BinaryNode::Joined(q)) => same_connective(o, q),
        _ => false,
    }
}

fn same_ternary_node(x: TernaryNode, y: TernaryNode) -> bool
    ensures { result ≡ same_op3 (op3_of x) (op3_of y) }
{
    match (x, y) {
        (TernaryNode::Choice, TernaryNode::Choice) => true,
        (TernaryNode::Term(o), TernaryNode::Term(q)) => same_ternary(o, q),
        _ => false,
    }
}

#[cycle(same)]
fn same_terms(a: &TermList, b: &TermList) -> bool
    ensures { result ≡ same_nodes (terms a.now) (terms b.now) }
{
    if a.len() != b.len() {
        return false;
    }
    for i in 0..a.len() {
        if !same_node(
            NodeRef::Term(&a.as_slice()[i]),
            NodeRef::Term(&b.as_slice()[i]),
        ) {
            return false;
        }
    }
    true
}

#[cycle(same)]
fn same_node(a: NodeRef, b: NodeRef) -> bool
    ensures { result ≡ are_same (node_of a.entry) (node_of b.entry) }
{
    match (node_parts(a), node_parts(b)) {
        (NodeParts::Leaf(x), NodeParts::Leaf(y)) => same_leaf(x, y),
        (NodeParts::One(o, x), NodeParts::One(q, u)) => same_unary_node(o, q) && same_node(x, u),
        (NodeParts::Two(o, x, y), NodeParts::Two(q, u, v)) => {
            same_binary_node(o, q) && same_node(x, u) && same_node(y, v)
        }
        (NodeParts::Three(o, x, y, z), NodeParts::Three(q, u, v, w)) => {
            same_ternary_node(o, q) && same_node(x, u) && same_node(y, v) && same_node(z, w)
        }
        (NodeParts::List(o, xs), NodeParts::List(q, us)) => {
            same_list(o, q) && same_terms(xs, us)
        }
        (NodeParts::Quantified(o, x, y, z), NodeParts::Quantified(q, u, v, w)) => {
            same_quantifier(o, q) && same_node(x, u) && same_node(y, v) && same_node(z, w)
        }
        _ => false,
    }
}

/// Whether two terms are the same.
pub fn same_term(a: &Term, b: &Term) -> bool
    ensures { result ≡ are_same (term a.now) (term b.now) }
{
    same_node(NodeRef::Term(a), NodeRef::Term(b))
}

/// Whether two formulas are the same.
pub fn same_formula(a: &Formula, b: &Formula) -> bool
    ensures { result ≡ are_same (formula a.now) (formula b.now) }
{
    same_node(NodeRef::Formula(a), NodeRef::Formula(b))
}
