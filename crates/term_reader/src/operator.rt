//! What stands after a bracket.

ghost use Rattle.std.specs.Prelude.{◌≡◌, ◌<◌, ◌==◌, nat_lt, if◌then◌else◌, Some, None};
ghost use Rattle.logic_terms.specs.NodeParts.{op1_of, op2_of, op3_of};
ghost use Rattle.logic_terms.specs.Operators.{list_of};
ghost use Rattle.term_reader.specs.Trees.{one, two, many, wants, is_full, ends_in_number};
ghost use Rattle.term_reader.specs.Values.{takes1, takes2, takes3};
ghost use Rattle.term_reader.specs.Operators.{build, with_index};
ghost use Rattle.term_reader.specs.declared.part.Side.{Side};

use crate::part::Side;
use logic_terms::{
    BinaryNode, BinaryOperator, ListOperator, Quantifier, TernaryNode, UnaryNode, UnaryOperator,
};

/// What stands after a bracket.
#[derive(Clone, Copy)]
pub enum Operator {
    One(UnaryNode),
    Two(BinaryNode),
    Three(TernaryNode),
    List(ListOperator),
    Quantified(Quantifier),
    /// The sort of arrays of a sort.
    Array,
    /// The sort of records of sorts.
    Record,
}

/// One part.
fn after_one(side: Side, count: usize) -> Option<Side>
    ensures { result ≡ (if count == 0 then Some side else None) }
{
    if count == 0 { Some(side) } else { None }
}

/// Two parts.
fn after_two(side: Side, count: usize) -> Option<Side>
    ensures { result ≡ (if nat_lt count 2 then Some side else None) }
{
    if count < 2 { Some(side) } else { None }
}

/// Three parts, of which the others are terms.
fn after_three(first: Side, count: usize) -> Option<Side>
    ensures { result ≡ (if count == 0 then Some first else (if nat_lt count 3 then Some Side.Term else None)) }
{
    if count == 0 {
        Some(first)
    } else if count < 3 {
        Some(Side::Term)
    } else {
        None
    }
}

/// Two terms and a formula.
fn after_bounds(count: usize) -> Option<Side>
    ensures { result ≡ (if nat_lt count 2 then Some Side.Term else (if count == 2 then Some Side.Formula else None)) }
{
    if count < 2 {
        Some(Side::Term)
    } else if count == 2 {
        Some(Side::Formula)
    } else {
        None
    }
}

/// What the operand of an operator is.
fn operand(op: UnaryNode) -> Side
    ensures { result ≡ takes1 (op1_of op) }
{
    match op {
        UnaryNode::Bit | UnaryNode::Not => Side::Formula,
        UnaryNode::Truth | UnaryNode::Term(_) => Side::Term,
    }
}

/// What both operands of an operator are.
fn operands(op: BinaryNode) -> Side
    ensures { result ≡ takes2 (op2_of op) }
{
    match op {
        BinaryNode::Joined(_) => Side::Formula,
        BinaryNode::Compared(_) | BinaryNode::Term(_) => Side::Term,
    }
}

/// What the first of three operands is.
fn first_operand(op: TernaryNode) -> Side
    ensures { result ≡ takes3 (op3_of op) }
{
    match op {
        TernaryNode::Choice => Side::Formula,
        TernaryNode::Term(_) => Side::Term,
    }
}

/// The operator with this number, if it has one.
fn unary_with(op: UnaryNode, number: u32) -> UnaryNode
    ensures { one (op1_of result) ≡ with_index (one (op1_of op)) number }
{
    match op {
        UnaryNode::Term(UnaryOperator::Field(_)) => UnaryNode::Term(UnaryOperator::Field(number)),
        other => other,
    }
}

/// The operator with this number, if it has one.
fn binary_with(op: BinaryNode, number: u32) -> BinaryNode
    ensures { two (op2_of result) ≡ with_index (two (op2_of op)) number }
{
    match op {
        BinaryNode::Term(BinaryOperator::Update(_)) => {
            BinaryNode::Term(BinaryOperator::Update(number))
        }
        other => other,
    }
}

/// The operator with this number, if it has one.
fn list_with(op: ListOperator, number: u32) -> ListOperator
    ensures { many (list_of result) ≡ with_index (many (list_of op)) number }
{
    match op {
        ListOperator::Record => ListOperator::Record,
        ListOperator::Call(_) => ListOperator::Call(number),
    }
}

impl Operator {
    /// What the next part is after so many; none where no part may follow.
    pub fn wants(self, count: usize) -> Option<Side>
        ensures { result ≡ wants (build self) count }
    {
        match self {
            Operator::One(op) => after_one(operand(op), count),
            Operator::Two(op) => after_two(operands(op), count),
            Operator::Three(op) => after_three(first_operand(op), count),
            Operator::List(_) => Some(Side::Term),
            Operator::Quantified(_) => after_bounds(count),
            Operator::Array => after_one(Side::Sort, count),
            Operator::Record => Some(Side::Sort),
        }
    }

    /// Whether so many parts are enough.
    pub fn is_full(self, count: usize) -> bool
        ensures { result ≡ is_full (build self) count }
    {
        match self {
            Operator::One(_) | Operator::Array => count == 1,
            Operator::Two(_) => count == 2,
            Operator::Three(_) | Operator::Quantified(_) => count == 3,
            Operator::List(_) | Operator::Record => true,
        }
    }

    /// Whether a number follows.
    pub fn is_numbered(self) -> bool
        ensures { result ≡ ends_in_number (build self) }
    {
        match self {
            Operator::One(UnaryNode::Term(UnaryOperator::Field(_))) => true,
            Operator::Two(BinaryNode::Term(BinaryOperator::Update(_))) => true,
            Operator::List(ListOperator::Call(_)) => true,
            _ => false,
        }
    }

    /// The same with this number, if it has one.
    pub fn with_number(self, number: u32) -> Operator
        ensures { build result ≡ with_index (build self) number }
    {
        match self {
            Operator::One(op) => Operator::One(unary_with(op, number)),
            Operator::Two(op) => Operator::Two(binary_with(op, number)),
            Operator::List(op) => Operator::List(list_with(op, number)),
            other => other,
        }
    }
}
