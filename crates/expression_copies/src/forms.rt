//! The forms of expressions by how many operands they have.

ghost use Rattle.std.specs.Prelude.{◌≡◌};
ghost use Rattle.expression_copies.specs.Forms.{one_node, three_node, two_node};

use ada_values::{Op, Place};
use typed_units::{Bounds, Connective, Counted, Expr, ExprNode, Quantifier, Relation};

/// A form of one operand.
#[derive(Clone, Copy)]
pub(crate) enum One {
    First,
    Last,
    Length(Place),
    Succ(Place),
    Pred(Place),
    Same,
    Not,
    Unary(Place, Op),
    Convert(Option<Bounds>),
    Component(u32),
}

/// A form of two operands.
#[derive(Clone, Copy)]
pub(crate) enum Two {
    Binary(Place, Op),
    Compare(Relation),
    Connect(Connective),
}

/// A form of three operands.
#[derive(Clone, Copy)]
pub(crate) enum Three {
    Member(bool),
    Quantified(Quantifier, Counted),
}

/// The node of a form with its operand.
pub(crate) fn one_node(form: One, x: Expr) -> ExprNode<Expr>
    ensures { result ≡ one_node form x }
{
    match form {
        One::First => ExprNode::First(x),
        One::Last => ExprNode::Last(x),
        One::Length(place) => ExprNode::Length(place, x),
        One::Succ(place) => ExprNode::Succ(place, x),
        One::Pred(place) => ExprNode::Pred(place, x),
        One::Same => ExprNode::Same(x),
        One::Not => ExprNode::Not(x),
        One::Unary(place, op) => ExprNode::Unary(place, op, x),
        One::Convert(bounds) => ExprNode::Convert(bounds, x),
        One::Component(number) => ExprNode::Component(x, number),
    }
}

/// The node of a form with its operands.
pub(crate) fn two_node(form: Two, x: Expr, y: Expr) -> ExprNode<Expr>
    ensures { result ≡ two_node form x y }
{
    match form {
        Two::Binary(place, op) => ExprNode::Binary(place, op, x, y),
        Two::Compare(relation) => ExprNode::Compare(relation, x, y),
        Two::Connect(connective) => ExprNode::Connect(connective, x, y),
    }
}

/// The node of a form with its operands.
pub(crate) fn three_node(form: Three, x: Expr, y: Expr, z: Expr) -> ExprNode<Expr>
    ensures { result ≡ three_node form x y z }
{
    match form {
        Three::Member(is) => ExprNode::Member(is, x, y, z),
        Three::Quantified(quantifier, index) => ExprNode::Quantified(quantifier, index, x, y, z),
    }
}
