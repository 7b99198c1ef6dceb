//! The nodes of an expression, and of what is passed in a call.

ghost use Rattle.std.specs.Prelude.{◌≡◌, map, OnOk};
ghost use Rattle.typed_units.specs.View.{actuals_of, expr, path_of};
ghost use Rattle.unit_nodes.specs.Nodes.{actuals_onto, assocs_onto, onto, path_onto};
ghost use Rattle.unit_nodes.specs.View.{assocs_seen, each_arm_onto, node_of};

use crate::Starved;
use crate::node::{Asked, NodeList, NodeRef, push_node};
use ada_values::ShapeList;
use sqlite_items::Items;
use typed_units::{Actual, Argument, Arm, Association, Expr, ExprNode, Step};

/// Adds the nodes of the way to a part of an object.
#[cycle(expressions)]
pub(crate) fn push_path<'a>(
    found: &mut NodeList<'a>,
    shapes: &ShapeList,
    path: &'a Items<Step<Expr>>,
) -> Result<(), Starved>
    ensures { OnOk result (map (node_of shapes.now) found.new ≡ path_onto (map (node_of shapes.now) found.old) (path_of (expr shapes.now) path.now)) }
{
    for step in path.as_slice() {
        if let Step::Item(_, index) = step {
            push_node(found, shapes, NodeRef::Index(index))?;
            push_expression(found, shapes, Asked::Whole, &index.value)?;
        }
    }
    Ok(())
}

/// Adds the nodes of what is passed in a call of the subprogram of a number.
#[cycle(expressions)]
pub(crate) fn push_actuals<'a>(
    found: &mut NodeList<'a>,
    shapes: &ShapeList,
    callee: u32,
    arguments: &'a Items<Argument<Expr>>,
) -> Result<(), Starved>
    ensures { OnOk result (map (node_of shapes.now) found.new ≡ actuals_onto callee (map (node_of shapes.now) found.old) (actuals_of (expr shapes.now) arguments.now)) }
{
    for argument in arguments.as_slice() {
        push_node(found, shapes, NodeRef::Passed(callee, argument))?;
        match &argument.value {
            Actual::In(passed) => push_expression(found, shapes, Asked::Whole, &passed.value)?,
            Actual::Out(target, _) | Actual::InOut(target, _, _) => {
                push_path(found, shapes, &target.path)?
            }
        }
    }
    Ok(())
}

#[cycle(expressions)]
fn push_associations<'a>(
    found: &mut NodeList<'a>,
    shapes: &ShapeList,
    associations: &'a Items<Association<Expr>>,
) -> Result<(), Starved>
    ensures { OnOk result (map (node_of shapes.now) found.new ≡ assocs_onto (map (node_of shapes.now) found.old) (assocs_seen shapes.now associations.now)) }
{
    for association in associations.as_slice() {
        push_node(found, shapes, NodeRef::Association(association))?;
        push_expression(found, shapes, Asked::Whole, &association.value)?;
    }
    Ok(())
}

#[cycle(expressions)]
fn push_arms<'a>(
    found: &mut NodeList<'a>,
    shapes: &ShapeList,
    arms: &'a Items<Arm<Expr>>,
) -> Result<(), Starved>
    ensures { OnOk result (map (node_of shapes.now) found.new ≡ each_arm_onto shapes.now (map (node_of shapes.now) found.old) arms.now) }
{
    for arm in arms.as_slice() {
        push_expression(found, shapes, Asked::Whole, &arm.condition)?;
        push_expression(found, shapes, Asked::Whole, &arm.gives)?;
    }
    Ok(())
}

/// Adds the nodes of an expression in the order of evaluation, each before its parts. `shapes` are those of its program.
#[tactic(auto, using(crate::proofs::Views::call_nodes, crate::proofs::Views::aggregate_nodes, crate::proofs::Views::if_nodes))]
#[cycle(expressions)]
pub fn push_expression<'a>(
    found: &mut NodeList<'a>,
    shapes: &ShapeList,
    asked: Asked,
    e: &'a Expr,
) -> Result<(), Starved>
    ensures { OnOk result (map (node_of shapes.now) found.new ≡ onto asked (map (node_of shapes.now) found.old) (expr shapes.now e.now)) }
{
    push_node(found, shapes, NodeRef::Expression(asked, e))?;
    match e.node.get() {
        ExprNode::Static(_)
        | ExprNode::Read(_, _)
        | ExprNode::Old(_, _)
        | ExprNode::LoopEntry(_, _, _)
        | ExprNode::Result(_) => Ok(()),
        ExprNode::First(a) | ExprNode::Last(a) | ExprNode::Length(_, a) => {
            push_expression(found, shapes, Asked::Bounds, a)
        }
        ExprNode::Component(a, _) => push_expression(found, shapes, Asked::Component, a),
        ExprNode::Succ(_, a)
        | ExprNode::Pred(_, a)
        | ExprNode::Same(a)
        | ExprNode::Not(a)
        | ExprNode::Unary(_, _, a)
        | ExprNode::Convert(_, a) => push_expression(found, shapes, Asked::Whole, a),
        ExprNode::Binary(_, _, a, b) | ExprNode::Compare(_, a, b) | ExprNode::Connect(_, a, b) => {
            push_expression(found, shapes, Asked::Whole, a)?;
            push_expression(found, shapes, Asked::Whole, b)
        }
        ExprNode::Item(a, index) => {
            push_expression(found, shapes, Asked::Whole, a)?;
            push_expression(found, shapes, Asked::Whole, &index.value)
        }
        ExprNode::Member(_, a, b, c) | ExprNode::Quantified(_, _, a, b, c) => {
            push_expression(found, shapes, Asked::Whole, a)?;
            push_expression(found, shapes, Asked::Whole, b)?;
            push_expression(found, shapes, Asked::Whole, c)
        }
        ExprNode::Call(_, callee, arguments) => push_actuals(found, shapes, *callee, arguments),
        ExprNode::Aggregate(_, _, associations) => push_associations(found, shapes, associations),
        ExprNode::If(arms, otherwise) => {
            push_arms(found, shapes, arms)?;
            push_expression(found, shapes, Asked::Whole, otherwise)
        }
    }
}
