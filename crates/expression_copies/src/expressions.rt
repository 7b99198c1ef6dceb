//! Copies of expressions.

ghost use Rattle.std.specs.Prelude.{◌≡◌, IfOk};
ghost use Rattle.expression_copies.specs.Forms.{one_node, three_node, two_node};
ghost use Rattle.typed_units.specs.declared.expressions.ExprNode.TheVariants as node';

use crate::Starved;
use crate::forms::{One, Three, Two, one_node, three_node, two_node};
use ada_values::Value;
use sqlite_items::{Boxed, Items};
use std::alloc::Global;
use typed_units::{
    Actual, Argument, Arm, Association, Expr, ExprNode, Fitted, Indexed, Step, Target,
};

/// A copy of an expression.
#[cycle(copy)]
pub fn copy_expression(alloc: Global, x: &Expr) -> Result<Expr, Starved>
    ensures { IfOk result (λ c. c ≡ x.now) }
{
    let node = copy_node(alloc, x.node.get())?;
    match Boxed::new(alloc, node) {
        Ok(node) => Ok(Expr {
            place: x.place,
            subtype: x.subtype,
            node,
        }),
        Err(error) => Err(error),
    }
}

/// A copy of an expression, beside that of the one before it.
#[cycle(copy)]
fn copy_beside(alloc: Global, y: &Expr, x: Expr) -> Result<(Expr, Expr), Starved>
    ensures { IfOk result (λ c. (c.0 ≡ x) × (c.1 ≡ y.now)) }
{
    match copy_expression(alloc, y) {
        Ok(y) => Ok((x, y)),
        Err(error) => {
            drop(x);
            Err(error)
        }
    }
}

#[cycle(copy)]
fn copy_indexed(alloc: Global, index: &Indexed<Expr>) -> Result<Indexed<Expr>, Starved>
    ensures { IfOk result (λ c. c ≡ index.now) }
{
    match copy_expression(alloc, &index.value) {
        Ok(value) => Ok(Indexed {
            checked: index.checked,
            value,
        }),
        Err(error) => Err(error),
    }
}

#[cycle(copy)]
fn copy_step(alloc: Global, step: &Step<Expr>) -> Result<Step<Expr>, Starved>
    ensures { IfOk result (λ c. c ≡ step.now) }
{
    match step {
        Step::Component(number, count) => Ok(Step::Component(*number, *count)),
        Step::Item(bounds, index) => Ok(Step::Item(*bounds, copy_indexed(alloc, index)?)),
    }
}

#[cycle(copy)]
fn copy_path(alloc: Global, path: &Items<Step<Expr>>) -> Result<Items<Step<Expr>>, Starved>
    ensures { IfOk result (λ c. c ≡ path.now) }
{
    let mut copy = Items::new(alloc);
    for step in path.as_slice() {
        copy.push(copy_step(alloc, step)?)?;
    }
    Ok(copy)
}

#[cycle(copy)]
fn copy_target(alloc: Global, target: &Target<Expr>) -> Result<Target<Expr>, Starved>
    ensures { IfOk result (λ c. c ≡ target.now) }
{
    match copy_path(alloc, &target.path) {
        Ok(path) => Ok(Target {
            place: target.place,
            object: target.object,
            path,
        }),
        Err(error) => Err(error),
    }
}

#[cycle(copy)]
fn copy_fitted(alloc: Global, fitted: &Fitted<Expr>) -> Result<Fitted<Expr>, Starved>
    ensures { IfOk result (λ c. c ≡ fitted.now) }
{
    match copy_expression(alloc, &fitted.value) {
        Ok(value) => Ok(Fitted {
            bounds: fitted.bounds,
            value,
        }),
        Err(error) => Err(error),
    }
}

#[cycle(copy)]
fn copy_actual(alloc: Global, actual: &Actual<Expr>) -> Result<Actual<Expr>, Starved>
    ensures { IfOk result (λ c. c ≡ actual.now) }
{
    match actual {
        Actual::In(passed) => Ok(Actual::In(copy_fitted(alloc, passed)?)),
        Actual::Out(target, back) => Ok(Actual::Out(copy_target(alloc, target)?, *back)),
        Actual::InOut(target, way, back) => {
            Ok(Actual::InOut(copy_target(alloc, target)?, *way, *back))
        }
    }
}

#[cycle(copy)]
fn copy_argument(alloc: Global, argument: &Argument<Expr>) -> Result<Argument<Expr>, Starved>
    ensures { IfOk result (λ c. c ≡ argument.now) }
{
    match copy_actual(alloc, &argument.value) {
        Ok(value) => Ok(Argument {
            formal: argument.formal,
            value,
        }),
        Err(error) => Err(error),
    }
}

#[cycle(copy)]
fn copy_arguments(
    alloc: Global,
    arguments: &Items<Argument<Expr>>,
) -> Result<Items<Argument<Expr>>, Starved>
    ensures { IfOk result (λ c. c ≡ arguments.now) }
{
    let mut copy = Items::new(alloc);
    for argument in arguments.as_slice() {
        copy.push(copy_argument(alloc, argument)?)?;
    }
    Ok(copy)
}

#[cycle(copy)]
fn copy_arm(alloc: Global, arm: &Arm<Expr>) -> Result<Arm<Expr>, Starved>
    ensures { IfOk result (λ c. c ≡ arm.now) }
{
    let condition = copy_expression(alloc, &arm.condition)?;
    match copy_beside(alloc, &arm.gives, condition) {
        Ok((condition, gives)) => Ok(Arm { condition, gives }),
        Err(error) => Err(error),
    }
}

#[cycle(copy)]
fn copy_arms(alloc: Global, arms: &Items<Arm<Expr>>) -> Result<Items<Arm<Expr>>, Starved>
    ensures { IfOk result (λ c. c ≡ arms.now) }
{
    let mut copy = Items::new(alloc);
    for arm in arms.as_slice() {
        copy.push(copy_arm(alloc, arm)?)?;
    }
    Ok(copy)
}

#[cycle(copy)]
fn copy_association(
    alloc: Global,
    association: &Association<Expr>,
) -> Result<Association<Expr>, Starved>
    ensures { IfOk result (λ c. c ≡ association.now) }
{
    let ranges = Items::from_slice(alloc, association.ranges.as_slice())?;
    let checks = Items::from_slice(alloc, association.checks.as_slice())?;
    match copy_expression(alloc, &association.value) {
        Ok(value) => Ok(Association {
            ranges,
            others: association.others,
            checks,
            value,
        }),
        Err(error) => Err(error),
    }
}

#[cycle(copy)]
fn copy_associations(
    alloc: Global,
    associations: &Items<Association<Expr>>,
) -> Result<Items<Association<Expr>>, Starved>
    ensures { IfOk result (λ c. c ≡ associations.now) }
{
    let mut copy = Items::new(alloc);
    for association in associations.as_slice() {
        copy.push(copy_association(alloc, association)?)?;
    }
    Ok(copy)
}

#[cycle(copy)]
fn copy_one(alloc: Global, x: &Expr, form: One) -> Result<ExprNode<Expr>, Starved>
    ensures { IfOk result (λ c. c ≡ one_node form x.now) }
{
    match copy_expression(alloc, x) {
        Ok(x) => Ok(one_node(form, x)),
        Err(error) => Err(error),
    }
}

/// The latter operand is copied here, the former before.
#[cycle(copy)]
fn copy_two(alloc: Global, y: &Expr, form: Two, x: Expr) -> Result<ExprNode<Expr>, Starved>
    ensures { IfOk result (λ c. c ≡ two_node form x y.now) }
{
    match copy_expression(alloc, y) {
        Ok(y) => Ok(two_node(form, x, y)),
        Err(error) => {
            drop(x);
            Err(error)
        }
    }
}

/// The last operand is copied here, the others before.
#[cycle(copy)]
fn copy_three(
    alloc: Global,
    z: &Expr,
    form: Three,
    x: Expr,
    y: Expr,
) -> Result<ExprNode<Expr>, Starved>
    ensures { IfOk result (λ c. c ≡ three_node form x y z.now) }
{
    match copy_expression(alloc, z) {
        Ok(z) => Ok(three_node(form, x, y, z)),
        Err(error) => {
            drop(x);
            drop(y);
            Err(error)
        }
    }
}

#[cycle(copy)]
fn copy_item(alloc: Global, x: &Expr, index: Indexed<Expr>) -> Result<ExprNode<Expr>, Starved>
    ensures { IfOk result (λ c. c ≡ node'.Item x.now index) }
{
    match copy_expression(alloc, x) {
        Ok(x) => Ok(ExprNode::Item(x, index)),
        Err(error) => {
            drop(index);
            Err(error)
        }
    }
}

#[cycle(copy)]
fn copy_if(
    alloc: Global,
    arms: &Items<Arm<Expr>>,
    otherwise: Expr,
) -> Result<ExprNode<Expr>, Starved>
    ensures { IfOk result (λ c. c ≡ node'.If arms.now otherwise) }
{
    match copy_arms(alloc, arms) {
        Ok(arms) => Ok(ExprNode::If(arms, otherwise)),
        Err(error) => {
            drop(otherwise);
            Err(error)
        }
    }
}

fn copy_static(alloc: Global, value: &Value) -> Result<ExprNode<Expr>, Starved>
    ensures { IfOk result (λ c. c ≡ node'.Static value.now) }
{
    match value.copy(alloc) {
        Ok(value) => Ok(ExprNode::Static(value)),
        Err(error) => Err(error),
    }
}

#[cycle(copy)]
fn copy_node(alloc: Global, node: &ExprNode<Expr>) -> Result<ExprNode<Expr>, Starved>
    ensures { IfOk result (λ c. c ≡ node.now) }
{
    match node {
        ExprNode::Static(value) => copy_static(alloc, value),
        ExprNode::Read(place, object) => Ok(ExprNode::Read(*place, *object)),
        ExprNode::Old(place, object) => Ok(ExprNode::Old(*place, *object)),
        ExprNode::LoopEntry(place, turns, object) => {
            Ok(ExprNode::LoopEntry(*place, *turns, *object))
        }
        ExprNode::Result(place) => Ok(ExprNode::Result(*place)),
        ExprNode::First(x) => copy_one(alloc, x, One::First),
        ExprNode::Last(x) => copy_one(alloc, x, One::Last),
        ExprNode::Length(place, x) => copy_one(alloc, x, One::Length(*place)),
        ExprNode::Succ(place, x) => copy_one(alloc, x, One::Succ(*place)),
        ExprNode::Pred(place, x) => copy_one(alloc, x, One::Pred(*place)),
        ExprNode::Same(x) => copy_one(alloc, x, One::Same),
        ExprNode::Not(x) => copy_one(alloc, x, One::Not),
        ExprNode::Unary(place, op, x) => copy_one(alloc, x, One::Unary(*place, *op)),
        ExprNode::Convert(bounds, x) => copy_one(alloc, x, One::Convert(*bounds)),
        ExprNode::Component(x, number) => copy_one(alloc, x, One::Component(*number)),
        ExprNode::Binary(place, op, x, y) => {
            let x = copy_expression(alloc, x)?;
            copy_two(alloc, y, Two::Binary(*place, *op), x)
        }
        ExprNode::Compare(relation, x, y) => {
            let x = copy_expression(alloc, x)?;
            copy_two(alloc, y, Two::Compare(*relation), x)
        }
        ExprNode::Connect(connective, x, y) => {
            let x = copy_expression(alloc, x)?;
            copy_two(alloc, y, Two::Connect(*connective), x)
        }
        ExprNode::Member(is, x, y, z) => {
            let x = copy_expression(alloc, x)?;
            let (x, y) = copy_beside(alloc, y, x)?;
            copy_three(alloc, z, Three::Member(*is), x, y)
        }
        ExprNode::Quantified(quantifier, index, x, y, z) => {
            let x = copy_expression(alloc, x)?;
            let (x, y) = copy_beside(alloc, y, x)?;
            copy_three(alloc, z, Three::Quantified(*quantifier, *index), x, y)
        }
        ExprNode::Item(x, index) => {
            let index = copy_indexed(alloc, index)?;
            copy_item(alloc, x, index)
        }
        ExprNode::Call(place, callee, arguments) => {
            let arguments = copy_arguments(alloc, arguments)?;
            Ok(ExprNode::Call(*place, *callee, arguments))
        }
        ExprNode::Aggregate(composite, bounds, associations) => {
            let associations = copy_associations(alloc, associations)?;
            Ok(ExprNode::Aggregate(*composite, *bounds, associations))
        }
        ExprNode::If(arms, otherwise) => {
            let otherwise = copy_expression(alloc, otherwise)?;
            copy_if(alloc, arms, otherwise)
        }
    }
}
