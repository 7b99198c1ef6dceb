//! What operations give.

ghost use Rattle.std.specs.Prelude.{◌≡◌, IfOk};
ghost use Rattle.type_base.specs.Results.{arithmetic, arithmetic_of, changed, changed_of, comparison, comparison_of, connection, connection_of, kept, kept_of, moved, number_in, opposite, opposite_of, truth_in};

use crate::statics::{
    connected, holds, number_in, static_result, static_truth, truth_at, truth_in, universal_result,
};
use ada_values::{Op, Place, Value};
use std::alloc::Global;
use type_base::{Agreed, Code, Seen, Starved, World, refused, typed};
use typed_units::{Connective, Expr, ExprNode, Relation};

/// Operands of a type with their arithmetic operator, which stands at `at`.
fn arithmetic_of(
    alloc: Global,
    world: &World,
    place: Place,
    at: Place,
    right: Place,
    op: Op,
    ty: u32,
    x: Expr,
    y: Expr,
) -> Result<Seen, Starved>
    ensures { IfOk result (λ s. s ≡ arithmetic_of world.now place at right op ty x y (number_in x) (number_in y)) }
{
    match number_in(&x) {
        Some(a) => match number_in(&y) {
            Some(b) => static_result(alloc, world, place, right, ty, op, a, b),
            None => typed(alloc, place, ty, ExprNode::Binary(at, op, x, y)),
        },
        None => typed(alloc, place, ty, ExprNode::Binary(at, op, x, y)),
    }
}

/// Operands with their arithmetic operator, which stands at `at`; the right one stands at `right`.
pub fn arithmetic(
    alloc: Global,
    world: &World,
    place: Place,
    at: Place,
    right: Place,
    op: Op,
    operands: Agreed,
) -> Result<Seen, Starved>
    ensures { IfOk result (λ s. s ≡ arithmetic world.now place at right op operands) }
{
    match operands {
        Agreed::Refused(refusal) => Ok(Seen::Refused(refusal)),
        Agreed::Unknown => Ok(Seen::Unknown),
        Agreed::Numbers(a, b) => Ok(universal_result(place, right, op, a, b)),
        Agreed::Typed(ty, x, y) => arithmetic_of(alloc, world, place, at, right, op, ty, x, y),
    }
}

fn comparison_of(
    alloc: Global,
    place: Place,
    relation: Relation,
    x: Expr,
    y: Expr,
) -> Result<Seen, Starved>
    ensures { IfOk result (λ s. s ≡ comparison_of place relation x y (number_in x) (number_in y)) }
{
    match number_in(&x) {
        Some(a) => match number_in(&y) {
            Some(b) => static_truth(alloc, place, holds(relation, a, b)),
            None => truth_at(alloc, place, ExprNode::Compare(relation, x, y)),
        },
        None => truth_at(alloc, place, ExprNode::Compare(relation, x, y)),
    }
}

/// Operands with their relation; the right one stands at `right`, where L5 is broken if they are arrays of two subtypes.
pub fn comparison(
    alloc: Global,
    world: &World,
    place: Place,
    right: Place,
    relation: Relation,
    operands: Agreed,
) -> Result<Seen, Starved>
    ensures { IfOk result (λ s. s ≡ comparison world.now place right relation operands) }
{
    match operands {
        Agreed::Refused(refusal) => Ok(Seen::Refused(refusal)),
        Agreed::Unknown => Ok(Seen::Unknown),
        Agreed::Numbers(a, b) => static_truth(alloc, place, holds(relation, a, b)),
        Agreed::Typed(_, x, y) => {
            if world.is_one(x.subtype, y.subtype) {
                comparison_of(alloc, place, relation, x, y)
            } else {
                Ok(refused(Code::L5, right))
            }
        }
    }
}

fn connection_of(
    alloc: Global,
    place: Place,
    connective: Connective,
    x: Expr,
    y: Expr,
) -> Result<Seen, Starved>
    ensures { IfOk result (λ s. s ≡ connection_of place connective x y (truth_in x) (truth_in y)) }
{
    match truth_in(&x) {
        Some(a) => match truth_in(&y) {
            Some(b) => static_truth(alloc, place, connected(connective, a, b)),
            None => truth_at(alloc, place, ExprNode::Connect(connective, x, y)),
        },
        None => truth_at(alloc, place, ExprNode::Connect(connective, x, y)),
    }
}

/// Operands with their connective.
pub fn connection(
    alloc: Global,
    place: Place,
    connective: Connective,
    operands: Agreed,
) -> Result<Seen, Starved>
    ensures { IfOk result (λ s. s ≡ connection place connective operands) }
{
    match operands {
        Agreed::Refused(refusal) => Ok(Seen::Refused(refusal)),
        Agreed::Unknown => Ok(Seen::Unknown),
        Agreed::Numbers(_, _) => Ok(refused(Code::L4, place)),
        Agreed::Typed(_, x, y) => connection_of(alloc, place, connective, x, y),
    }
}

/// An expression in parentheses, which stands where they begin.
pub fn moved(place: Place, inner: Seen) -> Seen
    ensures { result ≡ moved place inner }
{
    match inner {
        Seen::Refused(refusal) => Seen::Refused(refusal),
        Seen::Unknown => Seen::Unknown,
        Seen::Number(number) => Seen::Number(number),
        Seen::Typed(ty, x) => {
            let Expr {
                place: _,
                subtype,
                node,
            } = x;
            Seen::Typed(
                ty,
                Expr {
                    place,
                    subtype,
                    node,
                },
            )
        }
    }
}

fn kept_of(alloc: Global, place: Place, ty: u32, x: Expr) -> Result<Seen, Starved>
    ensures { IfOk result (λ s. s ≡ kept_of place ty x (number_in x)) }
{
    match number_in(&x) {
        Some(a) => typed(alloc, place, ty, ExprNode::Static(Value::Int(a))),
        None => typed(alloc, place, ty, ExprNode::Same(x)),
    }
}

/// An operand with unary `+`.
pub fn kept(alloc: Global, place: Place, inner: Seen) -> Result<Seen, Starved>
    ensures { IfOk result (λ s. s ≡ kept place inner) }
{
    match inner {
        Seen::Refused(refusal) => Ok(Seen::Refused(refusal)),
        Seen::Unknown => Ok(Seen::Unknown),
        Seen::Number(number) => Ok(Seen::Number(number)),
        Seen::Typed(ty, x) => kept_of(alloc, place, ty, x),
    }
}

fn changed_of(
    alloc: Global,
    world: &World,
    place: Place,
    op: Op,
    ty: u32,
    x: Expr,
) -> Result<Seen, Starved>
    ensures { IfOk result (λ s. s ≡ changed_of world.now place op ty x (number_in x)) }
{
    match number_in(&x) {
        Some(a) => static_result(alloc, world, place, place, ty, op, a, 0),
        None => typed(alloc, place, ty, ExprNode::Unary(place, op, x)),
    }
}

/// An operand with unary `-` or `abs`.
pub fn changed(
    alloc: Global,
    world: &World,
    place: Place,
    op: Op,
    inner: Seen,
) -> Result<Seen, Starved>
    ensures { IfOk result (λ s. s ≡ changed world.now place op inner) }
{
    match inner {
        Seen::Refused(refusal) => Ok(Seen::Refused(refusal)),
        Seen::Unknown => Ok(Seen::Unknown),
        Seen::Number(number) => Ok(universal_result(place, place, op, number, 0)),
        Seen::Typed(ty, x) => changed_of(alloc, world, place, op, ty, x),
    }
}

fn opposite_of(alloc: Global, place: Place, x: Expr) -> Result<Seen, Starved>
    ensures { IfOk result (λ s. s ≡ opposite_of place x (truth_in x)) }
{
    match truth_in(&x) {
        Some(truth) => static_truth(alloc, place, !truth),
        None => truth_at(alloc, place, ExprNode::Not(x)),
    }
}

/// An operand with `not`.
pub fn opposite(alloc: Global, place: Place, inner: Seen) -> Result<Seen, Starved>
    ensures { IfOk result (λ s. s ≡ opposite place inner) }
{
    match inner {
        Seen::Refused(refusal) => Ok(Seen::Refused(refusal)),
        Seen::Unknown => Ok(Seen::Unknown),
        Seen::Number(_) => Ok(refused(Code::L4, place)),
        Seen::Typed(_, x) => opposite_of(alloc, place, x),
    }
}
