//! Operators with their operands.

ghost use Rattle.std.specs.Prelude.{◌≡◌, IfOk};
ghost use Rattle.type_base.specs.Operators.{joined, matched, operands, unary_of, with_operator};

use crate::families::{demand_of, rule_of};
use crate::powers::powers;
use crate::results::{arithmetic, changed, comparison, connection, kept, opposite};
use ada_syntax::UnaryOperator;
use ada_values::{Op, Place};
use std::alloc::Global;
use type_base::{Agreed, Code, Demand, Family, Seen, Starved, Want, World, agree, operand};

/// The places of an expression with two operands: its first token, its operator, and its operands.
#[derive(Clone, Copy)]
pub struct Places {
    pub whole: Place,
    pub operator: Place,
    pub left: Place,
    pub right: Place,
}

/// Two operands that are each as the family's rule demands, and agree.
fn operands(
    alloc: Global,
    world: &World,
    family: Family,
    left_place: Place,
    right_place: Place,
    left: Seen,
    right: Seen,
) -> Result<Agreed, Starved>
    ensures { IfOk result (λ a. a ≡ operands world.now family left_place right_place left right) }
{
    let demand = demand_of(family);
    let rule = rule_of(family);
    let left = operand(world, demand, rule, left_place, left);
    let right = operand(world, demand, rule, right_place, right);
    agree(alloc, world, rule, left_place, right_place, left, right)
}

fn with_operator(
    alloc: Global,
    world: &World,
    places: Places,
    family: Family,
    operands: Agreed,
) -> Result<Seen, Starved>
    ensures { IfOk result (λ s. s ≡ with_operator world.now places.whole places.operator places.right family operands) }
{
    match family {
        Family::Arithmetic(op) => arithmetic(
            alloc,
            world,
            places.whole,
            places.operator,
            places.right,
            op,
            operands,
        ),
        Family::Compare(relation) => comparison(
            alloc,
            world,
            places.whole,
            places.right,
            relation,
            operands,
        ),
        Family::Connect(connective) => connection(alloc, places.whole, connective, operands),
        Family::Power => arithmetic(
            alloc,
            world,
            places.whole,
            places.operator,
            places.right,
            Op::Pow,
            operands,
        ),
    }
}

fn matched(
    alloc: Global,
    world: &World,
    want: Want,
    places: Places,
    family: Family,
    left: Seen,
    right: Seen,
) -> Result<Agreed, Starved>
    ensures { IfOk result (λ a. a ≡ matched world.now want places.left places.right family left right) }
{
    match family {
        Family::Power => powers(alloc, world, want, places.left, places.right, left, right),
        _ => operands(alloc, world, family, places.left, places.right, left, right),
    }
}

/// What two operands give with their operator in a context. It is `Refused` by L1, L2, L4, L5 or L6 where an operand isn't
/// as demanded or they don't agree, by L29 and `TooWide` as a static result, and as its operands; of several refusals by the
/// first.
pub fn joined(
    alloc: Global,
    world: &World,
    want: Want,
    places: Places,
    family: Family,
    left: Seen,
    right: Seen,
) -> Result<Seen, Starved>
    ensures { IfOk result (λ s. s ≡ joined world.now want places.whole places.operator places.left places.right family left right) }
{
    match matched(alloc, world, want, places, family, left, right) {
        Ok(operands) => with_operator(alloc, world, places, family, operands),
        Err(error) => Err(error),
    }
}

/// What an operand gives with its operator. It is `Refused` by L3 or L4 where the operand isn't as demanded, by L29 and
/// `TooWide` as a static result, and as its operand.
pub fn unary_of(
    alloc: Global,
    world: &World,
    place: Place,
    operand_place: Place,
    operator: UnaryOperator,
    inner: Seen,
) -> Result<Seen, Starved>
    ensures { IfOk result (λ s. s ≡ unary_of world.now place operand_place operator inner) }
{
    match operator {
        UnaryOperator::Plus => {
            let inner = operand(world, Demand::Integer, Code::L3, operand_place, inner);
            kept(alloc, place, inner)
        }
        UnaryOperator::Minus => {
            let inner = operand(world, Demand::Integer, Code::L3, operand_place, inner);
            changed(alloc, world, place, Op::Neg, inner)
        }
        UnaryOperator::Abs => {
            let inner = operand(world, Demand::Integer, Code::L3, operand_place, inner);
            changed(alloc, world, place, Op::Abs, inner)
        }
        UnaryOperator::Not => {
            let inner = operand(world, Demand::Truth, Code::L4, operand_place, inner);
            opposite(alloc, place, inner)
        }
    }
}
