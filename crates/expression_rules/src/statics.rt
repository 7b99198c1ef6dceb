//! Static values (Ada RM 4.9).

ghost use Rattle.std.specs.Prelude.{◌≡◌, IfOk};
ghost use Rattle.ada_values.specs.Combine.{combined};
ghost use Rattle.type_base.specs.Lookups.{form_at};
ghost use Rattle.type_base.specs.Results.{bit, computed, connected, holds, number_in, settled, static_result, static_truth, truth_at, truth_in, typed_result, universal, universal_result};

use ada_values::{Op, OpFault, Place, Scalar, Value, combine};
use std::alloc::Global;
use type_base::{BOOLEAN, Code, Seen, Starved, World, refused, typed};
use typed_units::{Connective, Expr, ExprNode, Relation};

/// The universal numbers, as far as they have 128 bits.
const UNIVERSAL: Scalar = Scalar {
    lo: i128::MIN,
    hi: i128::MAX,
    base_lo: i128::MIN,
    base_hi: i128::MAX,
    modulus: None,
};

/// The number that a static expression is, or its position.
pub fn number_in(x: &Expr) -> Option<i128>
    ensures { result ≡ number_in x.now }
{
    match x.node.get() {
        ExprNode::Static(Value::Int(number)) => Some(*number),
        ExprNode::Static(Value::Bool(truth)) => Some(if *truth { 1 } else { 0 }),
        _ => None,
    }
}

/// The truth value that a static expression is.
pub fn truth_in(x: &Expr) -> Option<bool>
    ensures { result ≡ truth_in x.now }
{
    match x.node.get() {
        ExprNode::Static(Value::Bool(truth)) => Some(*truth),
        _ => None,
    }
}

/// Whether a relation holds.
pub fn holds(relation: Relation, a: i128, b: i128) -> bool
    ensures { result ≡ holds relation a b }
{
    match relation {
        Relation::Equal => a == b,
        Relation::Differs => a != b,
        Relation::Less => a < b,
        Relation::AtMost => a <= b,
        Relation::Greater => a > b,
        Relation::AtLeast => a >= b,
    }
}

/// What a connective gives.
pub fn connected(connective: Connective, a: bool, b: bool) -> bool
    ensures { result ≡ connected connective a b }
{
    match connective {
        Connective::And | Connective::AndThen => a && b,
        Connective::Or | Connective::OrElse => a || b,
        Connective::Xor => a != b,
    }
}

/// A Boolean expression.
pub fn truth_at(alloc: Global, place: Place, node: ExprNode<Expr>) -> Result<Seen, Starved>
    ensures { IfOk result (λ s. s ≡ truth_at place node) }
{
    typed(alloc, place, BOOLEAN, node)
}

/// A static Boolean expression.
pub fn static_truth(alloc: Global, place: Place, truth: bool) -> Result<Seen, Starved>
    ensures { IfOk result (λ s. s ≡ static_truth place truth) }
{
    truth_at(alloc, place, ExprNode::Static(Value::Bool(truth)))
}

fn universal_seen(place: Place, right: Place, number: Result<i128, OpFault>) -> Seen
    ensures { result ≡ universal_result place right number }
{
    match number {
        Ok(number) => Seen::Number(number),
        Err(OpFault::Overflow) => refused(Code::TooWide, place),
        Err(OpFault::ZeroDivisor) | Err(OpFault::NegativeExponent) => refused(Code::L29, right),
    }
}

/// The result of an operation on universal numbers. It is `Refused` by `TooWide` where it has more than 128 bits, and by
/// L29 at the right operand where that is a zero divisor or a negative exponent.
pub fn universal_result(place: Place, right: Place, op: Op, a: i128, b: i128) -> Seen
    ensures { result ≡ universal_result place right (combined op universal a b) }
{
    universal_seen(place, right, combine(op, &UNIVERSAL, a, b))
}

fn typed_result(
    alloc: Global,
    place: Place,
    right: Place,
    ty: u32,
    scalar: &Scalar,
    number: Result<i128, OpFault>,
) -> Result<Seen, Starved>
    ensures { IfOk result (λ s. s ≡ typed_result place right ty scalar.now number) }
{
    match number {
        Ok(number) => {
            if scalar.base_lo <= number && number <= scalar.base_hi {
                typed(alloc, place, ty, ExprNode::Static(Value::Int(number)))
            } else {
                Ok(refused(Code::L29, place))
            }
        }
        Err(OpFault::Overflow) => Ok(refused(Code::TooWide, place)),
        Err(OpFault::ZeroDivisor) | Err(OpFault::NegativeExponent) => Ok(refused(Code::L29, right)),
    }
}

/// The result of an operation on static operands of a type. It is `Refused` by L29 where it lies outside the type's base
/// range, and as a universal one.
pub fn static_result(
    alloc: Global,
    world: &World,
    place: Place,
    right: Place,
    ty: u32,
    op: Op,
    a: i128,
    b: i128,
) -> Result<Seen, Starved>
    ensures { IfOk result (λ s. s ≡ static_result place right ty op a b (form_at world.now ty)) }
{
    match world.subtypes.computed(ty, op, a, b) {
        Some((scalar, number)) => typed_result(alloc, place, right, ty, &scalar, number),
        None => Ok(Seen::Unknown),
    }
}
