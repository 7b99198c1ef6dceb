//! The families of operators of two operands, and what their rules demand.

ghost use Rattle.std.specs.Prelude.{◌≡◌};
ghost use Rattle.type_base.specs.Operators.{demand_of, family_of, rule_of};

use ada_syntax::BinaryOperator;
use ada_values::Op;
use type_base::{Code, Demand, Family};
use typed_units::{Connective, Relation};

/// The family of an operator.
pub fn family_of(operator: BinaryOperator) -> Family
    ensures { result ≡ family_of operator }
{
    match operator {
        BinaryOperator::And => Family::Connect(Connective::And),
        BinaryOperator::AndThen => Family::Connect(Connective::AndThen),
        BinaryOperator::Or => Family::Connect(Connective::Or),
        BinaryOperator::OrElse => Family::Connect(Connective::OrElse),
        BinaryOperator::Xor => Family::Connect(Connective::Xor),
        BinaryOperator::Equal => Family::Compare(Relation::Equal),
        BinaryOperator::NotEqual => Family::Compare(Relation::Differs),
        BinaryOperator::Less => Family::Compare(Relation::Less),
        BinaryOperator::AtMost => Family::Compare(Relation::AtMost),
        BinaryOperator::Greater => Family::Compare(Relation::Greater),
        BinaryOperator::AtLeast => Family::Compare(Relation::AtLeast),
        BinaryOperator::Add => Family::Arithmetic(Op::Add),
        BinaryOperator::Subtract => Family::Arithmetic(Op::Sub),
        BinaryOperator::Multiply => Family::Arithmetic(Op::Mul),
        BinaryOperator::Divide => Family::Arithmetic(Op::Quo),
        BinaryOperator::Mod => Family::Arithmetic(Op::Mod),
        BinaryOperator::Rem => Family::Arithmetic(Op::Rem),
        BinaryOperator::Power => Family::Power,
    }
}

/// What the rules of a family demand of each operand.
pub fn demand_of(family: Family) -> Demand
    ensures { result ≡ demand_of family }
{
    match family {
        Family::Arithmetic(_) | Family::Power => Demand::Integer,
        Family::Compare(Relation::Equal) | Family::Compare(Relation::Differs) => Demand::Comparable,
        Family::Compare(_) => Demand::Ordered,
        Family::Connect(_) => Demand::Truth,
    }
}

/// The rule that demands it.
pub fn rule_of(family: Family) -> Code
    ensures { result ≡ rule_of family }
{
    match family {
        Family::Arithmetic(_) => Code::L1,
        Family::Compare(Relation::Equal) | Family::Compare(Relation::Differs) => Code::L5,
        Family::Compare(_) => Code::L6,
        Family::Connect(_) => Code::L4,
        Family::Power => Code::L2,
    }
}
