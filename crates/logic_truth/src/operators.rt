//! Operators on computed values.

ghost use Rattle.std.specs.Prelude.{◌≡◌};
ghost use Rattle.logic_terms.specs.Meaning.{apply1, apply3, compute as compute_by};
ghost use Rattle.logic_terms.specs.Run.{checked, finish, gives};
ghost use Rattle.logic_truth.specs.Found.{Finds, found, option_outcome};
ghost use Rattle.logic_terms.specs.Operators.{arith_of, binary_of, ternary_of, unary_of};

use crate::arithmetic::calculate;
use crate::arrays::{fill, first_of, into_number, last_of, select, store};
use crate::found::{Found, TruthFault};
use logic_terms::{Arithmetic, BinaryOperator, TernaryOperator, UnaryOperator};
use std::alloc::Global;

/// A number, if it fits.
fn narrow(number: Option<i128>, left: u32) -> Result<(Found, u32), TruthFault>
    ensures { Finds found (option_outcome number left) result }
{
    match number {
        Some(n) => Ok((Found::Num(n), left)),
        None => Err(TruthFault::Wide),
    }
}

/// The value of an operation on numbers.
#[tactic(auto, using(crate::proofs::Checked::checked_option))]
fn compute(op: Arithmetic, a: i128, b: i128, left: u32) -> Result<(Found, u32), TruthFault>
    ensures { Finds found (checked (compute_by (arith_of op) a b) left) result }
{
    narrow(calculate(op, a, b), left)
}

/// The value of an operator with two operands, and what is left of the budget.
pub fn apply_binary(
    alloc: Global,
    op: BinaryOperator,
    x: Found,
    y: Found,
    left: u32,
) -> Result<(Found, u32), TruthFault>
    ensures { Finds found (finish (binary_of op) (found x) (found y) left) result }
{
    match op {
        BinaryOperator::Compute(op) => compute(op, into_number(x), into_number(y), left),
        BinaryOperator::Select => Ok((select(alloc, x, into_number(y))?, left)),
        BinaryOperator::Update(k) => Ok((x.with_field(alloc, k, y)?, left)),
    }
}

/// The value of an operator with three operands, and what is left of the budget.
pub fn apply_ternary(
    alloc: Global,
    op: TernaryOperator,
    x: Found,
    y: Found,
    z: Found,
    left: u32,
) -> Result<(Found, u32), TruthFault>
    ensures { Finds found (gives (apply3 (ternary_of op) (found x) (found y) (found z)) left) result }
{
    match op {
        TernaryOperator::Store => Ok((store(alloc, x, into_number(y), z)?, left)),
        TernaryOperator::Fill => Ok((fill(alloc, into_number(x), into_number(y), z)?, left)),
    }
}

/// The value of an operator with one operand.
pub fn apply_unary(op: UnaryOperator, x: Found) -> Found
    ensures { found result ≡ apply1 (unary_of op) (found x) }
{
    match op {
        UnaryOperator::First => Found::Num(first_of(&x)),
        UnaryOperator::Last => Found::Num(last_of(&x)),
        UnaryOperator::Field(k) => x.field(k),
    }
}
