//! The operations of scalar types.

ghost use Rattle.std.specs.Prelude.{◌≡◌, ◌≢◌, pos};
ghost use Rattle.ada_values.specs.Combine.{floor_mod, exact, ranged, combined, ResultLaw};
ghost use Rattle.ada_values.specs.Division.{ModuloLaw, QuotientLaw};
ghost use Rattle.ada_values.specs.Scalars.{IsModulus};
ghost use Rattle.ada_values.specs.Whole.{IsWhole};

use crate::modular::modular_result;
use crate::scalars::{Op, OpFault, Scalar};

/// The result of an operation in a scalar type, from any operands. A modulus, where the type has one, is from 2 to 2^64.
///
/// `Neg` and `Abs` have the operand `a`. The error is `ZeroDivisor` where `/`, `rem` or `mod` has the divisor 0,
/// `NegativeExponent` where `**` has an exponent below 0, and `Overflow` where the type has no modulus and the
/// mathematical result lies outside its base range.
pub fn combine(op: Op, s: &Scalar, a: i128, b: i128) -> Result<i128, OpFault>
    requires { IsModulus s.now.modulus }
    ensures { result ≡ combined op s.now a b }
{
    match s.modulus {
        Some(modulus) => modular_result(op, modulus, a, b),
        None => ranged_result(op, s.base_lo, s.base_hi, a, b),
    }
}

/// The laws of `mod`, and of `/` and `rem`, at all whole numbers, and that a result lies in the base range.
pub fn operation_laws()
    ensures modulo { ModuloLaw }
    ensures quotient { QuotientLaw }
    ensures result { ResultLaw }
{}

// The result in a type without modulus.
fn ranged_result(op: Op, lo: i128, hi: i128, a: i128, b: i128) -> Result<i128, OpFault>
    ensures { result ≡ ranged lo hi (exact op a b) }
{
    match whole_result(op, a, b)? {
        Some(v) => {
            if lo <= v && v <= hi {
                Ok(v)
            } else {
                Err(OpFault::Overflow)
            }
        }
        None => Err(OpFault::Overflow),
    }
}

// The mathematical result, or None where it has more than 128 bits.
fn whole_result(op: Op, a: i128, b: i128) -> Result<Option<i128>, OpFault>
    ensures { IsWhole (exact op a b) result }
{
    match op {
        Op::Add => Ok(a.checked_add(b)),
        Op::Sub => Ok(a.checked_sub(b)),
        Op::Mul => Ok(a.checked_mul(b)),
        Op::Quo => quotient(a, b),
        Op::Rem => remainder(a, b),
        Op::Mod => modulo(a, b),
        Op::Pow => power(a, b),
        Op::Neg => Ok(a.checked_neg()),
        Op::Abs => Ok(a.checked_abs()),
    }
}

fn quotient(a: i128, b: i128) -> Result<Option<i128>, OpFault>
    ensures { IsWhole (exact Op.Quo a b) result }
{
    if b == 0 {
        Err(OpFault::ZeroDivisor)
    } else {
        Ok(a.checked_div(b))
    }
}

fn remainder(a: i128, b: i128) -> Result<Option<i128>, OpFault>
    ensures { IsWhole (exact Op.Rem a b) result }
{
    if b == 0 {
        Err(OpFault::ZeroDivisor)
    } else {
        Ok(Some(a.wrapping_rem(b)))
    }
}

fn modulo(a: i128, b: i128) -> Result<Option<i128>, OpFault>
    ensures { IsWhole (exact Op.Mod a b) result }
{
    if b == 0 {
        Err(OpFault::ZeroDivisor)
    } else {
        Ok(Some(floor_rem(a, b)))
    }
}

// From 128 on a power has 128 bits only of 0, 1 and -1, where it depends on whether the exponent is even.
fn power(a: i128, b: i128) -> Result<Option<i128>, OpFault>
    ensures { IsWhole (exact Op.Pow a b) result }
{
    if b < 0 {
        Err(OpFault::NegativeExponent)
    } else if b < 128 {
        Ok(a.checked_pow(b as u32))
    } else {
        Ok(a.checked_pow(128 + (b.unsigned_abs() % 2) as u32))
    }
}

// The remainder with the sign of the divisor.
pub fn floor_rem(a: i128, b: i128) -> i128
    requires { b ≢ pos 0 }
    ensures { result ≡ floor_mod a b }
{
    let rest = a.wrapping_rem(b);
    if b < 0 {
        if 0 < rest { rest + b } else { rest }
    } else if rest < 0 {
        rest + b
    } else {
        rest
    }
}
