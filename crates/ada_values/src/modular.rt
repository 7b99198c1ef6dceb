//! The operations of modular types.

ghost use Rattle.std.specs.Prelude.{◌≡◌, pos, neg_ℤ, int_lt, ◌+ℤ◌, ◌*ℤ◌, ◌<◌, ◌≤◌, ◌%◌, ◌^◌, ◌==◌, ◌&&◌};
ghost use Rattle.ada_values.specs.Combine.{floor_mod, exact, wrapped};
ghost use Rattle.ada_values.specs.Residues.{whole, turned, IsLike, IsExactly};
ghost use Rattle.ada_values.specs.Scalars.{IsBetween};

use crate::operations::floor_rem;
use crate::scalars::{Op, OpFault};

/// A whole number, by its sign and its size. That of 0 may say that it lies below 0.
#[derive(Clone, Copy)]
pub struct SignedSize {
    is_below: bool,
    size: u128,
}

/// The result modulo `modulus`.
pub fn modular_result(op: Op, modulus: i128, a: i128, b: i128) -> Result<i128, OpFault>
    requires { IsBetween (pos 2) (pos 18446744073709551616) modulus }
    ensures { result ≡ wrapped modulus (exact op a b) }
{
    let modulus = modulus.unsigned_abs();
    let number = like_result(op, modulus, a, b)?;
    Ok(residue(number, modulus) as i128)
}

// A number that is the mathematical result, modulo `modulus`.
#[tactic(auto, using(crate::proofs::Modulo::exactly_like))]
fn like_result(op: Op, modulus: u128, a: i128, b: i128) -> Result<SignedSize, OpFault>
    requires { (0 < modulus) × (modulus ≤ 18446744073709551616) }
    ensures { IsLike modulus (exact op a b) result }
{
    match op {
        Op::Add => Ok(sum(size_of(a), size_of(b), modulus)),
        Op::Sub => Ok(sum(size_of(a), opposite(b), modulus)),
        Op::Mul => Ok(product(size_of(a), size_of(b), modulus)),
        Op::Quo => quotient(a, b),
        Op::Rem => remainder(a, b),
        Op::Mod => modulo(a, b),
        Op::Pow => power(modulus, a, b),
        Op::Neg => Ok(opposite(a)),
        Op::Abs => Ok(SignedSize {
            is_below: false,
            size: a.unsigned_abs(),
        }),
    }
}

// The number from 0 up to the modulus that a number is modulo it.
fn residue(number: SignedSize, modulus: u128) -> u128
    requires { 0 < modulus }
    ensures value { pos result ≡ floor_mod (whole number) (pos modulus) }
    ensures bound { result < modulus }
{
    let rest = number.size % modulus;
    if number.is_below {
        turned(rest, modulus)
    } else {
        rest
    }
}

// The number from 0 up to the modulus that `-rest` is modulo it.
fn turned(rest: u128, modulus: u128) -> u128
    requires { rest < modulus }
    ensures value { result ≡ turned modulus rest }
    ensures bound { result < modulus }
{
    if rest == 0 { 0 } else { modulus - rest }
}

fn size_of(a: i128) -> SignedSize
    ensures { whole result ≡ a }
{
    SignedSize {
        is_below: a < 0,
        size: a.unsigned_abs(),
    }
}

fn opposite(a: i128) -> SignedSize
    ensures { whole result ≡ neg_ℤ a }
{
    SignedSize {
        is_below: 0 < a,
        size: a.unsigned_abs(),
    }
}

// A number that is the sum, modulo `modulus`.
fn sum(a: SignedSize, b: SignedSize, modulus: u128) -> SignedSize
    requires { (0 < modulus) × (modulus ≤ 18446744073709551616) }
    ensures { floor_mod (whole result) (pos modulus) ≡ floor_mod (whole a +ℤ whole b) (pos modulus) }
{
    SignedSize {
        is_below: false,
        size: residue(a, modulus) + residue(b, modulus),
    }
}

// A number that is the product, modulo `modulus`.
fn product(a: SignedSize, b: SignedSize, modulus: u128) -> SignedSize
    requires { (0 < modulus) × (modulus ≤ 18446744073709551616) }
    ensures { floor_mod (whole result) (pos modulus) ≡ floor_mod (whole a *ℤ whole b) (pos modulus) }
{
    SignedSize {
        is_below: a.is_below != b.is_below,
        size: (a.size % modulus) * (b.size % modulus),
    }
}

fn quotient(a: i128, b: i128) -> Result<SignedSize, OpFault>
    ensures { IsExactly (exact Op.Quo a b) result }
{
    if b == 0 {
        return Err(OpFault::ZeroDivisor);
    }
    Ok(SignedSize {
        is_below: (a < 0) != (b < 0),
        size: a.unsigned_abs() / b.unsigned_abs(),
    })
}

fn remainder(a: i128, b: i128) -> Result<SignedSize, OpFault>
    ensures { IsExactly (exact Op.Rem a b) result }
{
    if b == 0 {
        return Err(OpFault::ZeroDivisor);
    }
    Ok(SignedSize {
        is_below: a < 0,
        size: a.unsigned_abs() % b.unsigned_abs(),
    })
}

fn modulo(a: i128, b: i128) -> Result<SignedSize, OpFault>
    ensures { IsExactly (exact Op.Mod a b) result }
{
    if b == 0 {
        Err(OpFault::ZeroDivisor)
    } else {
        Ok(size_of(floor_rem(a, b)))
    }
}

// A number that is `a ** b`, modulo `modulus`.
fn power(modulus: u128, a: i128, b: i128) -> Result<SignedSize, OpFault>
    requires { (0 < modulus) × (modulus ≤ 18446744073709551616) }
    ensures { IsLike modulus (exact Op.Pow a b) result }
{
    if b < 0 {
        return Err(OpFault::NegativeExponent);
    }
    let exponent = b.unsigned_abs();
    Ok(SignedSize {
        is_below: is_power_below(a, exponent),
        size: power_modulo(a.unsigned_abs() % modulus, exponent, modulus),
    })
}

// Whether `a ** exponent` lies below 0.
fn is_power_below(a: i128, exponent: u128) -> bool
    ensures { result ≡ (int_lt a (pos 0) && (exponent % 2 == 1)) }
{
    a < 0 && exponent % 2 == 1
}

// `base ** exponent` modulo `modulus`, by squares.
fn power_modulo(base: u128, exponent: u128, modulus: u128) -> u128
    requires { (0 < modulus) × (modulus ≤ 18446744073709551616) × (base < modulus) }
    ensures { result ≡ (base ^ exponent) % modulus }
{
    let mut power = 1 % modulus;
    let mut square = base;
    let mut left = exponent;
    while 0 < left {
        if left % 2 == 1 {
            power = power * square % modulus;
        }
        square = square * square % modulus;
        left /= 2;
    }
    power
}
