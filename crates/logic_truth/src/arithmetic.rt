//! Operations on whole numbers, which have no answer where it leaves 128 bits.

ghost use Rattle.std.specs.Prelude.{◌≡◌, ◌≤◌, SomeIff, FitsSigned, unsigned_abs};
ghost use Rattle.std.specs.Int.{w128};
ghost use Rattle.logic_terms.specs.Meaning.{compute, modulus, opposite, power as power_of, remainder, times};
ghost use Rattle.logic_terms.specs.Operators.{arith_of};

use logic_terms::Arithmetic;

/// The remainder, with the sign of `a`, and 0 by 0.
fn remainder_of(a: i128, b: i128) -> i128
    ensures { result ≡ remainder a b }
{
    if b == 0 || b == -1 { 0 } else { a % b }
}

/// Whether one is above 0 and the other is below.
fn are_opposite(a: i128, b: i128) -> bool
    ensures { result ≡ opposite a b }
{
    (a < 0 && 0 < b) || (0 < a && b < 0)
}

/// The remainder, moved to the sign of `b`, and 0 by 0.
fn modulus_of(a: i128, b: i128) -> i128
    ensures { result ≡ modulus a b }
{
    let r = remainder_of(a, b);
    if are_opposite(r, b) { r + b } else { r }
}

/// `base` multiplied `exponent` times, where it fits.
fn product(base: i128, exponent: u128) -> Option<i128>
    requires { 2 ≤ unsigned_abs base }
    ensures { let z = times base exponent in SomeIff result (FitsSigned w128 z) z }
{
    let mut product: i128 = 1;
    for _turn in 0..exponent {
        product = product.checked_mul(base)?;
    }
    Some(product)
}

/// `base` multiplied `exponent` times, where it fits. The powers of 0, 1 and -1 are known at once, and those of others
/// soon leave 128 bits.
fn natural_power(base: i128, exponent: u128) -> Option<i128>
    ensures { let z = times base exponent in SomeIff result (FitsSigned w128 z) z }
{
    if base == 0 {
        Some(if exponent == 0 { 1 } else { 0 })
    } else if base == 1 {
        Some(1)
    } else if base == -1 {
        Some(if exponent % 2 == 0 { 1 } else { -1 })
    } else {
        product(base, exponent)
    }
}

/// 0 at a negative exponent.
fn power(base: i128, exponent: i128) -> Option<i128>
    ensures { let z = power_of base exponent in SomeIff result (FitsSigned w128 z) z }
{
    if exponent < 0 {
        Some(0)
    } else {
        natural_power(base, exponent as u128)
    }
}

/// The answer of an operation, or None where it leaves 128 bits.
pub fn calculate(op: Arithmetic, a: i128, b: i128) -> Option<i128>
    ensures { let z = compute (arith_of op) a b in SomeIff result (FitsSigned w128 z) z }
{
    match op {
        Arithmetic::Add => a.checked_add(b),
        Arithmetic::Sub => a.checked_sub(b),
        Arithmetic::Mul => a.checked_mul(b),
        Arithmetic::Quo => { if b == 0 { Some(0) } else { a.checked_div(b) } }
        Arithmetic::Rem => Some(remainder_of(a, b)),
        Arithmetic::Mod => Some(modulus_of(a, b)),
        Arithmetic::Pow => power(a, b),
    }
}
