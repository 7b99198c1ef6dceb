//! Greatest common divisors, and division by them.

ghost use Rattle.std.specs.Prelude.{◌≡◌, ◌<◌};
ghost use Rattle.std.specs.Int.{IsGcd};
ghost use Rattle.linear_forms.specs.Form.{divisor as divisor_of, floor};
ghost use Rattle.linear_forms.specs.View.{parts as monomials};

use crate::form::Part;

/// The greatest common divisor, 0 where both are 0, by remainders.
pub fn gcd(a: u128, b: u128) -> u128
    ensures { IsGcd a b result }
{
    let mut x = a;
    let mut y = b;
    while y != 0 {
        let rest = x % y;
        x = y;
        y = rest;
    }
    x
}

/// The greatest common divisor of the coefficients, 0 where all are 0.
pub fn divisor(parts: &[Part]) -> u128
    ensures { result ≡ divisor_of (monomials parts.now) }
{
    let mut common = 0;
    for part in parts {
        common = gcd(common, part.coefficient.unsigned_abs());
    }
    common
}

/// The greatest whole number that is at most `x` divided by `by`.
pub fn floor_quotient(x: i128, by: u128) -> i128
    requires { 0 < by }
    ensures { result ≡ floor x by }
{
    if x < 0 {
        let below = (-(x + 1)) as u128 / by;
        -1 - below as i128
    } else {
        (x as u128 / by) as i128
    }
}
