//! Scalar types and the operations on their values.

ghost use Rattle.std.specs.Prelude.{◌≡◌};
ghost use Rattle.ada_values.specs.Scalars.{in_scalar};

/// The first value of the subtype Integer (Ada RM 3.5.4).
pub const INTEGER_FIRST: i128 = -2_147_483_648;

/// The last value of the subtype Integer, which is the greatest exponent too.
pub const INTEGER_LAST: i128 = 2_147_483_647;

/// An arithmetic operation of the language (Ada RM 4.5.3 to 4.5.6).
#[derive(Clone, Copy, Debug, PartialEq, Eq)]
pub enum Op {
    Add,
    Sub,
    Mul,
    /// `/`, which truncates toward zero.
    Quo,
    Rem,
    Mod,
    /// `**`.
    Pow,
    /// Unary `-`.
    Neg,
    Abs,
}

/// Why an operation has no result.
#[derive(Clone, Copy, Debug, PartialEq, Eq)]
pub enum OpFault {
    /// The mathematical result lies outside the base range.
    Overflow,
    /// The divisor is 0.
    ZeroDivisor,
    /// The exponent is below 0.
    NegativeExponent,
}

/// A scalar subtype (Ada RM 3.5): its bounds, the base range of its type, and the modulus of a modular type.
#[derive(Clone, Copy, Debug, PartialEq, Eq)]
pub struct Scalar {
    pub lo: i128,
    pub hi: i128,
    pub base_lo: i128,
    pub base_hi: i128,
    pub modulus: Option<i128>,
}

/// Whether the value belongs to the subtype.
pub fn in_scalar(s: &Scalar, v: i128) -> bool
    ensures { result ≡ in_scalar s.now v }
{
    s.lo <= v && v <= s.hi
}
