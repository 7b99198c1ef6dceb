//! Cases of operations and of subtypes.

ghost use Rattle.std.specs.Prelude.{◌≤ℤ◌, pos};
ghost use Rattle.ada_values.specs.Scalars.{IsModulus};

use crate::answer::Answer;
use ada_values::{INTEGER_FIRST, INTEGER_LAST, Op, Scalar, combine, in_scalar};

/// The most values of a modular type.
const MOST_VALUES: i128 = 18_446_744_073_709_551_616;

/// The subtype Integer.
const INTEGER: Scalar = Scalar {
    lo: INTEGER_FIRST,
    hi: INTEGER_LAST,
    base_lo: INTEGER_FIRST,
    base_hi: INTEGER_LAST,
    modulus: None,
};

/// The operation of a word.
fn op_of(word: &[u8]) -> Option<Op> {
    match word {
        b"+" => Some(Op::Add),
        b"-" => Some(Op::Sub),
        b"*" => Some(Op::Mul),
        b"/" => Some(Op::Quo),
        b"rem" => Some(Op::Rem),
        b"mod" => Some(Op::Mod),
        b"**" => Some(Op::Pow),
        b"neg" => Some(Op::Neg),
        b"abs" => Some(Op::Abs),
        _ => None,
    }
}

/// The number that a word is.
pub fn number_of(word: &[u8]) -> Option<i128> {
    str::from_utf8(word).ok()?.parse::<i128>().ok()
}

/// The words of an operation and its operands, of which there is one for `neg` and `abs`, whose right operand is then 0.
fn parts_of(words: &[Vec<u8>]) -> Option<(Op, &[u8], &[u8])> {
    match words {
        [op, left] => Some((op_of(op.as_slice())?, left.as_slice(), b"0")),
        [left, op, right] => Some((op_of(op.as_slice())?, left.as_slice(), right.as_slice())),
        _ => None,
    }
}

/// The answer to an operation in a type.
fn answer_in(scalar: &Scalar, words: &[Vec<u8>]) -> Answer
    requires { IsModulus scalar.now.modulus }
{
    let Some((op, left, right)) = parts_of(words) else {
        return Answer::NoCase;
    };
    let (Some(left), Some(right)) = (number_of(left), number_of(right)) else {
        return Answer::NoCase;
    };
    match combine(op, scalar, left, right) {
        Ok(number) => Answer::Number(number),
        Err(fault) => Answer::Fault(fault),
    }
}

/// The answer to an operation in Integer.
pub fn in_integer(words: &[Vec<u8>]) -> Answer {
    answer_in(&INTEGER, words)
}

/// The modular type of so many values.
fn modular(modulus: i128) -> Scalar
    requires { (pos 2 ≤ℤ modulus) × (modulus ≤ℤ pos 18446744073709551616) }
    ensures { IsModulus result.modulus }
{
    let last = modulus - 1;
    Scalar {
        lo: 0,
        hi: last,
        base_lo: 0,
        base_hi: last,
        modulus: Some(modulus),
    }
}

/// The answer to an operation in a modular type.
pub fn in_modular(words: &[Vec<u8>]) -> Answer {
    let Some((word, words)) = words.split_first() else {
        return Answer::NoCase;
    };
    match number_of(word.as_slice()) {
        Some(modulus) if 2 <= modulus && modulus <= MOST_VALUES => {
            answer_in(&modular(modulus), words)
        }
        _ => Answer::NoCase,
    }
}

/// Whether a number belongs to a subtype.
pub fn in_subtype(words: &[Vec<u8>]) -> Answer {
    let [lo, hi, v] = words else {
        return Answer::NoCase;
    };
    match (
        number_of(lo.as_slice()),
        number_of(hi.as_slice()),
        number_of(v.as_slice()),
    ) {
        (Some(lo), Some(hi), Some(v)) => {
            let scalar = Scalar {
                lo,
                hi,
                base_lo: lo,
                base_hi: hi,
                modulus: None,
            };
            Answer::Truth(in_scalar(&scalar, v))
        }
        _ => Answer::NoCase,
    }
}
