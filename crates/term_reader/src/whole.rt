//! Whole numbers in decimal digits, with a sign where they are negative.

ghost use Rattle.std.specs.Prelude.{◌≡◌, ◌≢◌, ◌+◌, ◌-◌, ◌^◌, ◌<◌, ◌≤◌, ◌∷◌, ◌++◌, length, drop, pos, negsuc, IfOk, IfErr};
ghost use Rattle.logic_terms.specs.Text.{whole_text};
ghost use Rattle.term_reader.specs.Bytes.{first, Ends, IsFault};
ghost use Rattle.term_reader.specs.Values.{IsNumber};

use crate::bytes::byte_at;
use crate::number::read_number;

/// A whole number, and the place after it.
#[derive(Clone, Copy)]
pub struct Whole {
    pub value: i128,
    pub to: usize,
}

/// The greatest number of 128 bits with a sign.
const MOST: u128 = 170_141_183_460_469_231_731_687_303_715_884_105_727;

/// The number as one with a sign.
#[tactic(auto, using(std::proofs::lemmas::Int::ints))]
fn with_sign(number: u128) -> i128
    requires { number < 2 ^ 127 }
    ensures { result ≡ pos number }
{
    number as i128
}

/// The number below 0 by so much.
#[tactic(auto, using(std::proofs::lemmas::Int::ints))]
fn negated(number: u128) -> i128
    requires some { 1 ≤ number }
    requires most { number ≤ 2 ^ 127 }
    ensures { result ≡ negsuc (number - 1) }
{
    let below = (number - 1) as i128;
    -1 - below
}

/// A negative number at its sign.
fn read_negative(bytes: &[u8], at: usize) -> Result<Whole, usize>
    requires place { at < length bytes.now }
    requires sign { drop at bytes.now ≡ 45 ∷ drop (at + 1) bytes.now }
    ensures before { IfOk result (λ r. at < r.to) }
    ensures inside { IfOk result (λ r. r.to ≤ length bytes.now) }
    ensures number { IfOk result (λ r. IsNumber r.value) }
    ensures text { IfOk result (λ r. drop at bytes.now ≡ whole_text r.value ++ drop r.to bytes.now) }
    ensures ends { IfOk result (λ r. Ends (drop r.to bytes.now)) }
    ensures place { IfErr result (λ to. to ≤ length bytes.now) }
    ensures fault { IfErr result (λ to. IsFault IsNumber whole_text (drop at bytes.now) (drop to bytes.now)) }
{
    match read_number(bytes, at + 1, 1, MOST + 1) {
        Err(to) => Err(to),
        Ok(number) => Ok(Whole {
            value: negated(number.value),
            to: number.to,
        }),
    }
}

/// A number with no sign.
fn read_natural(bytes: &[u8], at: usize) -> Result<Whole, usize>
    requires place { at ≤ length bytes.now }
    requires sign { first (drop at bytes.now) ≢ 45 }
    ensures before { IfOk result (λ r. at < r.to) }
    ensures inside { IfOk result (λ r. r.to ≤ length bytes.now) }
    ensures number { IfOk result (λ r. IsNumber r.value) }
    ensures text { IfOk result (λ r. drop at bytes.now ≡ whole_text r.value ++ drop r.to bytes.now) }
    ensures ends { IfOk result (λ r. Ends (drop r.to bytes.now)) }
    ensures place { IfErr result (λ to. to ≤ length bytes.now) }
    ensures fault { IfErr result (λ to. IsFault IsNumber whole_text (drop at bytes.now) (drop to bytes.now)) }
{
    match read_number(bytes, at, 0, MOST) {
        Err(to) => Err(to),
        Ok(number) => Ok(Whole {
            value: with_sign(number.value),
            to: number.to,
        }),
    }
}

/// The whole number of 128 bits at a place. The error is the first byte after which no such number goes on so.
#[tactic(auto, using(crate::proofs::Fronts::first_is))]
pub fn read_whole(bytes: &[u8], at: usize) -> Result<Whole, usize>
    requires { at ≤ length bytes.now }
    ensures before { IfOk result (λ r. at < r.to) }
    ensures inside { IfOk result (λ r. r.to ≤ length bytes.now) }
    ensures number { IfOk result (λ r. IsNumber r.value) }
    ensures text { IfOk result (λ r. drop at bytes.now ≡ whole_text r.value ++ drop r.to bytes.now) }
    ensures ends { IfOk result (λ r. Ends (drop r.to bytes.now)) }
    ensures place { IfErr result (λ to. to ≤ length bytes.now) }
    ensures fault { IfErr result (λ to. IsFault IsNumber whole_text (drop at bytes.now) (drop to bytes.now)) }
{
    if byte_at(bytes, at) == 45 {
        read_negative(bytes, at)
    } else {
        read_natural(bytes, at)
    }
}
