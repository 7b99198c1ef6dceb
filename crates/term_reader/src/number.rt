//! Numbers in decimal digits.

ghost use Rattle.std.specs.Prelude.{◌≡◌, ◌+◌, ◌<◌, ◌≤◌, ◌^◌, ◌∷◌, ◌++◌, length, drop, IfOk, IfErr};
ghost use Rattle.logic_terms.specs.Text.{number_text};
ghost use Rattle.term_reader.specs.Bytes.{Ends, IsFault};
ghost use Rattle.term_reader.specs.Reads.{Between};

use crate::bytes::digit_at;

/// A number, and the place after it.
#[derive(Clone, Copy)]
pub struct Number {
    pub value: u128,
    pub to: usize,
}

/// The number at a 0.
#[tactic(auto, using(crate::proofs::Numbers::zero_text))]
fn read_zero(bytes: &[u8], at: usize, least: u128, most: u128) -> Result<Number, usize>
    requires place { at < length bytes.now }
    requires zero { drop at bytes.now ≡ 48 ∷ drop (at + 1) bytes.now }
    requires least { least ≤ 1 }
    requires some { 1 ≤ most }
    ensures before { IfOk result (λ n. at < n.to) }
    ensures inside { IfOk result (λ n. n.to ≤ length bytes.now) }
    ensures number { IfOk result (λ n. Between least most n.value) }
    ensures text { IfOk result (λ n. drop at bytes.now ≡ number_text n.value ++ drop n.to bytes.now) }
    ensures ends { IfOk result (λ n. Ends (drop n.to bytes.now)) }
    ensures place { IfErr result (λ to. to ≤ length bytes.now) }
    ensures fault { IfErr result (λ to. IsFault (Between least most) number_text (drop at bytes.now) (drop to bytes.now)) }
{
    if least == 1 {
        return Err(at);
    }
    match digit_at(bytes, at + 1) {
        Some(_) => Err(at + 1),
        None => Ok(Number {
            value: 0,
            to: at + 1,
        }),
    }
}

/// The number at another digit.
#[tactic(auto, using(crate::proofs::Numbers::first_digit))]
fn read_digits(bytes: &[u8], at: usize, digit: u8, least: u128, most: u128) -> Result<Number, usize>
    requires place { at < length bytes.now }
    requires digit { drop at bytes.now ≡ (48 + digit) ∷ drop (at + 1) bytes.now }
    requires above { 0 < digit }
    requires below { digit < 10 }
    requires least { least ≤ 1 }
    requires some { 9 ≤ most }
    requires most { most ≤ 2 ^ 127 }
    ensures before { IfOk result (λ n. at < n.to) }
    ensures inside { IfOk result (λ n. n.to ≤ length bytes.now) }
    ensures number { IfOk result (λ n. Between least most n.value) }
    ensures text { IfOk result (λ n. drop at bytes.now ≡ number_text n.value ++ drop n.to bytes.now) }
    ensures ends { IfOk result (λ n. Ends (drop n.to bytes.now)) }
    ensures place { IfErr result (λ to. to ≤ length bytes.now) }
    ensures fault { IfErr result (λ to. IsFault (Between least most) number_text (drop at bytes.now) (drop to bytes.now)) }
{
    let mut value = digit as u128;
    let mut to = at + 1;
    while let Some(next) = digit_at(bytes, to) {
        let more = next as u128;
        if value > (most - more) / 10 {
            return Err(to);
        }
        value = value * 10 + more;
        to += 1;
    }
    Ok(Number { value, to })
}

/// The number at a place, which is from `least`, 0 or 1, to `most`. The error is the first byte after which no such
/// number goes on so.
#[tactic(auto, using(crate::proofs::Numbers::no_digit_fault))]
pub fn read_number(bytes: &[u8], at: usize, least: u128, most: u128) -> Result<Number, usize>
    requires place { at ≤ length bytes.now }
    requires least { least ≤ 1 }
    requires some { 9 ≤ most }
    requires most { most ≤ 2 ^ 127 }
    ensures before { IfOk result (λ n. at < n.to) }
    ensures inside { IfOk result (λ n. n.to ≤ length bytes.now) }
    ensures number { IfOk result (λ n. Between least most n.value) }
    ensures text { IfOk result (λ n. drop at bytes.now ≡ number_text n.value ++ drop n.to bytes.now) }
    ensures ends { IfOk result (λ n. Ends (drop n.to bytes.now)) }
    ensures place { IfErr result (λ to. to ≤ length bytes.now) }
    ensures fault { IfErr result (λ to. IsFault (Between least most) number_text (drop at bytes.now) (drop to bytes.now)) }
{
    match digit_at(bytes, at) {
        None => Err(at),
        Some(0) => read_zero(bytes, at, least, most),
        Some(digit) => read_digits(bytes, at, digit, least, most),
    }
}
