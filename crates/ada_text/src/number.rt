//! Numbers at the front of a text.

ghost use Rattle.std.specs.Prelude.{◌≡◌, ◌<◌, ◌≤◌, ◌+◌, ◌-◌, ◌*◌, ◌^◌, IfOk, IfSome, true, min, length, nat_lt, pos, Some, None, if◌then◌else◌, slice_index};
ghost use Rattle.std.specs.Char.{digit_value, is_ascii_digit};
ghost use Rattle.ada_text.specs.Numbers.{base_of, based_at, ends_at, exponent_at, is_written, literal_at, literal_value, mantissa_at, number_at, numeral_value};

use crate::bytes::{byte_at, digit_value, numeral_length};
use crate::item::Item;
use crate::token::{LexFault, TokenKind};

/// A part of the bytes, from one place up to another.
#[derive(Clone, Copy, Debug)]
pub struct Part {
    pub from: usize,
    pub to: usize,
}

/// A number without its exponent.
#[derive(Clone, Copy, Debug)]
pub struct Mantissa {
    /// From 2 to 16.
    pub radix: u32,
    pub digits: Part,
    /// The place after it.
    pub end: usize,
}

/// A number, which ends with the digits of its exponent, where these may be none.
#[derive(Clone, Copy, Debug)]
pub struct Literal {
    /// From 2 to 16.
    pub radix: u32,
    pub digits: Part,
    pub exponent: Part,
}

/// The value of the digits up to a byte, after the value of those before it, or 2^128 - 1 where it is greater.
fn with_byte(radix: u32, value: u128, byte: u8) -> u128
    ensures { result ≡ (if is_written byte then min (min (value * radix) (2 ^ 128 - 1) + digit_value byte) (2 ^ 128 - 1) else value) }
{
    if byte == b'_' {
        return value;
    }
    value
        .saturating_mul(u128::from(radix))
        .saturating_add(u128::from(digit_value(byte)))
}

/// The value of a numeral, or 2^128 - 1 where it is greater.
fn numeral_value(radix: u32, text: &[u8]) -> u128
    requires { 1 ≤ radix }
    ensures { result ≡ min (numeral_value radix text.now) (2 ^ 128 - 1) }
{
    let mut value: u128 = 0;
    for byte in text {
        value = with_byte(radix, value, *byte);
    }
    value
}

/// The base that a numeral names, if it is from 2 to 16.
fn base_of(text: &[u8]) -> Option<u32>
    ensures value { result ≡ base_of text.now }
    ensures range { IfSome result (λ base. (2 ≤ base) × (base ≤ 16)) }
{
    let value = numeral_value(10, text);
    if 2 <= value && value <= 16 {
        Some(value as u32)
    } else {
        None
    }
}

/// The digits between `#` and `#`, from a place on.
#[tactic(auto, unfolding(crate::specs::Numbers::based_at))]
fn based_at(radix: u32, from: usize, bytes: &[u8]) -> Option<Mantissa>
    requires place { from ≤ length bytes.now }
    requires base { radix ≤ 16 }
    ensures value { result ≡ based_at radix from bytes.now }
    ensures within { IfSome result (λ m. (m.digits.from ≤ m.digits.to) × (m.digits.to ≤ m.end) × (0 < m.end) × (m.end ≤ length bytes.now) × (m.radix ≡ radix)) }
{
    let to = from + numeral_length(radix, &bytes[from..]);
    if from < to && byte_at(bytes, to) == b'#' {
        Some(Mantissa {
            radix,
            digits: Part { from, to },
            end: to + 1,
        })
    } else {
        None
    }
}

/// The number at the front, without its exponent.
#[tactic(auto, unfolding(crate::specs::Numbers::mantissa_at))]
fn mantissa_at(bytes: &[u8]) -> Option<Mantissa>
    requires { is_ascii_digit (slice_index bytes.now 0) ≡ true }
    ensures value { result ≡ mantissa_at bytes.now }
    ensures within { IfSome result (λ m. (m.digits.from ≤ m.digits.to) × (m.digits.to ≤ m.end) × (0 < m.end) × (m.end ≤ length bytes.now)) }
    ensures radix { IfSome result (λ m. (2 ≤ m.radix) × (m.radix ≤ 16)) }
{
    let to = numeral_length(10, bytes);
    if byte_at(bytes, to) == b'#' {
        match base_of(&bytes[..to]) {
            None => None,
            Some(radix) => based_at(radix, to + 1, bytes),
        }
    } else {
        Some(Mantissa {
            radix: 10,
            digits: Part { from: 0, to },
            end: to,
        })
    }
}

/// The digits of the exponent at a place, or nothing where there is no `E`.
#[tactic(auto, unfolding(crate::specs::Numbers::exponent_at))]
fn exponent_at(at: usize, bytes: &[u8]) -> Option<Part>
    requires { at ≤ length bytes.now }
    ensures value { result ≡ exponent_at at bytes.now }
    ensures within { IfSome result (λ e. (at ≤ e.from) × (e.from ≤ e.to) × (e.to ≤ length bytes.now)) }
{
    let letter = byte_at(bytes, at);
    if !(letter == b'E' || letter == b'e') {
        return Some(Part { from: at, to: at });
    }
    let from = if byte_at(bytes, at + 1) == b'+' {
        at + 2
    } else {
        at + 1
    };
    let to = from + numeral_length(10, &bytes[from..]);
    if from < to {
        Some(Part { from, to })
    } else {
        None
    }
}

/// Whether a number may end at a place.
#[tactic(auto, unfolding(crate::specs::Numbers::ends_at))]
fn ends_at(at: usize, bytes: &[u8]) -> bool
    requires { at ≤ length bytes.now }
    ensures { result ≡ ends_at at bytes.now }
{
    let byte = byte_at(bytes, at);
    let is_point = byte == b'.' && byte_at(bytes, at + 1).is_ascii_digit();
    !(byte.is_ascii_alphabetic() || byte == b'_' || is_point)
}

/// The number at the front, if what stands there is one.
#[tactic(auto, unfolding(crate::specs::Numbers::literal_at))]
fn literal_at(bytes: &[u8]) -> Option<Literal>
    requires { is_ascii_digit (slice_index bytes.now 0) ≡ true }
    ensures value { result ≡ literal_at bytes.now }
    ensures digits { IfSome result (λ l. (l.digits.from ≤ l.digits.to) × (l.digits.to ≤ length bytes.now)) }
    ensures exponent { IfSome result (λ l. (0 < l.exponent.to) × (l.exponent.from ≤ l.exponent.to) × (l.exponent.to ≤ length bytes.now)) }
    ensures radix { IfSome result (λ l. (2 ≤ l.radix) × (l.radix ≤ 16)) }
{
    match mantissa_at(bytes) {
        None => None,
        Some(mantissa) => match exponent_at(mantissa.end, bytes) {
            Some(exponent) if ends_at(exponent.to, bytes) => Some(Literal {
                radix: mantissa.radix,
                digits: mantissa.digits,
                exponent,
            }),
            _ => None,
        },
    }
}

/// The digits times a power of the radix, or 2^128 - 1 where that is greater.
fn scaled(digits: u128, radix: u32, exponent: u128) -> u128
    requires { 2 ≤ radix }
    ensures { result ≡ min (digits * radix ^ exponent) (2 ^ 128 - 1) }
{
    let mut value = digits;
    for turn in 0..exponent.min(128) {
        value = value.saturating_mul(u128::from(radix));
    }
    value
}

/// The value of a number, if it is below 2^127.
fn literal_value(bytes: &[u8], literal: Literal) -> Option<i128>
    requires digits { (literal.digits.from ≤ literal.digits.to) × (literal.digits.to ≤ length bytes.now) }
    requires exponent { (literal.exponent.from ≤ literal.exponent.to) × (literal.exponent.to ≤ length bytes.now) }
    requires radix { 2 ≤ literal.radix }
    ensures { result ≡ (if nat_lt (literal_value bytes.now literal) (2 ^ 127) then Some (pos (literal_value bytes.now literal)) else None) }
{
    let digits = numeral_value(
        literal.radix,
        &bytes[literal.digits.from..literal.digits.to],
    );
    let exponent = numeral_value(10, &bytes[literal.exponent.from..literal.exponent.to]);
    let value = scaled(digits, literal.radix, exponent);
    if value < 1 << 127 {
        Some(value as i128)
    } else {
        None
    }
}

/// The number at the front, which is the place `at` of the text.
#[tactic(auto, unfolding(crate::specs::Numbers::number_at))]
pub fn number_at(at: u32, bytes: &[u8]) -> Result<Item, LexFault>
    requires { is_ascii_digit (slice_index bytes.now 0) ≡ true }
    ensures value { result ≡ number_at at bytes.now }
    ensures within { IfOk result (λ i. (1 ≤ i.length) × (i.length ≤ length bytes.now)) }
{
    let Some(literal) = literal_at(bytes) else {
        return Err(LexFault::BadNumber(at));
    };
    match literal_value(bytes, literal) {
        Some(value) => Ok(Item {
            kind: Some(TokenKind::Number(value)),
            length: literal.exponent.to,
        }),
        None => Err(LexFault::TooWide(at)),
    }
}
