//! Bytes at the front of a text.

ghost use Rattle.std.specs.Prelude.{◌≡◌, ◌≢◌, ◌<◌, ◌≤◌, ◌+◌, true, length, slice_index};
ghost use Rattle.std.specs.Char.{digit_value};
ghost use Rattle.std.specs.List.{prefix_len};
ghost use Rattle.ada_text.specs.Bytes.{is_blank, is_digit_of, is_in_line, joined_length, numeral_length, skipped};

/// The byte at a place, or 0 past the end.
pub fn byte_at(bytes: &[u8], at: usize) -> u8
    ensures value { result ≡ slice_index bytes.now at }
    ensures within { result ≢ 0 → at < length bytes.now }
{
    if at < bytes.len() { bytes[at] } else { 0 }
}

/// Whether a byte is white space.
pub fn is_blank(byte: u8) -> bool
    ensures { result ≡ is_blank byte }
{
    byte == b' ' || (9 <= byte && byte <= 13)
}

/// The value of a digit or a letter, from 0 to 35, or 36 for any other byte.
pub fn digit_value(byte: u8) -> u32
    ensures value { result ≡ digit_value byte }
    ensures small { result ≤ 36 }
{
    match byte {
        b'0'..=b'9' => u32::from(byte - b'0'),
        b'A'..=b'Z' => u32::from(byte - b'A') + 10,
        b'a'..=b'z' => u32::from(byte - b'a') + 10,
        _ => 36,
    }
}

/// Whether a byte is a digit of the radix.
pub fn is_digit_of(radix: u32, byte: u8) -> bool
    ensures { result ≡ is_digit_of radix byte }
{
    digit_value(byte) < radix
}

/// How many bytes at the front are digits of the radix, or single underscores before one.
fn joined_length(radix: u32, bytes: &[u8]) -> usize
    requires { radix ≤ 36 }
    ensures value { result ≡ joined_length radix bytes.now }
    ensures within { result ≤ length bytes.now }
    ensures moves { is_digit_of radix (slice_index bytes.now 0) ≡ true → 0 < result }
{
    for (at, byte) in bytes.iter().enumerate() {
        let is_joint = *byte == b'_' && is_digit_of(radix, byte_at(bytes, at + 1));
        if !(is_digit_of(radix, *byte) || is_joint) {
            return at;
        }
    }
    bytes.len()
}

/// How many bytes at the front are digits of the radix with single underscores between them.
#[tactic(auto, unfolding(crate::specs::Bytes::numeral_length))]
pub fn numeral_length(radix: u32, bytes: &[u8]) -> usize
    requires { radix ≤ 36 }
    ensures value { result ≡ numeral_length radix bytes.now }
    ensures within { result ≤ length bytes.now }
    ensures moves { is_digit_of radix (slice_index bytes.now 0) ≡ true → 0 < result }
{
    if is_digit_of(radix, byte_at(bytes, 0)) {
        joined_length(radix, bytes)
    } else {
        0
    }
}

/// How many bytes at the front belong to the line, without its end.
pub fn line_length(bytes: &[u8]) -> usize
    ensures value { result ≡ prefix_len is_in_line bytes.now }
    ensures within { result ≤ length bytes.now }
{
    for (at, byte) in bytes.iter().enumerate() {
        if *byte == b'\n' {
            return at;
        }
    }
    bytes.len()
}

/// How many bytes at the start of a file are skipped.
#[tactic(auto, unfolding(crate::specs::Bytes::skipped))]
pub fn skipped(text: &[u8]) -> usize
    ensures value { result ≡ skipped text.now }
    ensures within { result ≤ length text.now }
{
    if text.starts_with(b"\xef\xbb\xbf") {
        3
    } else {
        0
    }
}
