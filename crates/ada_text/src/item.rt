//! What stands at the front of a text.

ghost use Rattle.std.specs.Prelude.{◌≡◌, ◌≤◌, ◌<◌, IfOk, IfSome, true, codes, length, map, nat_eq, slice_index};
ghost use Rattle.std.specs.List.{starts_with};
ghost use Rattle.std.specs.Char.{is_ascii_alphabetic};
ghost use Rattle.std.specs.Str.{str_eq_ignore_ascii_case};
ghost use Rattle.ada_text.specs.Delimiters.{mark_at, mark_by, pair_among, single_among};
ghost use Rattle.ada_text.specs.Tokens.{item_at, word_at};
ghost use Rattle.ada_text.specs.Words.{letter_of, row_of, word_among, word_kind, words_of};

use crate::bytes::{byte_at, is_blank, line_length, numeral_length};
use crate::delimiters::{Delimiter, PAIRS, SINGLES};
use crate::number::number_at;
use crate::reserved::{Reserved, WORDS_BY_LETTER};
use crate::token::{LexFault, TokenKind};

/// A token, or white space or a comment, which have no kind.
#[derive(Clone, Copy, Debug)]
pub struct Item {
    pub kind: Option<TokenKind>,
    /// In bytes, at least 1.
    pub length: usize,
}

/// Whether two texts are one, without regard to case.
fn same_word(a: &[u8], b: &[u8]) -> bool
    ensures { result ≡ str_eq_ignore_ascii_case a.now b.now }
{
    a.eq_ignore_ascii_case(b)
}

/// The reserved word of a table that a text is, in any case.
fn word_among(mut table: &[(&[u8], Reserved)], text: &[u8]) -> Option<Reserved>
    ensures { result ≡ word_among (map (λ w. (w.0.now, w.1)) table.entry.now) text.now }
{
    while let [entry, rest @ ..] = table {
        if same_word(entry.0, text) {
            return Some(entry.1);
        }
        table = rest;
    }
    None
}

/// The words of a row of a table.
fn row_of(
    table: &'static [&'static [(&'static [u8], Reserved)]],
    number: usize,
) -> &'static [(&'static [u8], Reserved)]
    requires { number < length table.now }
    ensures { map (λ w. (w.0.now, w.1)) result.now ≡ row_of (map (λ r. map (λ w. (w.0.now, w.1)) r.now) table.now) number }
{
    table[number]
}

/// The reserved words that begin with a letter in lower case; none where it is no letter.
#[tactic(auto, unfolding(crate::specs::Words::words_of, crate::specs::Words::words_by_letter))]
fn words_of(letter: u8) -> &'static [(&'static [u8], Reserved)]
    ensures { map (λ w. (w.0.now, w.1)) result.now ≡ words_of letter }
{
    if b'a' <= letter && letter <= b'z' {
        row_of(&WORDS_BY_LETTER, usize::from(letter - b'a'))
    } else {
        &[]
    }
}

/// The reserved word that a text is, or an identifier.
#[tactic(auto, using(crate::proofs::Letters::word_of_letter), unfolding(crate::specs::Words::word_kind))]
fn word_kind(text: &[u8]) -> TokenKind
    ensures { result ≡ word_kind text.now }
{
    let letter = byte_at(text, 0).to_ascii_lowercase();
    match word_among(words_of(letter), text) {
        Some(word) => TokenKind::Word(word),
        None => TokenKind::Id,
    }
}

/// The identifier or reserved word at the front.
#[tactic(auto, unfolding(crate::specs::Tokens::word_at))]
fn word_at(bytes: &[u8]) -> Item
    requires { is_ascii_alphabetic (slice_index bytes.now 0) ≡ true }
    ensures value { result ≡ word_at bytes.now }
    ensures within { (1 ≤ result.length) × (result.length ≤ length bytes.now) }
{
    let length = numeral_length(36, bytes);
    Item {
        kind: Some(word_kind(&bytes[..length])),
        length,
    }
}

/// The first delimiter of a table of pairs of bytes that these are.
fn pair_among(mut table: &[(u8, u8, Delimiter)], first: u8, second: u8) -> Option<Delimiter>
    ensures { result ≡ pair_among table.entry.now first second }
{
    while let [entry, rest @ ..] = table {
        if entry.0 == first && entry.1 == second {
            return Some(entry.2);
        }
        table = rest;
    }
    None
}

/// The first delimiter of a table of bytes that this is.
fn single_among(mut table: &[(u8, Delimiter)], byte: u8) -> Option<Delimiter>
    ensures { result ≡ single_among table.entry.now byte }
{
    while let [entry, rest @ ..] = table {
        if entry.0 == byte {
            return Some(entry.1);
        }
        table = rest;
    }
    None
}

/// The delimiter that begins with these bytes.
#[tactic(auto, unfolding(crate::specs::Delimiters::mark_by))]
fn mark_by(first: u8, second: u8) -> Option<Item>
    ensures { result ≡ mark_by first second }
{
    if let Some(mark) = pair_among(&PAIRS, first, second) {
        return Some(Item {
            kind: Some(TokenKind::Mark(mark)),
            length: 2,
        });
    }
    match single_among(&SINGLES, first) {
        Some(mark) => Some(Item {
            kind: Some(TokenKind::Mark(mark)),
            length: 1,
        }),
        None => None,
    }
}

/// The delimiter at the front.
fn mark_at(bytes: &[u8]) -> Option<Item>
    ensures value { result ≡ mark_at bytes.now }
    ensures within { IfSome result (λ i. (1 ≤ i.length) × (i.length ≤ length bytes.now)) }
{
    mark_by(byte_at(bytes, 0), byte_at(bytes, 1))
}

/// Whether a comment begins at the front.
#[tactic(auto, using(crate::proofs::Marks::starts_two))]
fn is_comment(bytes: &[u8]) -> bool
    ensures value { result ≡ starts_with nat_eq bytes.now (codes "--") }
    ensures within { result ≡ true → 2 ≤ length bytes.now }
{
    byte_at(bytes, 0) == b'-' && byte_at(bytes, 1) == b'-'
}

/// What stands at the front, which is the place `at` of the text.
#[tactic(auto, unfolding(crate::specs::Tokens::item_at))]
pub fn item_at(at: u32, bytes: &[u8]) -> Result<Item, LexFault>
    requires { 0 < length bytes.now }
    ensures value { result ≡ item_at at bytes.now }
    ensures within { IfOk result (λ i. (1 ≤ i.length) × (i.length ≤ length bytes.now)) }
{
    let byte = byte_at(bytes, 0);
    if is_blank(byte) {
        Ok(Item {
            kind: None,
            length: 1,
        })
    } else if is_comment(bytes) {
        Ok(Item {
            kind: None,
            length: 2 + line_length(&bytes[2..]),
        })
    } else if byte.is_ascii_alphabetic() {
        Ok(word_at(bytes))
    } else if byte.is_ascii_digit() {
        number_at(at, bytes)
    } else {
        mark_at(bytes).ok_or(LexFault::BadByte(at))
    }
}
