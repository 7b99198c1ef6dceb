//! Which production replaces a phrase before which token.

ghost use Rattle.std.specs.Prelude.{◌≡◌, ◌<◌, ◌+◌, ◌^◌, drop, length, map};
ghost use denote.Enum.Declared.{tag_of};
ghost use Rattle.grammar_table.specs.contracts.symbols.Nonterminal as nonterminal;
ghost use Rattle.grammar_table.specs.Choices.{has, pick, place};

use crate::productions::{FIRST_MARK, FIRST_WORD, Row, TokenSet};
use crate::symbols::Nonterminal;
use crate::symbols::Terminal::{self, Identifier, Mark, Number, Word};

/// The place of a token in sets of tokens, and 0 for the end.
pub fn place(next: Option<Terminal>) -> u32
    ensures value { result ≡ place next }
    ensures fits { result < 128 }
{
    match next {
        None => 0,
        Some(Identifier) => 1,
        Some(Number) => 2,
        Some(Word(word)) => FIRST_WORD + word as u32,
        Some(Mark(mark)) => FIRST_MARK + mark as u32,
    }
}

/// Whether a set has the token at a place.
#[tactic(auto, unfolding(crate::specs::Choices::has))]
fn has(set: TokenSet, token: u32) -> bool
    requires { token < 128 }
    ensures { result ≡ has set token }
{
    (set >> token) % 2 == 1
}

/// The number of the first of these rows that is of the phrase and has the next token, of those at the front that are of
/// the phrase. The phrase and the token are given by their places. The rows count from `number`.
fn among(mut rows: &[Row], mut number: u8, phrase: u32, token: u32) -> Option<u8>
    requires count { number + length rows.now < 2 ^ 8 }
    requires token { token < 128 }
    ensures { result ≡ pick phrase token number (map (λ r. r.0) rows.entry.now) }
{
    while let [row, rest @ ..] = rows {
        if row.0.left as u32 != phrase {
            return None;
        }
        if has(row.0.before, token) {
            return Some(number);
        }
        number += 1;
        rows = rest;
    }
    None
}

/// The number of the row that replaces a phrase, whose first row has this number.
#[tactic(auto, using(crate::proofs::Firsts::none_past))]
pub fn choose(rows: &[Row], first: u8, phrase: Nonterminal, next: Option<Terminal>) -> Option<u8>
    requires { length rows.now < 2 ^ 8 }
    ensures { result ≡ pick (tag_of nonterminal.the_type phrase) (place next) first (drop first (map (λ r. r.0) rows.now)) }
{
    let front = first as usize;
    if front < rows.len() {
        among(&rows[front..], first, phrase as u32, place(next))
    } else {
        None
    }
}
