//! The grammar.

ghost use Rattle.std.specs.Prelude.{◌≡◌, ◌<◌, ◌+◌, ◌^◌, ℕ, length, map, slice_index};
ghost use Rattle.grammar_table.specs.Choices.{first_from, heads, predict};
ghost use Rattle.grammar_table.specs.Parses.{right_of};
ghost use Rattle.grammar_table.specs.Productions.{production, productions};

use crate::choices::choose;
use crate::productions::{ROWS, Row};
use crate::symbols::{Nonterminal, Symbol, Terminal};
use sqlite_items::at;
use std::marker::Model;

/// How many nonterminals there are.
const NONTERMINALS: usize = 81;

/// The grammar of the profile, which contracts see as the list of its productions. Its table is LL(1): the next token, or
/// the end, says which production replaces a phrase.
#[derive(Drop)]
pub struct Grammar {
    /// The number of the first row of each nonterminal.
    firsts: [u8; NONTERMINALS],
}

impl Model for Grammar {
    ghost use Rattle.std.specs.Prelude.{List};
    ghost use Rattle.grammar_table.specs.Choices.{AreFirsts};
    ghost use Rattle.grammar_table.specs.Parses.{Production};
    ghost use Rattle.grammar_table.specs.Productions.{productions};

    ghost Value = { List Production };

    ghost view = { λ _. productions };

    ghost invariant = { λ g. AreFirsts g.firsts };
}

impl Grammar {
    /// The right side of a production, by its number from 0; nothing where there is no production of this number.
    pub fn right_of(&self, number: u8) -> &'static [Symbol]
        ensures right { result.now ≡ right_of productions number }
        ensures productions { self.now ≡ productions }
    {
        let _ = &self.firsts;
        right_of(number)
    }

    /// The production that replaces a phrase before a token or the end, if there is one.
    pub fn predict(&self, phrase: Nonterminal, next: Option<Terminal>) -> Option<u8>
        ensures { result ≡ predict phrase next }
    {
        choose(rows(), self.firsts[phrase as usize], phrase, next)
    }
}

/// The rows of the table.
#[tactic(auto, unfolding(crate::specs::Choices::heads, crate::specs::Productions::productions))]
fn rows() -> &'static [Row]
    ensures heads { map (λ r. r.0) result.now ≡ heads }
    ensures productions { map (λ r. production r.0.left r.1.now) result.now ≡ productions }
    ensures count { length result.now ≡ 186 }
{
    &ROWS
}

/// The right side of a row, by its number; nothing where there is no row of this number.
fn right_among(rows: &'static [Row], number: u8) -> &'static [Symbol]
    ensures { result.now ≡ right_of (map (λ r. production r.0.left r.1.now) rows.now) number }
{
    match at(rows, number as usize) {
        Some(row) => row.1,
        None => &[],
    }
}

/// The right side of a production, by its number; nothing where there is no production of this number.
pub fn right_of(number: u8) -> &'static [Symbol]
    ensures { result.now ≡ right_of productions number }
{
    right_among(rows(), number)
}

/// The number of the first row of a nonterminal, by the place of its name; the number of rows where it has none.
fn first_row(mut rows: &[Row], phrase: u32) -> u8
    requires { length rows.now < 2 ^ 8 }
    ensures { result ≡ first_from phrase 0 (map (λ r. r.0) rows.entry.now) }
{
    let mut number = 0;
    while let [row, rest @ ..] = rows {
        if row.0.left as u32 == phrase {
            return number;
        }
        number += 1;
        rows = rest;
    }
    number
}

/// The first rows of the nonterminals, in their order.
fn first_rows(rows: &[Row]) -> [u8; NONTERMINALS]
    requires { length rows.now < 2 ^ 8 }
    ensures { (phrase : ℕ) → phrase < 81 → slice_index result phrase ≡ first_from phrase 0 (map (λ r. r.0) rows.now) }
{
    let mut firsts = [0; NONTERMINALS];
    for phrase in 0..NONTERMINALS {
        firsts[phrase] = first_row(rows, phrase as u32);
    }
    firsts
}

/// The grammar of the profile.
pub fn spark_grammar() -> Grammar
    ensures { result ≡ productions }
{
    Grammar {
        firsts: first_rows(rows()),
    }
}
