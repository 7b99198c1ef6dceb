//! The word of a table that a text goes on with.

ghost use Rattle.std.specs.Prelude.{◌≡◌, ◌+◌, ◌<◌, ◌≤◌, ◌++◌, ℕ, length, drop, map, slice_index_or, IfOk, IfErr};
ghost use Rattle.term_reader.specs.Words.{common_of, word_at, IsNoWord};

use crate::bytes::byte_at;

/// How many bytes a word has in common with the text at a place.
#[tactic(auto, using(crate::proofs::Choosing::common_stop, crate::proofs::Choosing::common_end))]
pub fn common(word: &[u8], bytes: &[u8], at: usize) -> usize
    requires { at ≤ length bytes.now }
    ensures count { result ≡ common_of word.now (drop at bytes.now) }
    ensures inside { at + result ≤ length bytes.now }
    ensures word { (i : ℕ) → slice_index_or word.now i 0 < 256 }
{
    let mut agreed = 0;
    while agreed < word.len() {
        if byte_at(bytes, at + agreed) != word[agreed] as u16 {
            return agreed;
        }
        agreed += 1;
    }
    agreed
}

/// The place of a word in a table, from 0, and the place in the text after the word.
#[derive(Clone, Copy)]
pub struct WordPlace {
    pub place: usize,
    pub to: usize,
}

/// The first word of a table that stands at a place of a text. The error is the first byte after which none of the words
/// goes on so.
pub fn word_among<W>(table: &[(&[u8], W)], bytes: &[u8], at: usize) -> Result<WordPlace, usize>
    requires table { 0 < length table.now }
    requires place { at ≤ length bytes.now }
    ensures place { IfOk result (λ f. f.place < length table.now) }
    ensures to { IfOk result (λ f. f.to ≡ at + length (word_at (map (λ w. w.0.now) table.now) f.place)) }
    ensures inside { IfOk result (λ f. f.to ≤ length bytes.now) }
    ensures text { IfOk result (λ f. drop at bytes.now ≡ word_at (map (λ w. w.0.now) table.now) f.place ++ drop f.to bytes.now) }
    ensures fault_place { IfErr result (λ to. to ≤ length bytes.now) }
    ensures fault { IfErr result (λ to. IsNoWord (map (λ w. w.0.now) table.now) (drop at bytes.now) (drop to bytes.now)) }
{
    let mut furthest = 0;
    for place in 0..table.len() {
        let word = table[place].0;
        let agreed = common(word, bytes, at);
        if agreed == word.len() {
            return Ok(WordPlace {
                place,
                to: at + agreed,
            });
        }
        furthest = furthest.max(agreed);
    }
    Err(at + furthest)
}
