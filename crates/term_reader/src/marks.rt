//! A word at a place of a text.

ghost use Rattle.std.specs.Prelude.{◌≡◌, ◌+◌, ◌≤◌, ◌++◌, length, drop, IfOk, IfErr};
ghost use Rattle.term_reader.specs.Words.{IsWordFault};

use crate::table::common;

/// The place after a word that is to stand at a place. The error is the first byte that is another.
#[tactic(auto, using(crate::proofs::WordPlaces::word_whole, crate::proofs::WordPlaces::word_fault))]
pub fn read_word(bytes: &[u8], at: usize, word: &[u8]) -> Result<usize, usize>
    requires { at ≤ length bytes.now }
    ensures to { IfOk result (λ to. to ≡ at + length word.now) }
    ensures inside { IfOk result (λ to. to ≤ length bytes.now) }
    ensures text { IfOk result (λ to. drop at bytes.now ≡ word.now ++ drop to bytes.now) }
    ensures place { IfErr result (λ to. to ≤ length bytes.now) }
    ensures fault { IfErr result (λ to. IsWordFault word.now (drop at bytes.now) (drop to bytes.now)) }
{
    let agreed = common(word, bytes, at);
    if agreed == word.len() {
        Ok(at + agreed)
    } else {
        Err(at + agreed)
    }
}
