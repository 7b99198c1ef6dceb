//! A bracket and what stands after it.

ghost use Rattle.std.specs.Prelude.{◌≡◌, ◌<◌, ◌≤◌, ◌++◌, ℕ, List, true, false, length, drop, IfOk, IfErr};
ghost use Rattle.term_reader.specs.Bytes.{first, is_digit, IsFault};
ghost use Rattle.term_reader.specs.Trees.{build_text, ends_in_number, gives};
ghost use Rattle.term_reader.specs.Words.{word, IsBuild};
ghost use Rattle.term_reader.specs.Operators.{build};

use crate::number::read_number;
use crate::operator::Operator;
use crate::part::Side;
use crate::words::{Chosen, choose};

/// What stands after a bracket, and the place after it.
#[derive(Clone, Copy)]
pub struct Opening {
    pub operator: Operator,
    pub to: usize,
}

/// What stands after a bracket, with the number that follows its word.
fn number_after(bytes: &[u8], chosen: Chosen, side: Side) -> Result<Opening, usize>
    requires place { chosen.to ≤ length bytes.now }
    requires side { gives (build chosen.operator) ≡ side }
    requires numbered { ends_in_number (build chosen.operator) ≡ true }
    ensures before { IfOk result (λ o. chosen.to < o.to) }
    ensures inside { IfOk result (λ o. o.to ≤ length bytes.now) }
    ensures text { IfOk result (λ o. (s : List ℕ) → s ≡ word (build chosen.operator) ++ drop chosen.to bytes.now → s ≡ build_text (build o.operator) ++ drop o.to bytes.now) }
    ensures build { IfOk result (λ o. IsBuild side (build o.operator)) }
    ensures ends { IfOk result (λ o. is_digit (first (drop o.to bytes.now)) ≡ false) }
    ensures place { IfErr result (λ to. to ≤ length bytes.now) }
    ensures fault { IfErr result (λ to. (s : List ℕ) → s ≡ word (build chosen.operator) ++ drop chosen.to bytes.now → IsFault (IsBuild side) build_text s (drop to bytes.now)) }
{
    match read_number(bytes, chosen.to, 0, u32::MAX as u128) {
        Err(to) => Err(to),
        Ok(number) => Ok(Opening {
            operator: chosen.operator.with_number(number.value as u32),
            to: number.to,
        }),
    }
}

/// What stands after a bracket, with its number where it has one. The error is the first byte after which nothing that
/// gives this side goes on so.
#[tactic(auto, using(crate::proofs::Openings::word_fault, crate::proofs::Openings::plain_opening, crate::proofs::Openings::plain_build))]
pub fn read_opening(bytes: &[u8], at: usize, side: Side) -> Result<Opening, usize>
    requires { at ≤ length bytes.now }
    ensures before { IfOk result (λ o. at < o.to) }
    ensures inside { IfOk result (λ o. o.to ≤ length bytes.now) }
    ensures text { IfOk result (λ o. drop at bytes.now ≡ build_text (build o.operator) ++ drop o.to bytes.now) }
    ensures build { IfOk result (λ o. IsBuild side (build o.operator)) }
    ensures ends { IfOk result (λ o. ends_in_number (build o.operator) ≡ true → is_digit (first (drop o.to bytes.now)) ≡ false) }
    ensures place { IfErr result (λ to. to ≤ length bytes.now) }
    ensures fault { IfErr result (λ to. IsFault (IsBuild side) build_text (drop at bytes.now) (drop to bytes.now)) }
{
    match choose(bytes, at, side) {
        Err(to) => Err(to),
        Ok(chosen) => {
            if chosen.operator.is_numbered() {
                match number_after(bytes, chosen, side) {
                    Err(to) => Err(to),
                    Ok(opening) => Ok(opening),
                }
            } else {
                Ok(Opening {
                    operator: chosen.operator,
                    to: chosen.to,
                })
            }
        }
    }
}
