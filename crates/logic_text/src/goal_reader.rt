//! Goals read from their texts.

ghost use Rattle.std.specs.Prelude.{◌≡◌, ◌≢◌, ◌+◌, ◌<◌, ◌≤◌, ◌++◌, ℕ, List, length, drop, map, IfOk, IfErr};
ghost use Rattle.logic_terms.specs.Goal.{problem};
ghost use Rattle.logic_terms.specs.View.{formula};
ghost use Rattle.term_reader.specs.Bytes.{first};
ghost use Rattle.logic_terms.specs.Text.{node_text};
ghost use Rattle.logic_text.specs.Answers.{IsPlain, IsGoalFault, most_goal_bytes};
ghost use Rattle.logic_text.specs.Goals.{line_end, hypotheses_text, conclusion_text, goal_bytes};
ghost use Rattle.term_reader.specs.Phases.{IsUpTo, IsBadAt};
ghost use Rattle.logic_text.specs.Phases.{AtStart, InLines, Rest, Line, Has};

use crate::fault::TextFault;
use crate::signature_reader::{read_calls_line, read_sorts_line};
use logic_terms::{Formula, FormulaList, Goal};
use sqlite_items::{Boxed, Items};
use std::alloc::Global;
use term_reader::{FormulaRead, ReadFault, byte_at, read_formula, read_word};

/// Longer texts are not read as goals.
pub const MOST_GOAL_BYTES: usize = 4_194_304;

/// Reads a line of a word and a formula.
fn read_line(alloc: Global, bytes: &[u8], at: usize, word: &[u8]) -> Result<FormulaRead, ReadFault>
    requires { at ≤ length bytes.now }
    ensures before { IfOk result (λ r. at < r.to) }
    ensures inside { IfOk result (λ r. r.to ≤ length bytes.now) }
    ensures text { IfOk result (λ r. drop at bytes.now ≡ (word.now ++ node_text (formula r.formula) ++ line_end) ++ drop r.to bytes.now) }
    ensures on { IfOk result (λ r. (n : Rest) → IsUpTo (Line word.now n) (drop at bytes.now) (Has n) (drop r.to bytes.now)) }
    ensures fault { IfErr result (λ f. (n : Rest) → IsBadAt (Line word.now n) bytes.now at f) }
{
    match read_word(bytes, at, word) {
        Err(to) => Err(ReadFault::BadText(to)),
        Ok(to) => match read_formula(alloc, bytes, to) {
            Err(fault) => Err(fault),
            Ok(read) => match read_word(bytes, read.to, b"\n") {
                Err(to) => Err(ReadFault::BadText(to)),
                Ok(to) => Ok(FormulaRead {
                    formula: read.formula,
                    to,
                }),
            },
        },
    }
}

/// Reads the line of a hypothesis.
fn read_hypothesis(
    alloc: Global,
    bytes: &[u8],
    at: usize,
    hypotheses: &mut FormulaList,
) -> Result<usize, ReadFault>
    requires place { at ≤ length bytes.now }
    requires letter { first (drop at bytes.now) ≡ 104 }
    ensures before { IfOk result (λ to. at < to) }
    ensures inside { IfOk result (λ to. to ≤ length bytes.now) }
    ensures text { IfOk result (λ to. (s : List ℕ)
        → s ≡ hypotheses_text (map formula hypotheses.old) ++ drop at bytes.now
        → s ≡ hypotheses_text (map formula hypotheses.new) ++ drop to bytes.now) }
    ensures on { IfOk result (λ to. IsUpTo InLines (drop at bytes.now) InLines (drop to bytes.now)) }
    ensures fault { IfErr result (λ f. IsBadAt InLines bytes.now at f) }
{
    match read_line(alloc, bytes, at, b"hyp ") {
        Err(fault) => Err(fault),
        Ok(read) => match hypotheses.push(read.formula.into_inner()) {
            Err(_) => Err(ReadFault::Starved),
            Ok(()) => Ok(read.to),
        },
    }
}

/// Hypotheses that are read, and the place after them.
#[derive(Drop)]
struct Hypotheses {
    hypotheses: FormulaList,
    to: usize,
}

/// Reads the lines of the hypotheses.
#[tactic(auto, using(term_reader::proofs::Reaching::upto_start, term_reader::proofs::Places::bad_at, term_reader::proofs::Places::steps_at))]
fn read_hypotheses(alloc: Global, bytes: &[u8], at: usize) -> Result<Hypotheses, ReadFault>
    requires { at ≤ length bytes.now }
    ensures inside { IfOk result (λ r. r.to ≤ length bytes.now) }
    ensures text { IfOk result (λ r. drop at bytes.now ≡ hypotheses_text (map formula r.hypotheses) ++ drop r.to bytes.now) }
    ensures next { IfOk result (λ r. first (drop r.to bytes.now) ≢ 104) }
    ensures on { IfOk result (λ r. IsUpTo InLines (drop at bytes.now) InLines (drop r.to bytes.now)) }
    ensures fault { IfErr result (λ f. IsBadAt InLines bytes.now at f) }
{
    let mut hypotheses = Items::new(alloc);
    let mut to = at;
    while byte_at(bytes, to) == 104 {
        match read_hypothesis(alloc, bytes, to, &mut hypotheses) {
            Err(fault) => return Err(fault),
            Ok(next) => to = next,
        }
    }
    Ok(Hypotheses { hypotheses, to })
}

/// Reads the line of the conclusion, which is the last.
#[tactic(auto, using(crate::proofs::Formulas::last_text))]
fn read_conclusion(alloc: Global, bytes: &[u8], at: usize) -> Result<Boxed<Formula>, ReadFault>
    requires place { at ≤ length bytes.now }
    requires letter { first (drop at bytes.now) ≢ 104 }
    ensures text { IfOk result (λ p. drop at bytes.now ≡ conclusion_text (formula p)) }
    ensures fault { IfErr result (λ f. IsBadAt InLines bytes.now at f) }
{
    match read_line(alloc, bytes, at, b"goal ") {
        Err(fault) => Err(fault),
        Ok(read) => {
            if read.to == bytes.len() {
                Ok(read.formula)
            } else {
                Err(ReadFault::BadText(read.to))
            }
        }
    }
}

/// Formulas that are read.
#[derive(Drop)]
struct Formulas {
    hypotheses: FormulaList,
    conclusion: Boxed<Formula>,
}

/// Reads the lines of the hypotheses and of the conclusion.
fn read_formulas(alloc: Global, bytes: &[u8], at: usize) -> Result<Formulas, ReadFault>
    requires { at ≤ length bytes.now }
    ensures text { IfOk result (λ r. drop at bytes.now ≡ hypotheses_text (map formula r.hypotheses) ++ conclusion_text (formula r.conclusion)) }
    ensures fault { IfErr result (λ f. IsBadAt InLines bytes.now at f) }
{
    match read_hypotheses(alloc, bytes, at) {
        Err(fault) => Err(fault),
        Ok(read) => match read_conclusion(alloc, bytes, read.to) {
            Err(fault) => Err(fault),
            Ok(conclusion) => Ok(Formulas {
                hypotheses: read.hypotheses,
                conclusion,
            }),
        },
    }
}

/// Reads a goal.
fn read_whole(alloc: Global, bytes: &[u8]) -> Result<Goal, ReadFault>
    ensures text { IfOk result (λ g. goal_bytes (problem g) ≡ bytes.now) }
    ensures plain { IfOk result IsPlain }
    ensures fault { IfErr result (λ f. IsBadAt AtStart bytes.now 0 f) }
{
    match read_sorts_line(alloc, bytes) {
        Err(fault) => Err(fault),
        Ok(sorts) => match read_calls_line(alloc, bytes, sorts.to) {
            Err(fault) => Err(fault),
            Ok(calls) => match read_formulas(alloc, bytes, calls.to) {
                Err(fault) => Err(fault),
                Ok(read) => Ok(Goal {
                    symbols: sorts.symbols,
                    calls: calls.calls,
                    hypotheses: read.hypotheses,
                    conclusion: read.conclusion.into_inner(),
                }),
            },
        },
    }
}

/// The goal of a text, without roles and numbers of subprograms. `TooLong` comes exactly where the text has more than
/// `MOST_GOAL_BYTES` bytes. Where it has no more, `BadText` is the first byte, or the end, after which no text of a goal
/// goes on so. `Starved` comes where memory was refused, or where more than `MOST_LEVELS` brackets are open.
pub fn read_goal(alloc: Global, bytes: &[u8]) -> Result<Goal, TextFault>
    ensures text { IfOk result (λ g. goal_bytes (problem g) ≡ bytes.now) }
    ensures short { IfOk result (λ g. length bytes.now ≤ most_goal_bytes) }
    ensures plain { IfOk result IsPlain }
    ensures fault { IfErr result (λ f. IsGoalFault bytes.now f) }
{
    if bytes.len() > MOST_GOAL_BYTES {
        return Err(TextFault::TooLong);
    }
    match read_whole(alloc, bytes) {
        Err(fault) => Err(TextFault::from(fault)),
        Ok(goal) => Ok(goal),
    }
}
