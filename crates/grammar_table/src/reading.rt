//! The derivation of a token list.

ghost use Rattle.std.specs.Prelude.{◌≡◌, ◌≢◌, ◌<◌, ◌^◌, List, Result, IfErr, IfOk, length};
ghost use Rattle.grammar_table.specs.Answers.{Derives, IsAnswer, IsFault, terminals};
ghost use Rattle.grammar_table.specs.Productions.{productions};
ghost use Rattle.grammar_table.specs.declared.answers.Derivation.{Derivation};
ghost use Rattle.grammar_table.specs.declared.answers.SyntaxFault.{SyntaxFault};
ghost use Rattle.grammar_table.specs.declared.symbols.Terminal.{Terminal};

use crate::answers::{Derivation, SyntaxFault};
use crate::grammar::Grammar;
use crate::run::{Progress, Run};
use crate::symbols::Terminal;
use ada_text::{Token, TokenList};
use std::alloc::Global;

/// The same, over tokens in a row.
fn derive_by(alloc: Global, grammar: &Grammar, tokens: &[Token]) -> Result<Derivation, SyntaxFault>
    requires { length tokens.now < 2 ^ 32 }
    ensures ok { IfOk result (λ d. Derives productions (terminals tokens.now) d.productions) }
    ensures fault { IfErr result (λ f. f ≢ SyntaxFault.Starved → IsFault productions (terminals tokens.now) f) }
{
    let mut run = Run::new(alloc)?;
    for (at, token) in tokens.iter().enumerate() {
        match run.read(grammar, Terminal::of(token.kind))? {
            Progress::Taken => {}
            Progress::Unexpected => return Err(SyntaxFault::Unexpected(at as u32)),
            Progress::TooDeep => return Err(SyntaxFault::TooDeep(at as u32)),
        }
    }
    run.finish(grammar, tokens.len() as u32)
}

/// The leftmost derivation of fewer than 2^32 tokens. `Unexpected` is the first token, or the end, after which nothing
/// that can be derived goes on so; `TooDeep` is the token that opens level 201; of these the first comes. `Starved`
/// comes where memory was refused.
pub fn derive(
    alloc: Global,
    grammar: &Grammar,
    tokens: &TokenList,
) -> Result<Derivation, SyntaxFault>
    requires { length tokens.now < 2 ^ 32 }
    ensures ok { IfOk result (λ d. Derives productions (terminals tokens.now) d.productions) }
    ensures fault { IfErr result (λ f. f ≢ SyntaxFault.Starved → IsFault productions (terminals tokens.now) f) }
{
    derive_by(alloc, grammar, tokens.as_slice())
}

/// At most one answer is right for a list of tokens: they have at most one derivation, and none where a fault is right,
/// and the fault and its token are determined.
pub fn one_answer()
    ensures { (ts : List Terminal) (a b : Result Derivation SyntaxFault)
        → IsAnswer productions ts a
        → IsAnswer productions ts b
        → a ≡ b }
{}
