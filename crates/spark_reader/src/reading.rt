//! The reader.

ghost use Rattle.std.specs.Prelude.{◌≡◌, ◌≢◌, ◌≤◌, ◌<◌, ◌^◌, IfErr, IfOk, length};
ghost use Rattle.ada_text.specs.Tokens.{AreInOrder};
ghost use Rattle.spark_reader.specs.Reads.{Reads, Refuses, of_syntax, token_of, token_place};

use crate::refusal::ReadRefusal;
use ada_text::{Token, tokens};
use ada_tree::{SourceUnit, build};
use grammar_table::{SyntaxFault, derive, spark_grammar};
use sqlite_items::at;
use std::alloc::Global;

/// The number of the token at which the grammar refuses.
fn token_of(fault: SyntaxFault) -> u32
    ensures { result ≡ token_of fault }
{
    match fault {
        SyntaxFault::Unexpected(number) => number,
        SyntaxFault::TooDeep(number) => number,
        SyntaxFault::Starved => 0,
    }
}

/// Where the token of a number begins; after the last one comes the end.
fn token_place(tokens: &[Token], number: u32, end: u32) -> u32
    ensures { result ≡ token_place tokens.now number end }
{
    match at(tokens, number as usize) {
        Some(token) => token.span.from,
        None => end,
    }
}

/// The refusal by the grammar of a text that has these tokens and ends at this place.
fn syntax_refusal(fault: SyntaxFault, tokens: &[Token], end: u32) -> ReadRefusal
    ensures { result ≡ of_syntax fault (token_place tokens.now (token_of fault) end) }
{
    match fault {
        SyntaxFault::Starved => ReadRefusal::Starved,
        _ => ReadRefusal::Syntax(fault, token_place(tokens, token_of(fault), end)),
    }
}

/// The syntax tree of a text of fewer than 2^32 bytes.
///
/// `Lex` is the first fault of its tokens, and `Syntax` that of the grammar, where the tokens have none, with its place in
/// the text. `Starved` comes where memory was refused.
pub fn read(alloc: Global, text: &[u8]) -> Result<SourceUnit, ReadRefusal>
    requires { length text.now < 2 ^ 32 }
    ensures ok { IfOk result (λ unit. Reads text.now unit) }
    ensures refused { IfErr result (λ r. r ≢ ReadRefusal.Starved → Refuses text.now r) }
{
    let found = tokens(alloc, text)?;
    match derive(alloc, &spark_grammar(), &found) {
        Ok(derivation) => Ok(build(alloc, &derivation, &found)?),
        Err(fault) => Err(syntax_refusal(fault, found.as_slice(), text.len() as u32)),
    }
}
