//! Tokens and places.

ghost use Rattle.std.specs.Prelude.{◌<◌, ◌^◌, length};

use ada_text::{Token, line_col, tokens};
use std::alloc::{AllocError, Global};

fn push_token(out: &mut String, token: &Token) -> Result<(), AllocError> {
    let kind = token.kind;
    let (from, to) = (token.span.from, token.span.to);
    write!(out, "{kind:?} {from}-{to}; ")
}

fn push_list(out: &mut String, tokens: &[Token]) -> Result<(), AllocError> {
    for token in tokens {
        push_token(out, token)?;
    }
    out.push_str("end")
}

/// Each token with the bytes that it spans, and `end`; or the first fault with the byte where it stands.
pub fn push_tokens(alloc: Global, out: &mut String, text: &[u8]) -> Result<(), AllocError>
    requires { length text.now < 2 ^ 31 }
{
    match tokens(alloc, text) {
        Ok(found) => push_list(out, found.as_slice()),
        Err(fault) => write!(out, "{fault:?}"),
    }
}

/// How many tokens there are, or the first fault.
pub fn push_count(alloc: Global, out: &mut String, text: &[u8]) -> Result<(), AllocError>
    requires { length text.now < 2 ^ 31 }
{
    match tokens(alloc, text) {
        Ok(found) => {
            let count = found.len();
            write!(out, "{count}")
        }
        Err(fault) => write!(out, "{fault:?}"),
    }
}

/// The line and the column of each place, up to the one after the last byte.
pub fn push_places(out: &mut String, text: &[u8]) -> Result<(), AllocError>
    requires { length text.now < 2 ^ 31 }
{
    for at in 0..text.len() as u32 + 1 {
        let (line, column) = line_col(text, at);
        write!(out, "{line}:{column} ")?;
    }
    out.push_str("end")
}
