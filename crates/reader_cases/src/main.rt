//! Cases of the reader: of tokens, places, derivations, trees and forms of short texts.
//!
//! A case is a line `KIND TEXT`, two words by `case_lines::words_of`, and its answer is a line. An empty line, and one that
//! begins with `#`, is its own answer. Cases come from standard input, or from the file that the program's only word names.
//! Numbers of tokens, bytes and productions count from 0, lines and columns from 1. These are the kinds:
//!
//! - `tokens`: each token's kind with its first byte and the byte after its last one, and `end`; or the first fault.
//! - `count`: how many tokens there are, or the first fault.
//! - `places`: the line and the column of each byte and of the end.
//! - `productions`: the numbers of the productions of the leftmost derivation; or the first fault, with its token's number.
//! - `grammar`: `derived`, or the same fault.
//! - `read`: `read`; or the refusal, with its token's number or its byte, and its line and column.
//! - `value`: the root of the value that the first statement of a subprogram assigns, and those of its two parts.
//! - `statement`, `declaration`: the form of the first of a subprogram, with how many parts it has.
//! - `unit`: the form of the unit, with how many declarations it has, and how many clauses and pragmas stand before it.
//! - `extent`: the byte after the tree's last one, and how many statements the subprogram has.
//! - `form`: what the form of the text holds, with the file, the line and the column of each pragma and operand; or `no form`.
#![tactic(auto)]

mod expressions;
mod forms;
mod kind;
mod reading;
mod texts;
mod trees;

use case_lines::words_of;
use kind::push_answer;
use std::alloc::{AllocError, Global};
use std::io;

/// Adds the answer to a line.
fn push_line(alloc: Global, out: &mut String, line: &str) -> Result<(), AllocError> {
    if line.is_empty() || line.as_bytes()[0] == b'#' {
        return out.push_str(line);
    }
    match words_of(alloc, line.as_bytes()) {
        Ok(words) => push_answer(alloc, out, words.as_slice()),
        Err(fault) => write!(out, "{fault:?}"),
    }
}

/// Prints the answer to a line.
fn print_answer<R: Print + AllocGlobal>(rt: &R, line: &str) -> io::Result<()> {
    let mut out = String::new(rt.alloc());
    match push_line(rt.alloc(), &mut out, line) {
        Ok(()) => println!(rt; "{out}"),
        Err(_) => println!(rt; "no memory"),
    }
}

/// Prints the answer to each line.
fn print_answers<R: Print + AllocGlobal>(rt: &R, cases: &str) -> io::Result<()> {
    for line in cases.lines() {
        print_answer(rt, line)?;
    }
    Ok(())
}

fn main(rt: HostRuntime) -> io::Result<()> {
    let cases = case_lines::cases(&rt)?;
    print_answers(&rt, cases.as_str())
}
