//! Cases of what is proved and told of a file: forms, rows, reports, keepers and sinks, and whole runs.
//!
//! A case is a line of words, of which the first is its kind, by `case_lines::words_of`, and its answer is a line. An empty
//! line, and one that begins with `#`, is its own answer. Answers are written through an `OutSink`. Cases come from standard
//! input, or from the file that the program's only word names. A word that holds several is split by the same rules. These are
//! the kinds:
//!
//! - `limits NAME PARAMS ASSERTIONS`: whether that is a form, and the line and the column of its first unknown name. An
//!   assertion is four words `LINE LEFT RELATION RIGHT`, with its pragma in column 4 and its operands in columns 20 and 30.
//! - `position NAME PARAMS`: the number from 0 of the parameter of this name.
//! - `rows NAME PARAMS ASSERTIONS`: the site of each row of that form, and whether it is proved.
//! - `report ROWS`: the text of the report. A row is five words `FILE LINE COLUMN KIND STATUS`.
//! - `keeper NAME BYTES .. FAILS STEPS`: what a keeper of these entries answers to steps, where the calls of these numbers fail, counted
//!   from 1; how many calls were made; and the entries in the end. A step is `NAME BYTES` to put, `NAME ?` to get, or `NAME #`
//!   for how many bytes are got.
//! - `files STEPS`: what the keeper of real files answers to steps, in the folder where the program runs.
//! - `whole BYTES MOST`: what is read of a file of these bytes where it may have at most so many.
//! - `sink BYTES FAILS MOST`: whether these bytes are written to a sink, of which one call takes at most so many; what it holds
//!   then; and how many calls were made.
//! - `run WORDS FILE TEXT .. KEEPER_FAILS SINK_FAILS MOST`: the status and the output of a run of the program on the words of its
//!   command line, with files and their texts.
//! - `alone WORDS`: the status and the output of such a run on real files.
#![tactic(auto)]

mod fault;
mod forms;
mod keepers;
mod kind;
mod reports;
mod runs;
mod shown;

use fault::{CaseFault, made};
use keeper_io::{FileKeeper, Keeper, OutSink, Sink, write_all};
use kind::push_answer;
use shown::split;
use std::alloc::{AllocError, Global};
use std::process::ExitCode;

/// Adds the answer to a line.
fn push_line<K: Keeper>(
    alloc: Global,
    files: &mut K,
    out: &mut String,
    line: &str,
) -> Result<(), CaseFault> {
    if line.is_empty() || line.as_bytes()[0] == b'#' {
        return made(out.push_str(line));
    }
    let words = split(alloc, line.as_bytes())?;
    push_answer(alloc, files, out, words.as_slice())
}

/// Adds the answer to a line, or what stands in place of it, and a line feed.
fn push_answered<K: Keeper>(
    alloc: Global,
    files: &mut K,
    out: &mut String,
    line: &str,
) -> Result<(), AllocError> {
    match push_line(alloc, files, out, line) {
        Ok(()) => out.push('\n'),
        Err(CaseFault::BadCase) => out.push_str("no such case\n"),
        Err(CaseFault::Starved) => out.push_str("no memory\n"),
    }
}

/// Writes the answer to a line, and tells whether it could.
fn writes_answer<K: Keeper, S: Sink>(
    alloc: Global,
    files: &mut K,
    sink: &mut S,
    line: &str,
) -> bool {
    let mut out = String::new(alloc);
    match push_answered(alloc, files, &mut out, line) {
        Ok(()) => write_all(sink, out.as_str().as_bytes()).is_ok(),
        Err(_) => false,
    }
}

/// Writes the answer to each line, and tells whether it could.
fn writes_answers<K: Keeper, S: Sink>(
    alloc: Global,
    files: &mut K,
    sink: &mut S,
    cases: &str,
) -> bool {
    for line in cases.lines() {
        if !writes_answer(alloc, files, sink, line) {
            return false;
        }
    }
    true
}

fn main(rt: HostRuntime) -> ExitCode {
    let Ok(cases) = case_lines::cases(&rt) else {
        return ExitCode::FAILURE;
    };
    let mut files = FileKeeper::new(&rt);
    let mut sink = OutSink::new(&rt);
    if writes_answers(rt.alloc(), &mut files, &mut sink, cases.as_str()) {
        ExitCode::SUCCESS
    } else {
        ExitCode::FAILURE
    }
}
