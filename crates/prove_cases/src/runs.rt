//! Whole runs.

use crate::fault::{CaseFault, made};
use crate::keepers::{keeper_of, sink_of};
use crate::shown::{names, push_quoted};
use ada_values::WordList;
use gnatprove_core::{Status, run_alone};
use keeper_io::{CallList, Keeper, ListSink};
use std::alloc::{AllocError, Global};

/// The status of a run with its number, and what it wrote.
fn push_ended(out: &mut String, status: Status, written: &[u8]) -> Result<(), AllocError> {
    let code = status.code();
    write!(out, "{status:?} {code} ")?;
    push_quoted(out, written)
}

/// The status and the output of a run on the words of its command line.
fn push_ran<K: Keeper>(
    alloc: Global,
    out: &mut String,
    line: &WordList,
    files: &mut K,
    sink: &mut ListSink,
) -> Result<(), CaseFault> {
    let status = run_alone(alloc, line, files, sink);
    made(push_ended(out, status, sink.bytes()))
}

/// Such a run over a keeper of the files that the words give, and a sink that they give.
fn push_over_words(
    alloc: Global,
    out: &mut String,
    line: &WordList,
    words: &[Vec<u8>],
) -> Result<(), CaseFault> {
    let [files @ .., keeper_fails, sink_fails, most] = words else {
        return Err(CaseFault::BadCase);
    };
    let mut files = keeper_of(alloc, files, keeper_fails.as_slice())?;
    match sink_of(alloc, sink_fails.as_slice(), most.as_slice()) {
        Ok(mut sink) => push_ran(alloc, out, line, &mut files, &mut sink),
        Err(fault) => Err(fault),
    }
}

/// The status of a run over a keeper and a sink in memory, and what it wrote. The words are those of the command line, names
/// of files, each before its text, the numbers of the keeper's calls and of the sink's that fail, and how much one write takes.
pub fn push_run(alloc: Global, out: &mut String, words: &[Vec<u8>]) -> Result<(), CaseFault> {
    let [line, words @ ..] = words else {
        return Err(CaseFault::BadCase);
    };
    match names(alloc, line.as_slice()) {
        Ok(line) => push_over_words(alloc, out, &line, words),
        Err(fault) => Err(fault),
    }
}

/// The status of a run over real files, and what it wrote to a sink in memory. The words are those of the command line.
pub fn push_alone<K: Keeper>(
    alloc: Global,
    files: &mut K,
    out: &mut String,
    words: &[Vec<u8>],
) -> Result<(), CaseFault> {
    let [line] = words else {
        return Err(CaseFault::BadCase);
    };
    let line = names(alloc, line.as_slice())?;
    let mut sink = ListSink::new(alloc, CallList::new(alloc));
    push_ran(alloc, out, &line, files, &mut sink)
}
