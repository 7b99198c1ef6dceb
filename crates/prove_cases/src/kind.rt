//! The kinds of cases.

use crate::fault::CaseFault;
use crate::forms::{push_limits, push_position, push_rows};
use crate::keepers::{push_files, push_keeper, push_sink, push_whole};
use crate::reports::push_report;
use crate::runs::{push_alone, push_run};
use case_lines::named;
use keeper_io::Keeper;
use std::alloc::Global;

/// What a case asks.
#[derive(Clone, Copy)]
enum Kind {
    Limits,
    Position,
    Rows,
    Report,
    Keeper,
    Files,
    Whole,
    Sink,
    Run,
    Alone,
}

const KINDS: [(&str, Kind); 10] = [
    ("limits", Kind::Limits),
    ("position", Kind::Position),
    ("rows", Kind::Rows),
    ("report", Kind::Report),
    ("keeper", Kind::Keeper),
    ("files", Kind::Files),
    ("whole", Kind::Whole),
    ("sink", Kind::Sink),
    ("run", Kind::Run),
    ("alone", Kind::Alone),
];

/// The answer to a kind of case.
fn push_of_kind<K: Keeper>(
    alloc: Global,
    files: &mut K,
    out: &mut String,
    kind: Kind,
    words: &[Vec<u8>],
) -> Result<(), CaseFault> {
    match kind {
        Kind::Limits => push_limits(alloc, out, words),
        Kind::Position => push_position(alloc, out, words),
        Kind::Rows => push_rows(alloc, out, words),
        Kind::Report => push_report(alloc, out, words),
        Kind::Keeper => push_keeper(alloc, out, words),
        Kind::Files => push_files(alloc, files, out, words),
        Kind::Whole => push_whole(alloc, out, words),
        Kind::Sink => push_sink(alloc, out, words),
        Kind::Run => push_run(alloc, out, words),
        Kind::Alone => push_alone(alloc, files, out, words),
    }
}

/// The answer to the words of a case, of which the first says what is asked.
pub fn push_answer<K: Keeper>(
    alloc: Global,
    files: &mut K,
    out: &mut String,
    words: &[Vec<u8>],
) -> Result<(), CaseFault> {
    let [first, words @ ..] = words else {
        return Err(CaseFault::BadCase);
    };
    match named(&KINDS, first.as_slice()) {
        Some(kind) => push_of_kind(alloc, files, out, kind, words),
        None => Err(CaseFault::BadCase),
    }
}
