//! The answer to a case.

use crate::kind::{Kind, kind_of};
use crate::{clauses, goals, judged, sorts, stored};
use case_lines::words_of;
use case_parts::{CaseFault, push_fault};
use logic_terms::Goal;
use sqlite_items::Boxed;
use std::alloc::{AllocError, Global};

/// The answer to a case of one word.
fn of_one(
    alloc: Global,
    line: &mut String,
    goal: &mut Boxed<Goal>,
    kind: Kind,
    word: &[u8],
) -> Result<(), CaseFault> {
    match kind {
        Kind::With => goals::change(alloc, line, goal, word),
        Kind::Goal(kind) => goals::of_goal(alloc, line, kind, word),
        Kind::Cert => judged::text(alloc, line, word),
        Kind::Check => judged::checked(alloc, line, goal.get(), word),
        Kind::Line => judged::allowed(alloc, line, goal.get(), word),
        Kind::Clause => clauses::made(alloc, line, goal.get(), word),
        _ => Err(CaseFault::BadCase),
    }
}

/// The answer of a kind of case to its words.
fn of_words(
    alloc: Global,
    line: &mut String,
    goal: &mut Boxed<Goal>,
    kind: Kind,
    words: &[Vec<u8>],
) -> Result<(), CaseFault> {
    if let Kind::Follows = kind {
        return stored::follows(alloc, line, words);
    }
    match words {
        [word] => of_one(alloc, line, goal, kind, word.as_slice()),
        [fresh, word] => match kind {
            Kind::Sort(kind) => {
                let fresh = fresh.as_slice();
                sorts::of_part(alloc, line, goal.get(), kind, fresh, word.as_slice())
            }
            _ => Err(CaseFault::BadCase),
        },
        _ => Err(CaseFault::BadCase),
    }
}

fn of_line(
    alloc: Global,
    line: &mut String,
    goal: &mut Boxed<Goal>,
    text: &[u8],
) -> Result<(), CaseFault> {
    match words_of(alloc, text) {
        Err(fault) => Err(CaseFault::from(fault)),
        Ok(words) => match words.as_slice() {
            [word, rest @ ..] => match kind_of(word.as_slice()) {
                Some(kind) => of_words(alloc, line, goal, kind, rest),
                None => Err(CaseFault::BadCase),
            },
            [] => Err(CaseFault::BadCase),
        },
    }
}

/// The line of output for a line of input.
pub fn answer(alloc: Global, goal: &mut Boxed<Goal>, text: &str) -> Result<String, AllocError> {
    let mut line = String::new(alloc);
    if text.is_empty() || text.starts_with('#') {
        line.push_str(text)?;
        return Ok(line);
    }
    if let Err(fault) = of_line(alloc, &mut line, goal, text.as_bytes()) {
        push_fault(&mut line, fault)?;
    }
    Ok(line)
}
