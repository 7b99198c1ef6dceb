//! The answer to a case.

use crate::kind::{Kind, kind_of};
use crate::{changes, forms, machine, reading, truths};
use case_lines::words_of;
use case_parts::{CaseFault, formula_of, push_fault, sort_of_text, term_of};
use std::alloc::{AllocError, Global};

/// The answer to a case of one word.
fn of_one(alloc: Global, line: &mut String, kind: Kind, word: &[u8]) -> Result<(), CaseFault> {
    match kind {
        Kind::Term(kind) => {
            let t = term_of(alloc, word)?;
            changes::of_term(alloc, line, kind, t.get())
        }
        Kind::Formula(kind) => {
            let p = formula_of(alloc, word)?;
            changes::of_formula(alloc, line, kind, p.get())
        }
        Kind::Sort => {
            let sort = sort_of_text(alloc, word)?;
            changes::push_sort_text(alloc, line, sort.get())
        }
        Kind::SortCopy => {
            let sort = sort_of_text(alloc, word)?;
            changes::copied_sort(alloc, line, sort.get())
        }
        _ => Err(CaseFault::BadCase),
    }
}

/// The answer to a case of two words.
fn of_two(
    alloc: Global,
    line: &mut String,
    kind: Kind,
    first: &[u8],
    second: &[u8],
) -> Result<(), CaseFault> {
    match kind {
        Kind::Precedes => truths::precedes(alloc, line, first, second),
        Kind::SameTerm => truths::same_terms(alloc, line, first, second),
        Kind::SameFormula => truths::same_formulas(alloc, line, first, second),
        Kind::SameSort => truths::same_sorts(alloc, line, first, second),
        Kind::Put => changes::put(alloc, line, first, second),
        Kind::NegateUnder => changes::negated_under(alloc, line, first, second),
        Kind::Word => reading::word(line, first, second),
        Kind::Numbers(kind) => forms::of_numbers(alloc, line, kind, first, second),
        _ => Err(CaseFault::BadCase),
    }
}

/// The answer to a case of three words or four.
fn of_more(
    alloc: Global,
    line: &mut String,
    kind: Kind,
    words: &[Vec<u8>],
) -> Result<(), CaseFault> {
    match words {
        [a, b, c] => match kind {
            Kind::PutUnder => {
                changes::put_under(alloc, line, a.as_slice(), b.as_slice(), c.as_slice())
            }
            Kind::Number => reading::number(alloc, line, a.as_slice(), b.as_slice(), c.as_slice()),
            _ => Err(CaseFault::BadCase),
        },
        [first, by_first, second, by_second] => match kind {
            Kind::AddScaled => {
                let m = by_first.as_slice();
                let n = by_second.as_slice();
                forms::scaled_sum(alloc, line, first.as_slice(), m, second.as_slice(), n)
            }
            _ => Err(CaseFault::BadCase),
        },
        _ => Err(CaseFault::BadCase),
    }
}

/// The answer of a kind of case to its words.
fn of_words(
    alloc: Global,
    line: &mut String,
    kind: Kind,
    words: &[Vec<u8>],
) -> Result<(), CaseFault> {
    if let Kind::Decide = kind {
        return machine::decided(alloc, line, words);
    }
    match words {
        [word] => of_one(alloc, line, kind, word.as_slice()),
        [first, second] => of_two(alloc, line, kind, first.as_slice(), second.as_slice()),
        _ => of_more(alloc, line, kind, words),
    }
}

fn of_line(alloc: Global, line: &mut String, text: &[u8]) -> Result<(), CaseFault> {
    match words_of(alloc, text) {
        Err(fault) => Err(CaseFault::from(fault)),
        Ok(words) => match words.as_slice() {
            [word, rest @ ..] => match kind_of(word.as_slice()) {
                Some(kind) => of_words(alloc, line, kind, rest),
                None => Err(CaseFault::BadCase),
            },
            [] => Err(CaseFault::BadCase),
        },
    }
}

/// The line of output for a line of input.
pub fn answer(alloc: Global, text: &str) -> Result<String, AllocError> {
    let mut line = String::new(alloc);
    if text.is_empty() || text.starts_with('#') {
        line.push_str(text)?;
        return Ok(line);
    }
    if let Err(fault) = of_line(alloc, &mut line, text.as_bytes()) {
        push_fault(&mut line, fault)?;
    }
    Ok(line)
}
