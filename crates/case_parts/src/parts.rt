//! Terms, formulas, sorts and numbers from words.

use crate::fault::CaseFault;
use logic_terms::{Formula, Sort, Term};
use sqlite_items::Boxed;
use std::alloc::Global;
use term_reader::{Part, Read, Side, read_part};

/// The part that a whole word is.
fn part_of(alloc: Global, word: &[u8], side: Side) -> Result<Part, CaseFault> {
    match read_part(alloc, word, 0, side) {
        Err(fault) => Err(CaseFault::from(fault)),
        Ok(read) => whole(read, word.len()),
    }
}

fn whole(read: Read, length: usize) -> Result<Part, CaseFault> {
    let Read { part, to } = read;
    if to != length {
        drop(part);
        return Err(CaseFault::Ends(to));
    }
    Ok(part)
}

/// The term that a word is the text of.
pub fn term_of(alloc: Global, word: &[u8]) -> Result<Boxed<Term>, CaseFault> {
    match part_of(alloc, word, Side::Term)? {
        Part::Term(t) => Ok(t),
        other => {
            drop(other);
            Err(CaseFault::BadCase)
        }
    }
}

/// The formula that a word is the text of.
pub fn formula_of(alloc: Global, word: &[u8]) -> Result<Boxed<Formula>, CaseFault> {
    match part_of(alloc, word, Side::Formula)? {
        Part::Formula(p) => Ok(p),
        other => {
            drop(other);
            Err(CaseFault::BadCase)
        }
    }
}

/// The sort that a word is the text of.
pub fn sort_of_text(alloc: Global, word: &[u8]) -> Result<Boxed<Sort>, CaseFault> {
    match part_of(alloc, word, Side::Sort)? {
        Part::Sort(sort) => Ok(sort),
        other => {
            drop(other);
            Err(CaseFault::BadCase)
        }
    }
}

/// The whole number that a word is the text of.
pub fn number_of(alloc: Global, word: &[u8]) -> Result<i128, CaseFault> {
    match term_of(alloc, word)?.get() {
        Term::Num(n) => Ok(*n),
        _ => Err(CaseFault::BadCase),
    }
}

/// The number from 0 to 2^32 - 1 that a word is the text of.
pub fn count_of(alloc: Global, word: &[u8]) -> Result<u32, CaseFault> {
    match u32::try_from(number_of(alloc, word)?) {
        Ok(count) => Ok(count),
        Err(_) => Err(CaseFault::BadCase),
    }
}
