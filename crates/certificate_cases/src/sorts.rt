//! Sorts of terms and formulas.

use crate::kind::SortKind;
use case_parts::{CaseFault, count_of, formula_of, push, push_text, push_told, term_of};
use cert_sorts::{is_formula, is_number, sort_of};
use logic_terms::{Goal, Sort};
use std::alloc::Global;
use term_reader::push_sort;

fn push_sort_text(alloc: Global, line: &mut String, sort: &Sort) -> Result<(), CaseFault> {
    let mut text = Vec::new(alloc);
    match push_sort(&mut text, sort) {
        Ok(()) => push_text(line, text.as_slice()),
        Err(_) => Err(CaseFault::Starved),
    }
}

/// `sort N t`
fn sort(
    alloc: Global,
    line: &mut String,
    goal: &Goal,
    fresh: u32,
    word: &[u8],
) -> Result<(), CaseFault> {
    let t = term_of(alloc, word)?;
    match sort_of(alloc, goal, fresh, t.get()) {
        Ok(Some(sort)) => push_sort_text(alloc, line, sort.get()),
        Ok(None) => push(line, "none"),
        Err(_) => Err(CaseFault::Starved),
    }
}

/// `number N t`
fn number(
    alloc: Global,
    line: &mut String,
    goal: &Goal,
    fresh: u32,
    word: &[u8],
) -> Result<(), CaseFault> {
    let t = term_of(alloc, word)?;
    match is_number(alloc, goal, fresh, t.get()) {
        Ok(told) => push_told(line, told),
        Err(_) => Err(CaseFault::Starved),
    }
}

/// `formula N F`
fn formula(
    alloc: Global,
    line: &mut String,
    goal: &Goal,
    fresh: u32,
    word: &[u8],
) -> Result<(), CaseFault> {
    let p = formula_of(alloc, word)?;
    match is_formula(alloc, goal, fresh, p.get()) {
        Ok(told) => push_told(line, told),
        Err(_) => Err(CaseFault::Starved),
    }
}

/// A case of the sort of a term or a formula, with a number of new symbols.
pub fn of_part(
    alloc: Global,
    line: &mut String,
    goal: &Goal,
    kind: SortKind,
    fresh: &[u8],
    word: &[u8],
) -> Result<(), CaseFault> {
    let fresh = count_of(alloc, fresh)?;
    match kind {
        SortKind::Sort => sort(alloc, line, goal, fresh, word),
        SortKind::Number => number(alloc, line, goal, fresh, word),
        SortKind::Formula => formula(alloc, line, goal, fresh, word),
    }
}
