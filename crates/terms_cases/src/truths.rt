//! What is told of two terms, formulas or sorts.

use case_parts::{CaseFault, formula_of, push_told, sort_of_text, term_of};
use logic_terms::{precedes as is_lesser, same_formula, same_sort, same_term};
use std::alloc::Global;

/// `precedes t u`
pub fn precedes(alloc: Global, line: &mut String, a: &[u8], b: &[u8]) -> Result<(), CaseFault> {
    let a = term_of(alloc, a)?;
    let b = term_of(alloc, b)?;
    match is_lesser(alloc, a.get(), b.get()) {
        Ok(told) => push_told(line, told),
        Err(_) => Err(CaseFault::Starved),
    }
}

/// `same_term t u`
pub fn same_terms(alloc: Global, line: &mut String, a: &[u8], b: &[u8]) -> Result<(), CaseFault> {
    let a = term_of(alloc, a)?;
    let b = term_of(alloc, b)?;
    push_told(line, same_term(a.get(), b.get()))
}

/// `same_formula F G`
pub fn same_formulas(
    alloc: Global,
    line: &mut String,
    a: &[u8],
    b: &[u8],
) -> Result<(), CaseFault> {
    let a = formula_of(alloc, a)?;
    let b = formula_of(alloc, b)?;
    push_told(line, same_formula(a.get(), b.get()))
}

/// `same_sort S S`
pub fn same_sorts(alloc: Global, line: &mut String, a: &[u8], b: &[u8]) -> Result<(), CaseFault> {
    let a = sort_of_text(alloc, a)?;
    let b = sort_of_text(alloc, b)?;
    push_told(line, same_sort(a.get(), b.get()))
}
