//! Clauses of earlier lines, and what follows from them.

use crate::texts::cert_of_lines;
use case_parts::{CaseFault, push_told};
use cert_lines::CertLine;
use cert_store::ClauseStore;
use logic_terms::{FormulaList, copy_formulas};
use std::alloc::Global;

/// The literals of a `rup` line.
fn literals_of(alloc: Global, line: &CertLine) -> Result<FormulaList, CaseFault> {
    match line {
        CertLine::Rup { literals, .. } => match copy_formulas(alloc, literals) {
            Ok(copy) => Ok(copy),
            Err(_) => Err(CaseFault::Starved),
        },
        _ => Err(CaseFault::BadCase),
    }
}

/// The clauses that the literals of the lines are.
fn store_of(alloc: Global, lines: &[CertLine]) -> Result<ClauseStore, CaseFault> {
    let mut store = ClauseStore::new(alloc);
    for line in lines {
        let clause = literals_of(alloc, line)?;
        if store.push(clause).is_err() {
            return Err(CaseFault::Starved);
        }
    }
    Ok(store)
}

/// Whether a `rup` line follows from the clauses.
fn follows_from(alloc: Global, store: &ClauseStore, line: &CertLine) -> Result<bool, CaseFault> {
    match line {
        CertLine::Rup { literals, hints } => match store.follows(alloc, literals, hints) {
            Ok(told) => Ok(told),
            Err(_) => Err(CaseFault::Starved),
        },
        _ => Err(CaseFault::BadCase),
    }
}

/// `follows LINE ..`
pub fn follows(alloc: Global, line: &mut String, words: &[Vec<u8>]) -> Result<(), CaseFault> {
    let cert = cert_of_lines(alloc, words)?;
    match cert.lines.as_slice() {
        [earlier @ .., last] => {
            let store = store_of(alloc, earlier)?;
            let told = follows_from(alloc, &store, last)?;
            push_told(line, told)
        }
        [] => Err(CaseFault::BadCase),
    }
}
