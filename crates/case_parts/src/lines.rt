//! Lines of texts.

use crate::fault::CaseFault;
use case_lines::push_shown;
use logic_terms::{Formula, Term, push_formula, text_of};
use std::alloc::{AllocError, Global};

/// The longest text that is shown.
const MOST_SHOWN: usize = 300;

/// Adds a word of the program.
pub fn push(line: &mut String, text: &str) -> Result<(), CaseFault> {
    match line.push_str(text) {
        Ok(()) => Ok(()),
        Err(_) => Err(CaseFault::Starved),
    }
}

/// Adds a whole number.
pub fn push_number(line: &mut String, number: i128) -> Result<(), CaseFault> {
    match write!(line, "{number}") {
        Ok(()) => Ok(()),
        Err(_) => Err(CaseFault::Starved),
    }
}

/// Adds a truth value.
pub fn push_told(line: &mut String, told: bool) -> Result<(), CaseFault> {
    push(line, if told { "true" } else { "false" })
}

fn push_bytes(line: &mut String, text: &[u8]) -> Result<(), AllocError> {
    let length = text.len();
    if length > MOST_SHOWN {
        write!(line, "{length} bytes")
    } else {
        push_shown(line, text)
    }
}

/// Adds a text of at most 300 bytes with its line feeds as `\n`, and in place of a longer one the number of its bytes.
pub fn push_text(line: &mut String, text: &[u8]) -> Result<(), CaseFault> {
    match push_bytes(line, text) {
        Ok(()) => Ok(()),
        Err(_) => Err(CaseFault::Starved),
    }
}

/// Adds the text of a term as `push_text` does.
pub fn push_term_text(alloc: Global, line: &mut String, t: &Term) -> Result<(), CaseFault> {
    match text_of(alloc, t) {
        Ok(text) => push_text(line, text.as_slice()),
        Err(_) => Err(CaseFault::Starved),
    }
}

/// Adds the text of a formula as `push_text` does.
pub fn push_formula_text(alloc: Global, line: &mut String, p: &Formula) -> Result<(), CaseFault> {
    let mut text = Vec::new(alloc);
    match push_formula(alloc, &mut text, p) {
        Ok(()) => push_text(line, text.as_slice()),
        Err(_) => Err(CaseFault::Starved),
    }
}
