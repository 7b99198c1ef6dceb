//! What is read at the start of a text.

use case_parts::{CaseFault, number_of};
use std::alloc::{AllocError, Global};
use term_reader::{Number, read_number, read_word};

fn push_found(line: &mut String, number: Number) -> Result<(), AllocError> {
    let Number { value, to } = number;
    write!(line, "{value} ends at {to}")
}

/// The number from a least, 0 or 1, to a most, from 9 to 2^127.
fn number_within(line: &mut String, text: &[u8], least: u128, most: u128) -> Result<(), CaseFault> {
    if least > 1 || most < 9 || most > 1 << 127 {
        return Err(CaseFault::BadCase);
    }
    match read_number(text, 0, least, most) {
        Err(at) => Err(CaseFault::BadText(at)),
        Ok(number) => Ok(push_found(line, number)?),
    }
}

/// `number TEXT LEAST MOST`
pub fn number(
    alloc: Global,
    line: &mut String,
    text: &[u8],
    least: &[u8],
    most: &[u8],
) -> Result<(), CaseFault> {
    let least = number_of(alloc, least)?;
    let most = number_of(alloc, most)?;
    if least < 0 || most < 0 {
        return Err(CaseFault::BadCase);
    }
    number_within(line, text, least.unsigned_abs(), most.unsigned_abs())
}

/// `word TEXT WORD`
pub fn word(line: &mut String, text: &[u8], word: &[u8]) -> Result<(), CaseFault> {
    match read_word(text, 0, word) {
        Err(at) => Err(CaseFault::BadText(at)),
        Ok(to) => Ok(write!(line, "ends at {to}")?),
    }
}
