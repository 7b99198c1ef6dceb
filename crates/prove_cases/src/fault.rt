//! Why a case has no answer, and numbers in cases.

use case_lines::LineFault;
use std::alloc::AllocError;

/// Why a case has no answer.
#[derive(Clone, Copy)]
pub enum CaseFault {
    /// Its words aren't those of a case.
    BadCase,
    /// Memory was refused.
    Starved,
}

impl From<LineFault> for CaseFault {
    fn from(fault: LineFault) -> CaseFault {
        match fault {
            LineFault::BadWord => CaseFault::BadCase,
            LineFault::Starved => CaseFault::Starved,
        }
    }
}

impl From<AllocError> for CaseFault {
    fn from(_: AllocError) -> CaseFault {
        CaseFault::Starved
    }
}

/// What was made, or that memory was refused.
pub fn made<T: Drop>(answer: Result<T, AllocError>) -> Result<T, CaseFault> {
    match answer {
        Ok(value) => Ok(value),
        Err(_) => Err(CaseFault::Starved),
    }
}

/// The number that a word is in decimal.
pub fn number(word: &[u8]) -> Result<u64, CaseFault> {
    let Ok(text) = str::from_utf8(word) else {
        return Err(CaseFault::BadCase);
    };
    match text.parse::<u64>() {
        Ok(number) => Ok(number),
        Err(_) => Err(CaseFault::BadCase),
    }
}

/// The number of 32 bits that a word is in decimal.
pub fn small_number(word: &[u8]) -> Result<u32, CaseFault> {
    match u32::try_from(number(word)?) {
        Ok(number) => Ok(number),
        Err(_) => Err(CaseFault::BadCase),
    }
}
