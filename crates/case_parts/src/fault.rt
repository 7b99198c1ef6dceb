//! Why a case has no answer.

use case_lines::LineFault;
use std::alloc::AllocError;
use term_reader::ReadFault;

/// Why a case has no answer.
#[derive(Clone, Copy, Debug, PartialEq, Eq)]
pub enum CaseFault {
    /// No kind of case has this name, or these words.
    BadCase,
    /// A word is no text of what it is to be, from this byte on.
    BadText(usize),
    /// The text of a word ends before the word does, at this byte.
    Ends(usize),
    /// A text is longer than those that are read.
    TooLong,
    /// There was no memory to read a word, or too many brackets are open in it.
    NotRead,
    /// There was no memory, or a value nests too deep.
    Starved,
}

impl From<AllocError> for CaseFault {
    fn from(_error: AllocError) -> CaseFault {
        CaseFault::Starved
    }
}

impl From<LineFault> for CaseFault {
    fn from(fault: LineFault) -> CaseFault {
        match fault {
            LineFault::BadWord => CaseFault::BadCase,
            LineFault::Starved => CaseFault::Starved,
        }
    }
}

impl From<ReadFault> for CaseFault {
    fn from(fault: ReadFault) -> CaseFault {
        match fault {
            ReadFault::BadText(at) => CaseFault::BadText(at),
            ReadFault::Starved => CaseFault::NotRead,
        }
    }
}

/// Adds what is said of a case without an answer.
pub fn push_fault(line: &mut String, fault: CaseFault) -> Result<(), AllocError> {
    match fault {
        CaseFault::BadCase => line.push_str("bad case"),
        CaseFault::BadText(at) => write!(line, "bad text at {at}"),
        CaseFault::Ends(at) => write!(line, "ends at {at}"),
        CaseFault::TooLong => line.push_str("too long"),
        CaseFault::NotRead => line.push_str("not read"),
        CaseFault::Starved => line.push_str("starved"),
    }
}
