//! Answers to cases.

use ada_values::OpFault;
use std::fmt;

/// The answer to a case.
#[derive(Clone, Copy, Debug, PartialEq, Eq)]
pub enum Answer {
    Number(i128),
    Fault(OpFault),
    Truth(bool),
    /// The line is no case.
    NoCase,
    /// Memory was refused.
    NoMemory,
}

/// The words for a fault of an operation.
fn fault_text(fault: OpFault) -> &'static str {
    match fault {
        OpFault::Overflow => "overflow",
        OpFault::ZeroDivisor => "zero divisor",
        OpFault::NegativeExponent => "negative exponent",
    }
}

impl fmt::Display for Answer {
    fn fmt<W: fmt::Write>(&self, f: &mut fmt::Formatter<W>) -> fmt::Result {
        match self {
            Answer::Number(number) => write!(f, "{number}"),
            Answer::Fault(fault) => f.write_str(fault_text(*fault)),
            Answer::Truth(true) => f.write_str("yes"),
            Answer::Truth(false) => f.write_str("no"),
            Answer::NoCase => f.write_str("no case"),
            Answer::NoMemory => f.write_str("no memory"),
        }
    }
}
