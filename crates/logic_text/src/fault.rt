//! Why a text is not read.

use term_reader::ReadFault;

/// Why a text is not read.
#[derive(Clone, Copy, Debug, PartialEq, Eq)]
pub enum TextFault {
    /// The text is longer than those that are read.
    TooLong,
    /// The first byte, or the end, after which no text goes on so.
    BadText(usize),
    /// There was no memory left, or more than `MOST_LEVELS` brackets are open.
    Starved,
}

impl From<ReadFault> for TextFault {
    ghost use Rattle.std.specs.Prelude.{◌≡◌};
    ghost use Rattle.logic_text.specs.Faults.{text_fault};

    ghost from_gives = { λ f e. e ≡ text_fault f };

    fn from(fault: ReadFault) -> TextFault {
        match fault {
            ReadFault::BadText(at) => TextFault::BadText(at),
            ReadFault::Starved => TextFault::Starved,
        }
    }
}
