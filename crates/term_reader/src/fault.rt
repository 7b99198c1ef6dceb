//! Why a part is not read.

use std::alloc::AllocError;

/// Why a part is not read.
#[derive(Clone, Copy, Debug, PartialEq, Eq)]
pub enum ReadFault {
    /// The first byte, or the end, after which no text of a part goes on so.
    BadText(usize),
    /// There was no memory left, or more than `MOST_LEVELS` brackets are open.
    Starved,
}

impl From<AllocError> for ReadFault {
    ghost use Rattle.std.specs.Prelude.{◌≡◌};
    ghost use Rattle.term_reader.specs.declared.fault.ReadFault.TheVariants as fault;

    ghost from_gives = { λ _ e. e ≡ fault.Starved };

    fn from(_error: AllocError) -> ReadFault {
        ReadFault::Starved
    }
}
