//! Why a line yields no clause.

use logic_terms::Starved;
use std::alloc::AllocFailed;

/// Why a line yields no clause.
#[derive(Clone, Copy, Debug, PartialEq, Eq)]
pub enum LineFault {
    /// Its rule does not allow the line.
    NotAllowed,
    /// A number leaves 128 bits before it is known whether the line is allowed.
    Wide,
    /// There was no memory left.
    Starved,
}

impl From<Starved> for LineFault {
    ghost use Rattle.std.specs.Prelude.{◌≡◌};
    ghost use Rattle.cert_rules.specs.declared.fault.LineFault.TheVariants as fault;

    ghost from_gives = { λ _ e. e ≡ fault.Starved };

    fn from(_error: Starved) -> LineFault {
        LineFault::Starved
    }
}

impl<T: Drop> From<AllocFailed<T>> for LineFault {
    ghost use Rattle.std.specs.Prelude.{◌≡◌};
    ghost use Rattle.cert_rules.specs.declared.fault.LineFault.TheVariants as fault;

    ghost from_gives = { λ _ e. e ≡ fault.Starved };

    fn from(_error: AllocFailed<T>) -> LineFault {
        LineFault::Starved
    }
}
