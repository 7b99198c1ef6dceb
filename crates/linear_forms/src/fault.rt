//! Why a form is not made.

use logic_terms::Starved;
use std::alloc::AllocFailed;

/// Why a form is not made.
#[derive(Clone, Copy, Debug, PartialEq, Eq)]
pub enum FormFault {
    /// A number on the way to the form leaves 128 bits.
    Wide,
    /// There was no memory left.
    Starved,
}

impl From<Starved> for FormFault {
    ghost use Rattle.std.specs.Prelude.{◌≡◌};
    ghost use Rattle.linear_forms.specs.declared.fault.FormFault.TheVariants as fault;

    ghost from_gives = { λ _ e. e ≡ fault.Starved };

    fn from(_error: Starved) -> FormFault {
        FormFault::Starved
    }
}

impl<T: Drop> From<AllocFailed<T>> for FormFault {
    ghost use Rattle.std.specs.Prelude.{◌≡◌};
    ghost use Rattle.linear_forms.specs.declared.fault.FormFault.TheVariants as fault;

    ghost from_gives = { λ _ e. e ≡ fault.Starved };

    fn from(_error: AllocFailed<T>) -> FormFault {
        FormFault::Starved
    }
}
