//! Why a certificate is refused.

use cert_lines::Rule;
use logic_terms::Starved;

/// Why a certificate is refused. Lines are numbered from 1.
#[derive(Clone, Copy, Debug, PartialEq, Eq)]
pub enum CertRefusal {
    /// This line, which is by this rule, is the first that is not allowed.
    Line(u32, Rule),
    /// At this line a number leaves 128 bits before it is known whether the line is allowed.
    Wide(u32),
    /// Each line is allowed, and the last clause is not empty.
    NoEnd,
    /// There was no memory left, or there are 2^32 lines or more.
    Starved,
}

impl From<Starved> for CertRefusal {
    ghost use Rattle.std.specs.Prelude.{◌≡◌};
    ghost use Rattle.cert_checker.specs.declared.refusal.CertRefusal.TheVariants as refusal;

    ghost from_gives = { λ _ e. e ≡ refusal.Starved };

    fn from(_error: Starved) -> CertRefusal {
        CertRefusal::Starved
    }
}
