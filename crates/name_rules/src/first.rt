//! The first of several broken rules.

ghost use Rattle.std.specs.Prelude.{◌≡◌};
ghost use Rattle.name_rules.specs.Faults.{first_of, is_before, lesser, rule_number};

use name_library::{Fault, NameFault};

/// Which of two rules that are broken at one place is told: that of the lesser number.
fn rule_number(rule: NameFault) -> u8
    ensures { result ≡ rule_number rule }
{
    match rule {
        NameFault::UnknownName => 0,
        NameFault::AmbiguousName => 1,
        NameFault::Duplicate => 2,
        NameFault::Overloaded => 3,
        NameFault::WithCycle => 4,
        NameFault::MissingBody => 5,
        NameFault::SpecMismatch => 6,
        NameFault::LeftOut => 7,
    }
}

/// Whether a fault is told before another: by file, place and rule.
pub fn is_before(fault: Fault, other: Fault) -> bool
    ensures { result ≡ is_before fault other }
{
    let first_rule = rule_number(fault.rule) < rule_number(other.rule);
    let first_place = fault.spot.at < other.spot.at
        || (fault.spot.at == other.spot.at && first_rule);
    fault.spot.file < other.spot.file || (fault.spot.file == other.spot.file && first_place)
}

fn lesser(fault: Fault, later: Option<Fault>) -> Option<Fault>
    ensures { result ≡ lesser fault later }
{
    match later {
        Some(other) => Some(if is_before(other, fault) {
            other
        } else {
            fault
        }),
        None => Some(fault),
    }
}

/// The first of some faults; `None` exactly where there are none.
pub fn first_fault(faults: &[Fault]) -> Option<Fault>
    ensures { result ≡ first_of faults.now }
{
    let mut first = None;
    let mut left = faults.len();
    while left > 0 {
        left -= 1;
        first = lesser(faults[left], first);
    }
    first
}
