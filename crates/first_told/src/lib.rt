//! The refusal that is told while declarations are read one after another: the first of those that came.
#![tactic(auto)]

ghost use Rattle.std.specs.Prelude.{◌≡◌};
ghost use Rattle.statement_typing.specs.Tellings as tellings;

use front_codes::{Refusal, first_of_two};
use statement_typing::Stated;
use typing_rules::Found;

/// The first of two refusals, where there are any: by file, line and column, then by code.
pub fn earlier(left: Option<Refusal>, right: Option<Refusal>) -> Option<Refusal>
    ensures { result ≡ tellings.earlier left right }
{
    match (left, right) {
        (None, right) => right,
        (left, None) => left,
        (Some(left), Some(right)) => Some(first_of_two(left, right)),
    }
}

/// What is told after something was found.
pub fn tell<T>(told: Option<Refusal>, found: &Found<T>) -> Option<Refusal>
    ensures { result ≡ tellings.told told found.now }
{
    match found {
        Found::Refused(refusal) => earlier(told, Some(*refusal)),
        Found::Unknown | Found::Is(_) => earlier(told, None),
    }
}

/// What is told after the aspects of a declaration were read, in their order.
pub fn each_told(told: Option<Refusal>, found: &[Found<Stated>]) -> Option<Refusal>
    ensures { result ≡ tellings.each_told told found.now }
{
    let mut told = told;
    for aspect in found {
        told = tell(told, aspect);
    }
    told
}
