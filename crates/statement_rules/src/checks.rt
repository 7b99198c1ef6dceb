//! What is found of several parts.

ghost use Rattle.std.specs.Prelude.{◌≡◌};
ghost use Rattle.statement_typing.specs.Checks.{and_also, refuse, unless};
ghost use Rattle.statement_typing.specs.Subtypes.{heard};
ghost use Rattle.typing_rules.specs.Fits.{with_refused, with_unknown};

use ada_values::Place;
use front_codes::first_of_two;
use type_base::{Code, Refusal, Seen};
use typing_rules::Found;

/// What is found beside a refusal: the first of the refusals.
pub fn with_refused<A: Drop, B>(refusal: Refusal, found: Found<A>) -> Found<B>
    ensures { result ≡ with_refused refusal found }
{
    match found {
        Found::Refused(other) => Found::Refused(first_of_two(refusal, other)),
        Found::Unknown => Found::Refused(refusal),
        Found::Is(value) => {
            drop(value);
            Found::Refused(refusal)
        }
    }
}

/// What is found beside what is unknown.
pub fn with_unknown<A: Drop, B>(found: Found<A>) -> Found<B>
    ensures { result ≡ with_unknown found }
{
    match found {
        Found::Refused(refusal) => Found::Refused(refusal),
        Found::Unknown => Found::Unknown,
        Found::Is(value) => {
            drop(value);
            Found::Unknown
        }
    }
}

/// A rule that is broken at a place.
pub fn refuse<T>(code: Code, place: Place) -> Found<T>
    ensures { result ≡ refuse code place }
{
    Found::Refused(Refusal { code, place })
}

/// A value that is found where a rule holds; its refusal elsewhere.
pub fn unless<T: Drop>(holds: bool, code: Code, place: Place, value: T) -> Found<T>
    ensures { result ≡ unless holds code place value }
{
    if holds {
        Found::Is(value)
    } else {
        drop(value);
        Found::Refused(Refusal { code, place })
    }
}

/// What is found, beside a part that gives nothing to it but its refusals.
pub fn and_also<A: Drop, B: Drop>(found: Found<A>, other: Found<B>) -> Found<A>
    ensures { result ≡ and_also found other }
{
    match found {
        Found::Refused(refusal) => with_refused(refusal, other),
        Found::Unknown => with_unknown(other),
        Found::Is(value) => match other {
            Found::Is(part) => {
                drop(part);
                Found::Is(value)
            }
            Found::Unknown => {
                drop(value);
                Found::Unknown
            }
            Found::Refused(refusal) => {
                drop(value);
                Found::Refused(refusal)
            }
        },
    }
}

/// What is found of an expression of which nothing is demanded.
pub fn heard(seen: Seen) -> Found<()>
    ensures { result ≡ heard seen }
{
    match seen {
        Seen::Refused(refusal) => Found::Refused(refusal),
        Seen::Unknown => Found::Unknown,
        Seen::Number(_) => Found::Is(()),
        Seen::Typed(_, x) => {
            drop(x);
            Found::Is(())
        }
    }
}
