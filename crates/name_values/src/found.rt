//! What is found of several parts: a refusal wins over all, and of two the first; what is unknown wins over what is found.

ghost use Rattle.std.specs.Prelude.{◌≡◌, [], ◌∷◌, ◌++◌, IfOk};
ghost use Rattle.typing_rules.specs.Fits.{both, found_fault, refused_beside, spoiled, with_found, with_refused, with_unknown};
ghost use Rattle.typing_rules.specs.Names.{beside};
ghost use Rattle.typing_rules.specs.Values.{no_arguments, no_function};

use ada_values::Place;
use front_codes::first_of_two;
use sqlite_items::Items;
use std::alloc::Global;
use type_base::{Code, Formal, Refusal, Seen, Starved, refused};
use typed_units::{Argument, Expr};
use typing_rules::Found;

fn with_refused<A: Drop, B>(refusal: Refusal, found: Found<A>) -> Found<B>
    ensures { result ≡ with_refused refusal found }
{
    match found {
        Found::Refused(other) => Found::Refused(first_of_two(refusal, other)),
        Found::Unknown => Found::Refused(refusal),
        Found::Is(value) => {
            drop(value);
            Found::Refused(refusal)
        }
    }
}

fn with_unknown<A: Drop, B>(found: Found<A>) -> Found<B>
    ensures { result ≡ with_unknown found }
{
    match found {
        Found::Refused(refusal) => Found::Refused(refusal),
        Found::Unknown => Found::Unknown,
        Found::Is(value) => {
            drop(value);
            Found::Unknown
        }
    }
}

fn with_found<T: Drop>(mut items: Items<T>, found: Found<T>) -> Result<Found<Items<T>>, Starved>
    ensures { IfOk result (λ f. f ≡ with_found (λ x. items ++ (x ∷ [])) found) }
{
    match found {
        Found::Refused(refusal) => {
            drop(items);
            Ok(Found::Refused(refusal))
        }
        Found::Unknown => {
            drop(items);
            Ok(Found::Unknown)
        }
        Found::Is(item) => match items.push(item) {
            Ok(()) => Ok(Found::Is(items)),
            Err(error) => {
                drop(items);
                Err(error)
            }
        },
    }
}

/// What is found of several parts, with one more. `Err` where memory was refused.
pub fn added<T: Drop>(done: Found<Items<T>>, more: Found<T>) -> Result<Found<Items<T>>, Starved>
    ensures { IfOk result (λ f. f ≡ both (λ xs x. xs ++ (x ∷ [])) done more) }
{
    match done {
        Found::Refused(refusal) => Ok(with_refused(refusal, more)),
        Found::Unknown => Ok(with_unknown(more)),
        Found::Is(items) => with_found(items, more),
    }
}

/// What is found beside a refusal: the first of the refusals.
pub fn spoiled<T: Drop>(found: Found<T>, refusal: Refusal) -> Found<T>
    ensures { result ≡ spoiled found refusal }
{
    with_refused(refusal, found)
}

/// The refusal that is found.
pub fn found_fault<T>(found: &Found<T>) -> Option<Refusal>
    ensures { result ≡ found_fault found.now }
{
    match found {
        Found::Refused(refusal) => Some(*refusal),
        Found::Unknown | Found::Is(_) => None,
    }
}

/// A refusal beside what else is seen: the first of the refusals.
pub fn refused_beside(refusal: Refusal, seen: Seen) -> Seen
    ensures { result ≡ refused_beside refusal seen }
{
    match seen {
        Seen::Refused(other) => Seen::Refused(first_of_two(refusal, other)),
        Seen::Unknown | Seen::Number(_) => Seen::Refused(refusal),
        Seen::Typed(_, x) => {
            drop(x);
            Seen::Refused(refusal)
        }
    }
}

/// What is seen beside something of which only its refusal is told.
pub fn beside(other: Seen, seen: Seen) -> Seen
    ensures { result ≡ beside other seen }
{
    match other {
        Seen::Refused(refusal) => refused_beside(refusal, seen),
        Seen::Unknown | Seen::Number(_) => seen,
        Seen::Typed(_, x) => {
            drop(x);
            seen
        }
    }
}

/// The arguments of a call without any, of a subprogram with these formals; by L10 it has none.
pub fn no_arguments(alloc: Global, place: Place, formals: &[Formal]) -> Found<Items<Argument<Expr>>>
    ensures { result ≡ no_arguments place formals.now }
{
    match formals {
        [] => Found::Is(Items::new(alloc)),
        [_, ..] => Found::Refused(Refusal {
            code: Code::L10,
            place,
        }),
    }
}

/// What a procedure's call is as a value: L12, beside what is refused in its arguments.
pub fn no_function(place: Place, arguments: Found<Items<Argument<Expr>>>) -> Seen
    ensures { result ≡ no_function place arguments }
{
    match arguments {
        Found::Refused(refusal) => refused_beside(
            Refusal {
                code: Code::L12,
                place,
            },
            Seen::Refused(refusal),
        ),
        Found::Unknown => refused(Code::L12, place),
        Found::Is(items) => {
            drop(items);
            refused(Code::L12, place)
        }
    }
}
