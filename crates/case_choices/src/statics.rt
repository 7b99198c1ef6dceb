//! Static values of the selector's type.

ghost use Rattle.std.specs.Prelude.{◌≡◌, ◌==◌, if◌then◌else◌, IfOk};
ghost use Rattle.case_choices.specs.Choosing.{value_alone};
ghost use Rattle.statement_typing.specs.Checks.{refuse};
ghost use Rattle.statement_typing.specs.Choices.{value_for};
ghost use Rattle.statement_typing.specs.Subtypes.{static_in, static_number, static_seen, value_of_type};

use ada_values::Place;
use expression_rules::number_in;
use statement_rules::refuse;
use std::alloc::Global;
use type_base::{Code, Seen, Starved, Want, World, placed_number};
use typed_units::Expr;
use typing_rules::Found;

fn static_number(code: Code, place: Place, value: Option<i128>) -> Found<i128>
    ensures { result ≡ static_number code place value }
{
    match value {
        None => refuse(code, place),
        Some(value) => Found::Is(value),
    }
}

/// The static value of an expression at a place, by a rule.
pub(crate) fn static_in(code: Code, place: Place, x: &Expr) -> Found<i128>
    ensures { result ≡ static_in code place x.now }
{
    static_number(code, place, number_in(x))
}

fn static_seen(code: Code, place: Place, seen: Seen) -> Found<i128>
    ensures { result ≡ static_seen code place seen }
{
    match seen {
        Seen::Refused(refusal) => Found::Refused(refusal),
        Seen::Unknown | Seen::Number(_) => Found::Unknown,
        Seen::Typed(_, x) => static_number(code, place, number_in(&x)),
    }
}

fn static_of_type(code: Code, ty: u32, of: u32, place: Place, x: Expr) -> Found<i128>
    ensures { result ≡ (if ty == of then static_in code place x else refuse code place) }
{
    if ty == of {
        static_in(code, place, &x)
    } else {
        refuse(code, place)
    }
}

/// The static value of a type that is seen at a place, by a rule. `Err` where memory was refused.
fn value_of_type(
    alloc: Global,
    world: &World,
    code: Code,
    ty: u32,
    place: Place,
    seen: Seen,
) -> Result<Found<i128>, Starved>
    ensures { IfOk result (λ n. n ≡ value_of_type world.now code ty place seen) }
{
    match seen {
        Seen::Refused(refusal) => Ok(Found::Refused(refusal)),
        Seen::Unknown => Ok(Found::Unknown),
        Seen::Number(number) => {
            let seen = placed_number(alloc, world, code, place, place, ty, number)?;
            Ok(static_seen(code, place, seen))
        }
        Seen::Typed(of, x) => Ok(static_of_type(code, ty, of, place, x)),
    }
}

/// What a value is for a selector of which nothing is known.
fn value_alone(seen: Seen) -> Found<i128>
    ensures { result ≡ value_alone seen }
{
    match seen {
        Seen::Refused(refusal) => Found::Refused(refusal),
        Seen::Unknown | Seen::Number(_) => Found::Unknown,
        Seen::Typed(_, x) => {
            drop(x);
            Found::Unknown
        }
    }
}

/// The static value that is seen at a place, of the selector's type. `Err` where memory was refused.
#[tactic(auto, using(crate::proofs::Alone::free_alone, crate::proofs::Alone::unknown_alone, crate::proofs::Alone::subtype_alone))]
pub(crate) fn value_for(
    alloc: Global,
    world: &World,
    want: Want,
    place: Place,
    seen: Seen,
) -> Result<Found<i128>, Starved>
    ensures { IfOk result (λ n. n ≡ value_for world.now want place seen) }
{
    match want {
        Want::Type(ty) => value_of_type(alloc, world, Code::L21, ty, place, seen),
        Want::Free | Want::Unknown | Want::Subtype(_) => Ok(value_alone(seen)),
    }
}
