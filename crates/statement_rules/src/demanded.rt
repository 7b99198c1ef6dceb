//! What pragmas demand: assertions, loop invariants and loop variants (Ada RM 11.4.2, SPARK RM 5.5.3).

ghost use Rattle.std.specs.Prelude.{◌≡◌, IfOk};
ghost use Rattle.statement_rules.specs.Reads.{checked_by, way_by};
ghost use Rattle.statement_typing.specs.Pragmas.{as_integer, direction_of, moved_value};
ghost use Rattle.typed_units.specs.declared.statements.Action.TheVariants as action;
ghost use Rattle.typing_rules.specs.Fits.{with_found};

use crate::checks::with_refused;
use ada_values::Place;
use name_numbers::Word;
use std::alloc::Global;
use type_base::{
    Code, Demand, INTEGER_BASE, Refusal, Seen, Starved, World, operand, placed_number,
};
use typed_units::{Action, Direction, Expr, Stmt, Way};
use typing_rules::Found;
use value_rules::found_expr;

/// The condition of a pragma's argument at a place, that stands after `=>`: L9 is broken where what stands before it isn't
/// `Check`.
pub fn checked_by(place: Place, word: Option<Word>, condition: Found<Expr>) -> Found<Expr>
    ensures { result ≡ checked_by place word condition }
{
    match word {
        Some(Word::Check) => condition,
        _ => with_refused(
            Refusal {
                code: Code::L9,
                place,
            },
            condition,
        ),
    }
}

/// The direction that a word is.
pub fn direction_of(word: Option<Word>) -> Option<Direction>
    ensures { result ≡ direction_of word }
{
    match word {
        Some(Word::Increases) => Some(Direction::Increases),
        Some(Word::Decreases) => Some(Direction::Decreases),
        _ => None,
    }
}

fn as_integer(alloc: Global, world: &World, place: Place, seen: Seen) -> Result<Seen, Starved>
    ensures { IfOk result (λ s. s ≡ as_integer world.now place seen) }
{
    match seen {
        Seen::Number(number) => placed_number(
            alloc,
            world,
            Code::L25,
            place,
            place,
            INTEGER_BASE,
            number,
        ),
        Seen::Refused(refusal) => Ok(Seen::Refused(refusal)),
        Seen::Unknown => Ok(Seen::Unknown),
        Seen::Typed(ty, x) => Ok(Seen::Typed(ty, x)),
    }
}

/// The expression of a loop variant that is seen at a place; by L25 it is of an integer type. `Err` where memory was refused.
pub fn moved_value(
    alloc: Global,
    world: &World,
    place: Place,
    seen: Seen,
) -> Result<Found<Expr>, Starved>
    ensures { IfOk result (λ f. f ≡ moved_value world.now place seen) }
{
    let read = operand(world, Demand::Integer, Code::L25, place, seen);
    match as_integer(alloc, world, place, read) {
        Ok(read) => Ok(found_expr(read)),
        Err(error) => Err(error),
    }
}

/// An argument of a loop variant at a place; L25 is broken where it has no direction.
pub fn way_by(place: Place, direction: Option<Direction>, value: Found<Expr>) -> Found<Way>
    ensures { result ≡ way_by place direction value }
{
    match direction {
        None => {
            let code = Code::L25;
            with_refused(Refusal { code, place }, value)
        }
        Some(direction) => match value {
            Found::Is(value) => Found::Is(Way { direction, value }),
            Found::Unknown => Found::Unknown,
            Found::Refused(refusal) => Found::Refused(refusal),
        },
    }
}

/// `pragma Assert`, by its condition.
pub fn assert_read(condition: Found<Expr>) -> Found<Action<Stmt>>
    ensures { result ≡ with_found action.Assert condition }
{
    match condition {
        Found::Is(x) => Found::Is(Action::Assert(x)),
        Found::Unknown => Found::Unknown,
        Found::Refused(refusal) => Found::Refused(refusal),
    }
}

/// `pragma Assume`, by its condition.
pub fn assume_read(condition: Found<Expr>) -> Found<Action<Stmt>>
    ensures { result ≡ with_found action.Assume condition }
{
    match condition {
        Found::Is(x) => Found::Is(Action::Assume(x)),
        Found::Unknown => Found::Unknown,
        Found::Refused(refusal) => Found::Refused(refusal),
    }
}
