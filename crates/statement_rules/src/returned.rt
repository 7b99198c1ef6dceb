//! What leaves a subprogram or a loop: `return` and `exit` (Ada RM 5.7, 6.5).

ghost use Rattle.std.specs.Prelude.{◌≡◌, IfOk, None, option_map};
ghost use Rattle.statement_rules.specs.Arounds.{around_of, loop_from, returns_of};
ghost use Rattle.statement_rules.specs.Reads.{return_read, return_want, returned_read, returned_want};
ghost use Rattle.statement_typing.specs.Statements.{exit_of, in_loop, return_of};
ghost use Rattle.typed_units.specs.declared.statements.Action.TheVariants as action;
ghost use Rattle.typing_rules.specs.Fits.{both, with_found};

use crate::around::{Around, Loop, Returns};
use crate::checks::{heard, with_refused, with_unknown};
use ada_values::Place;
use std::alloc::Global;
use type_base::{Code, Refusal, Seen, Starved, Want, World};
use typed_units::{Action, Expr, Fitted, Stmt};
use typing_rules::Found;
use value_rules::fit;

/// What a returned value is read for, by the subtype of a function's result.
pub fn returned_want(subtype: &Found<u32>) -> Want
    ensures { result ≡ returned_want subtype.now }
{
    match subtype {
        Found::Is(subtype) => Want::Subtype(*subtype),
        Found::Unknown | Found::Refused(_) => Want::Unknown,
    }
}

/// What the expression of a `return` is read for.
pub fn return_want(returns: &Returns) -> Want
    ensures { result ≡ return_want (returns_of returns.now) }
{
    match returns {
        Returns::Nothing => Want::Free,
        Returns::Value(subtype) => returned_want(subtype),
    }
}

/// A returned value that is seen at a place. L13 is broken where it isn't of the result's subtype. `Err` where memory was
/// refused.
pub fn returned_read(
    alloc: Global,
    world: &World,
    subtype: &Found<u32>,
    place: Place,
    seen: Seen,
) -> Result<Found<Fitted<Expr>>, Starved>
    ensures { IfOk result (λ f. f ≡ returned_read world.now subtype.now place seen) }
{
    match subtype {
        Found::Is(subtype) => fit(alloc, world, Code::L13, false, *subtype, place, seen),
        Found::Unknown | Found::Refused(_) => Ok(with_unknown(heard(seen))),
    }
}

fn given(value: Found<Fitted<Expr>>) -> Found<Action<Stmt>>
    ensures { result ≡ with_found action.Give value }
{
    match value {
        Found::Is(value) => Found::Is(Action::Give(value)),
        Found::Unknown => Found::Unknown,
        Found::Refused(refusal) => Found::Refused(refusal),
    }
}

/// A `return` with an expression that is seen at a place; a procedure's breaks L13. `Err` where memory was refused.
pub fn return_read(
    alloc: Global,
    world: &World,
    returns: &Returns,
    place: Place,
    seen: Seen,
) -> Result<Found<Action<Stmt>>, Starved>
    ensures { IfOk result (λ f. f ≡ return_read world.now (returns_of returns.now) place seen) }
{
    match returns {
        Returns::Nothing => {
            let code = Code::L13;
            Ok(with_refused(Refusal { code, place }, heard(seen)))
        }
        Returns::Value(subtype) => match returned_read(alloc, world, subtype, place, seen) {
            Ok(value) => Ok(given(value)),
            Err(error) => Err(error),
        },
    }
}

/// A `return` at a place, without an expression; a function's breaks L13.
pub fn return_alone(around: &Around, place: Place) -> Found<Action<Stmt>>
    ensures { result ≡ return_of (around_of around.now) place (around_of around.now).returns None }
{
    match around.returns {
        Returns::Nothing => Found::Is(Action::Return),
        Returns::Value(_) => Found::Refused(Refusal {
            code: Code::L13,
            place,
        }),
    }
}

/// An `exit` at a place, without a condition; outside a loop it breaks L24.
pub fn exit_alone(around: &Around, place: Place) -> Found<Action<Stmt>>
    ensures { result ≡ exit_of (around_of around.now) place None }
{
    match around.inner {
        Some(_) => Found::Is(Action::Exit),
        None => Found::Refused(Refusal {
            code: Code::L24,
            place,
        }),
    }
}

/// An `exit` at a place, with a condition; outside a loop it breaks L24.
pub fn exit_when(inner: Option<Loop>, place: Place, tested: Found<Expr>) -> Found<Action<Stmt>>
    ensures { result ≡ both (λ b x. action.ExitWhen x) (in_loop (option_map loop_from inner) place) tested }
{
    match inner {
        None => {
            let code = Code::L24;
            with_refused(Refusal { code, place }, tested)
        }
        Some(_) => match tested {
            Found::Is(x) => Found::Is(Action::ExitWhen(x)),
            Found::Unknown => Found::Unknown,
            Found::Refused(refusal) => Found::Refused(refusal),
        },
    }
}
