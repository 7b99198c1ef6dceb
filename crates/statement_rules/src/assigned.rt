//! Assignments and calls (Ada RM 5.2, 6.4).

ghost use Rattle.std.specs.Prelude.{◌≡◌, IfOk};
ghost use Rattle.statement_rules.specs.Reads.{value_for_read, value_want};
ghost use Rattle.statement_typing.specs.Statements.{call_action};
ghost use Rattle.typed_units.specs.declared.statements.Action.TheVariants as action;
ghost use Rattle.typing_rules.specs.Fits.{both, with_found};

use crate::checks::{heard, with_refused, with_unknown};
use ada_values::Place;
use std::alloc::Global;
use type_base::{Code, Seen, Starved, Want, World};
use typed_units::{Action, Expr, Fitted, Stmt, Target};
use typing_rules::{Call, Found, Part};
use value_rules::fit;

/// What the value of an assignment to a target is read for.
pub fn value_want(target: &Found<Part>) -> Want
    ensures { result ≡ value_want target.now }
{
    match target {
        Found::Is(part) => Want::Subtype(part.subtype),
        Found::Unknown | Found::Refused(_) => Want::Unknown,
    }
}

/// The value of an assignment to a target, that is seen at a place. L8 is broken where it isn't of the target's subtype.
/// `Err` where memory was refused.
pub fn value_for_read(
    alloc: Global,
    world: &World,
    target: &Found<Part>,
    place: Place,
    seen: Seen,
) -> Result<Found<Fitted<Expr>>, Starved>
    ensures { IfOk result (λ f. f ≡ value_for_read world.now target.now place seen) }
{
    match target {
        Found::Is(part) => fit(alloc, world, Code::L8, true, part.subtype, place, seen),
        Found::Unknown | Found::Refused(_) => Ok(with_unknown(heard(seen))),
    }
}

fn assigned(target: Target<Expr>, value: Found<Fitted<Expr>>) -> Found<Action<Stmt>>
    ensures { result ≡ with_found (λ f. action.Assign target f) value }
{
    match value {
        Found::Is(value) => Found::Is(Action::Assign(target, value)),
        Found::Unknown => {
            drop(target);
            Found::Unknown
        }
        Found::Refused(refusal) => {
            drop(target);
            Found::Refused(refusal)
        }
    }
}

/// An assignment, of a target and a value.
pub fn assignment_read(target: Found<Part>, value: Found<Fitted<Expr>>) -> Found<Action<Stmt>>
    ensures { result ≡ both (λ g f. action.Assign g.target f) target value }
{
    match target {
        Found::Is(part) => {
            let Part { target, .. } = part;
            assigned(target, value)
        }
        Found::Unknown => with_unknown(value),
        Found::Refused(refusal) => with_refused(refusal, value),
    }
}

/// A call that stands as a statement.
pub fn call_action(call: Found<Call>) -> Found<Action<Stmt>>
    ensures { result ≡ with_found call_action call }
{
    match call {
        Found::Is(call) => {
            let Call { routine, arguments } = call;
            Found::Is(Action::Call(routine, arguments))
        }
        Found::Unknown => Found::Unknown,
        Found::Refused(refusal) => Found::Refused(refusal),
    }
}
