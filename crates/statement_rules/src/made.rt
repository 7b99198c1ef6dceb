//! Statements that are made of their parts (Ada RM 5.1, 5.3).

ghost use Rattle.std.specs.Prelude.{◌≡◌, IfOk};
ghost use Rattle.statement_typing.specs.Statements.{stmt_at};
ghost use Rattle.typed_units.specs.declared.statements.Action.TheVariants as action;
ghost use Rattle.typing_rules.specs.Fits.{both, with_found};

use crate::checks::{with_refused, with_unknown};
use ada_values::Place;
use sqlite_items::{Boxed, Items};
use std::alloc::Global;
use type_base::Starved;
use typed_units::{Action, Branch, Expr, Stmt};
use typing_rules::Found;

fn branch_made(condition: Expr, body: Found<Items<Stmt>>) -> Found<Branch<Stmt>>
    ensures { result ≡ with_found (λ ys. record { condition = condition; body = ys }) body }
{
    match body {
        Found::Is(body) => Found::Is(Branch { condition, body }),
        Found::Unknown => {
            drop(condition);
            Found::Unknown
        }
        Found::Refused(refusal) => {
            drop(condition);
            Found::Refused(refusal)
        }
    }
}

/// A branch of an `if`, of its condition and its statements.
pub fn branch_read(condition: Found<Expr>, body: Found<Items<Stmt>>) -> Found<Branch<Stmt>>
    ensures { result ≡ both (λ x ys. record { condition = x; body = ys }) condition body }
{
    match condition {
        Found::Refused(refusal) => with_refused(refusal, body),
        Found::Unknown => with_unknown(body),
        Found::Is(condition) => branch_made(condition, body),
    }
}

fn if_made(branches: Items<Branch<Stmt>>, otherwise: Found<Items<Stmt>>) -> Found<Action<Stmt>>
    ensures { result ≡ with_found (λ ss. action.If branches ss) otherwise }
{
    match otherwise {
        Found::Is(otherwise) => Found::Is(Action::If(branches, otherwise)),
        Found::Unknown => {
            drop(branches);
            Found::Unknown
        }
        Found::Refused(refusal) => {
            drop(branches);
            Found::Refused(refusal)
        }
    }
}

/// An `if`, of its branches and the statements after `else`.
pub fn if_read(
    branches: Found<Items<Branch<Stmt>>>,
    otherwise: Found<Items<Stmt>>,
) -> Found<Action<Stmt>>
    ensures { result ≡ both action.If branches otherwise }
{
    match branches {
        Found::Refused(refusal) => with_refused(refusal, otherwise),
        Found::Unknown => with_unknown(otherwise),
        Found::Is(branches) => if_made(branches, otherwise),
    }
}

/// A statement at a place, of what it does. `Err` where memory was refused.
pub fn stmt_at(
    alloc: Global,
    place: Place,
    action: Found<Action<Stmt>>,
) -> Result<Found<Stmt>, Starved>
    ensures { IfOk result (λ s. s ≡ stmt_at place action) }
{
    match action {
        Found::Is(action) => match Boxed::new(alloc, action) {
            Ok(action) => Ok(Found::Is(Stmt { place, action })),
            Err(error) => Err(error),
        },
        Found::Unknown => Ok(Found::Unknown),
        Found::Refused(refusal) => Ok(Found::Refused(refusal)),
    }
}
