//! The statements of a loop: those before its group of invariants and variants, the group, and those after it.

ghost use Rattle.std.specs.Prelude.{◌≡◌, IfOk};
ghost use Rattle.statement_rules.specs.Bodies.{bodies, body_from, stage_as};
ghost use Rattle.statement_typing.specs.Statements.{add_after, add_before, add_demand, loop_of, with_demand, with_stmt};
ghost use Rattle.typing_rules.specs.declared.prefix.Found.TheVariants.{Is};

use crate::checks::{with_refused, with_unknown};
use sqlite_items::Items;
use type_base::Starved;
use typed_units::{Action, Demand, Head, LoopParts, Stmt};
use typing_rules::Found;

/// The statements of a loop so far.
#[derive(Drop)]
pub struct LoopBody {
    pub before: Items<Stmt>,
    pub group: Items<Demand>,
    pub after: Items<Stmt>,
}

/// How far the statements of a loop are.
#[derive(Clone, Copy)]
pub enum Stage {
    BeforeGroup,
    /// In the group, and whether it has a variant.
    InGroup(bool),
    AfterGroup,
}

/// A loop's statements, with one demand more in its group. `Err` where memory was refused.
pub fn add_demand(mut body: LoopBody, demand: Demand) -> Result<LoopBody, Starved>
    ensures { IfOk result (λ b. body_from b ≡ add_demand (body_from body) demand) }
{
    match body.group.push(demand) {
        Ok(()) => Ok(body),
        Err(error) => {
            drop(body);
            Err(error)
        }
    }
}

/// The same for what is found of them.
pub fn with_demand(body: Found<LoopBody>, demand: Found<Demand>) -> Result<Found<LoopBody>, Starved>
    ensures { IfOk result (λ b. bodies b ≡ with_demand (bodies body) demand) }
{
    match body {
        Found::Refused(refusal) => Ok(with_refused(refusal, demand)),
        Found::Unknown => Ok(with_unknown(demand)),
        Found::Is(body) => match demand {
            Found::Is(demand) => match add_demand(body, demand) {
                Ok(body) => Ok(Found::Is(body)),
                Err(error) => Err(error),
            },
            Found::Unknown => {
                drop(body);
                Ok(Found::Unknown)
            }
            Found::Refused(refusal) => {
                drop(body);
                Ok(Found::Refused(refusal))
            }
        },
    }
}

fn add_before(mut body: LoopBody, stmt: Stmt) -> Result<LoopBody, Starved>
    ensures { IfOk result (λ b. body_from b ≡ add_before (body_from body) stmt) }
{
    match body.before.push(stmt) {
        Ok(()) => Ok(body),
        Err(error) => {
            drop(body);
            Err(error)
        }
    }
}

fn add_after(mut body: LoopBody, stmt: Stmt) -> Result<LoopBody, Starved>
    ensures { IfOk result (λ b. body_from b ≡ add_after (body_from body) stmt) }
{
    match body.after.push(stmt) {
        Ok(()) => Ok(body),
        Err(error) => {
            drop(body);
            Err(error)
        }
    }
}

fn add_stmt(stage: Stage, body: LoopBody, stmt: Stmt) -> Result<Found<LoopBody>, Starved>
    ensures { IfOk result (λ b. bodies b ≡ with_stmt (stage_as stage) (Is (body_from body)) (Is stmt)) }
{
    let added = match stage {
        Stage::BeforeGroup => add_before(body, stmt),
        Stage::InGroup(_) | Stage::AfterGroup => add_after(body, stmt),
    };
    match added {
        Ok(body) => Ok(Found::Is(body)),
        Err(error) => Err(error),
    }
}

/// A loop's statements, with one more after those so far. `Err` where memory was refused.
pub fn with_stmt(
    stage: Stage,
    body: Found<LoopBody>,
    stmt: Found<Stmt>,
) -> Result<Found<LoopBody>, Starved>
    ensures { IfOk result (λ b. bodies b ≡ with_stmt (stage_as stage) (bodies body) stmt) }
{
    match body {
        Found::Refused(refusal) => Ok(with_refused(refusal, stmt)),
        Found::Unknown => Ok(with_unknown(stmt)),
        Found::Is(body) => match stmt {
            Found::Is(stmt) => add_stmt(stage, body, stmt),
            Found::Unknown => {
                drop(body);
                Ok(Found::Unknown)
            }
            Found::Refused(refusal) => {
                drop(body);
                Ok(Found::Refused(refusal))
            }
        },
    }
}

fn loop_made(number: u32, head: Head, body: Found<LoopBody>) -> Found<Action<Stmt>>
    ensures { result ≡ loop_of number (Is head) (bodies body) }
{
    match body {
        Found::Is(body) => {
            let LoopBody {
                before,
                group,
                after,
            } = body;
            Found::Is(Action::Loop(LoopParts {
                number,
                head,
                before,
                group,
                after,
            }))
        }
        Found::Unknown => {
            drop(head);
            Found::Unknown
        }
        Found::Refused(refusal) => {
            drop(head);
            Found::Refused(refusal)
        }
    }
}

/// A loop of this number, of its head and its statements.
pub fn loop_read(number: u32, head: Found<Head>, body: Found<LoopBody>) -> Found<Action<Stmt>>
    ensures { result ≡ loop_of number head (bodies body) }
{
    match head {
        Found::Refused(refusal) => with_refused(refusal, body),
        Found::Unknown => with_unknown(body),
        Found::Is(head) => loop_made(number, head, body),
    }
}
