//! The numbers of a body's loop parameters, indexes and loops.

ghost use Rattle.std.specs.Prelude.{◌≡◌, ◌++◌, IfOk, length};
ghost use Rattle.statement_typing.specs.Numbers.{in_decls, in_stmts, loops_in, numbered, turns_in};
ghost use Rattle.syntax_view.specs.View.{decl, decls_of, stmt, stmts_of};

use crate::Starved;
use ada_syntax::{Body, Decl};
use reading_scope::Numbers;
use std::alloc::{AllocError, Global};
use text_numbers::{body_indexes, loops_in, numbered, turns_in};

/// The numbers of a body, and how many loop parameters, indexes and loops it has.
#[derive(Drop)]
pub(crate) struct BodyNumbers {
    pub numbers: Numbers,
    pub turns: u32,
    pub indexes: u32,
    pub loops: u32,
}

fn count(list: &[u32]) -> Result<u32, Starved>
    ensures { IfOk result (λ n. n ≡ length list.now) }
{
    match u32::try_from(list.len()) {
        Ok(count) => Ok(count),
        Err(_) => Err(AllocError),
    }
}

/// The numbers of a body whose subprogram has so many indexes in its contract. `Err` where memory was refused, as it is
/// where a body has 2^32 of them.
pub(crate) fn body_numbers(
    alloc: Global,
    first: u32,
    body: &Body<Decl>,
) -> Result<BodyNumbers, Starved>
    ensures numbers { IfOk result (λ b. b.numbers ≡ numbered first (in_decls (decls_of decl body.now.declarations) ++ in_stmts (stmts_of stmt body.now.statements)) (turns_in (stmts_of stmt body.now.statements)) (loops_in (stmts_of stmt body.now.statements))) }
    ensures turns { IfOk result (λ b. b.turns ≡ length (turns_in (stmts_of stmt body.now.statements))) }
    ensures indexes { IfOk result (λ b. b.indexes ≡ length (in_decls (decls_of decl body.now.declarations) ++ in_stmts (stmts_of stmt body.now.statements))) }
    ensures loops { IfOk result (λ b. b.loops ≡ length (loops_in (stmts_of stmt body.now.statements))) }
{
    let indexes = body_indexes(alloc, &body.declarations, &body.statements)?;
    let turns = turns_in(alloc, &body.statements)?;
    let loops = loops_in(alloc, &body.statements)?;
    let numbers = numbered(
        alloc,
        first,
        indexes.as_slice(),
        turns.as_slice(),
        loops.as_slice(),
    )?;
    let turns = count(turns.as_slice())?;
    let indexes = count(indexes.as_slice())?;
    let loops = count(loops.as_slice())?;
    Ok(BodyNumbers {
        numbers,
        turns,
        indexes,
        loops,
    })
}
