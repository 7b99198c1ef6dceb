//! The rules of types over a whole program.

ghost use Rattle.std.specs.Prelude.{◌≡◌, ◌<◌, ◌^◌, IfOk, length, map};
ghost use Rattle.program_scope.specs.Homes.{file_of};
ghost use Rattle.statement_typing.specs.Tellings.{told_answer};
ghost use Rattle.statement_typing.specs.Units.{answer};
ghost use Rattle.type_checker.specs.Sources as seen;

use crate::Starved;
use crate::files::{Shared, files_declared, files_of};
use name_library::Spot;
use name_resolver::{Named, SourceFile};
use program_parts::{program_of, routines, start, variables};
use program_scope::{File, SpotRanks};
use reading_scope::Numbers;
use sqlite_items::Items;
use statement_typing::{Answer, Variable};
use std::alloc::Global;

fn spots_of(alloc: Global, mut variables: &[Variable]) -> Result<Items<Spot>, Starved>
    ensures { IfOk result (λ spots. spots ≡ map (λ v. v.spot) variables.entry.now) }
{
    let mut spots = Items::new(alloc);
    while let [variable, rest @ ..] = variables {
        spots.push(variable.spot)?;
        variables = rest;
    }
    Ok(spots)
}

/// What is answered of files in this order.
fn check_files(alloc: Global, files: &[File], order: &[u32]) -> Result<Answer, Starved>
    ensures { IfOk result (λ a. a ≡ told_answer (map file_of files.now) order.now) }
{
    let variables = variables(alloc, files)?;
    let routines = routines(alloc, files)?;
    let mut draft = start(alloc, files, variables.as_slice(), routines.as_slice())?;
    let globals = SpotRanks::new(alloc, spots_of(alloc, variables.as_slice())?)?;
    let routines = SpotRanks::new(alloc, routines)?;
    let numbers = Numbers::new(alloc, Items::new(alloc))?;
    let shared = Shared {
        globals: &globals,
        routines: &routines,
        numbers: &numbers,
    };
    match files_declared(alloc, files, shared, order, &mut draft)? {
        Some(refusal) => Ok(Answer::Refused(refusal)),
        None => {
            let program = program_of(alloc, draft)?;
            Ok(Answer::Typed(program))
        }
    }
}

/// The typed program of files whose names are resolved, or the first of all rules of types that they break, by its file, its
/// place and its code. Files are told by their numbers from 0. `Err` where memory was refused, as it is for 2^32
/// files or more.
#[tactic(auto, using(declaration_laws::proofs::Answered::answer_is_told))]
pub fn type_check(alloc: Global, sources: &[SourceFile], named: &Named) -> Result<Answer, Starved>
    ensures { IfOk result (λ a. a ≡ answer (seen.files_of sources.now named.now.tables named.now.lines named.now.links) named.now.order) }
{
    let files = files_of(alloc, sources, named)?;
    check_files(alloc, files.as_slice(), named.order.as_slice())
}
