//! The lists of a subprogram's indexes, loop parameters and loops, and their numbers.

ghost use Rattle.std.specs.Prelude.{◌≡◌, ◌++◌, IfOk, OnOk, map};
ghost use Rattle.program_scope.specs.Homes.{file_of};
ghost use Rattle.statement_typing.specs.Numbers.{in_aspects, in_decls, in_stmts, is_post, is_pre, loops_in, numbered, numbered_from, turns_in};
ghost use Rattle.syntax_view.specs.View.{aspect_of, decl, decls_of, stmt, stmts_of};

use crate::Starved;
use crate::aspects::push_contract;
use crate::declarations::push_decls;
use crate::loops::push_loops;
use crate::statements::push_stmts;
use crate::turns::push_turns;
use ada_syntax::{Aspect, Decl, Stmt};
use program_scope::File;
use reading_scope::{Numbered, Numbers};
use sqlite_items::Items;
use std::alloc::Global;

/// The first bytes of the indexes of a body's declarations and statements. `Err` where memory was refused.
pub fn body_indexes(
    alloc: Global,
    declarations: &Items<Decl>,
    statements: &Items<Stmt>,
) -> Result<Items<u32>, Starved>
    ensures { IfOk result (λ found. found ≡ in_decls (decls_of decl declarations.now) ++ in_stmts (stmts_of stmt statements.now)) }
{
    let mut found = Items::new(alloc);
    push_decls(&mut found, declarations)?;
    push_stmts(&mut found, statements)?;
    Ok(found)
}

/// The first bytes of the indexes of a contract: those of its `Pre`, and then those of its `Post`. `Err` where memory was refused.
pub fn contract_indexes(
    alloc: Global,
    file: &File,
    aspects: &[Aspect],
) -> Result<Items<u32>, Starved>
    ensures { IfOk result (λ found. found ≡ in_aspects is_pre (file_of file.now).word (map aspect_of aspects.now) ++ in_aspects is_post (file_of file.now).word (map aspect_of aspects.now)) }
{
    let mut found = Items::new(alloc);
    push_contract(&mut found, file, aspects)?;
    Ok(found)
}

/// The first bytes of the names of the loop parameters of statements. `Err` where memory was refused.
pub fn turns_in(alloc: Global, statements: &Items<Stmt>) -> Result<Items<u32>, Starved>
    ensures { IfOk result (λ found. found ≡ turns_in (stmts_of stmt statements.now)) }
{
    let mut found = Items::new(alloc);
    push_turns(&mut found, statements)?;
    Ok(found)
}

/// The first bytes of the loops of statements. `Err` where memory was refused.
pub fn loops_in(alloc: Global, statements: &Items<Stmt>) -> Result<Items<u32>, Starved>
    ensures { IfOk result (λ found. found ≡ loops_in (stmts_of stmt statements.now)) }
{
    let mut found = Items::new(alloc);
    push_loops(&mut found, statements)?;
    Ok(found)
}

/// Numbers places from a number on. `Err` where memory was refused, as it is where a number would be 2^32 or more.
fn push_numbered(found: &mut Items<Numbered>, first: u32, places: &[u32]) -> Result<(), Starved>
    ensures { OnOk result (found.new ≡ found.old ++ numbered_from first places.now) }
{
    let mut number = first;
    for at in places {
        found.push(Numbered { at: *at, number })?;
        let Some(next) = number.checked_add(1) else {
            return Err(Starved);
        };
        number = next;
    }
    Ok(())
}

/// The numbers of a subprogram's indexes, which go on from the first, of its loop parameters and of its loops, both from 0. `Err` where
/// memory was refused, as it is where a number would be 2^32 or more.
pub fn numbered(
    alloc: Global,
    first: u32,
    indexes: &[u32],
    turns: &[u32],
    loops: &[u32],
) -> Result<Numbers, Starved>
    ensures { IfOk result (λ numbers. numbers ≡ numbered first indexes.now turns.now loops.now) }
{
    let mut found = Items::new(alloc);
    push_numbered(&mut found, first, indexes)?;
    push_numbered(&mut found, 0, turns)?;
    push_numbered(&mut found, 0, loops)?;
    Numbers::new(alloc, found)
}
