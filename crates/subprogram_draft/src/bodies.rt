//! Bodies of subprograms (Ada RM 6.3).

ghost use Rattle.std.specs.Prelude.{◌≡◌, OnOk, slice_get};
ghost use Rattle.program_scope.specs.Homes.{home_of};
ghost use Rattle.statement_typing.specs.Files.{rank, spot_of};
ghost use Rattle.statement_typing.specs.Units.{indexes_so_far, opened, with_opening};
ghost use Rattle.subprogram_draft.specs.Counted.{body_with};

use crate::Starved;
use crate::changes::{Change, Filling, change_routine};
use ada_text::Span;
use ada_values::Place;
use program_scope::Home;
use sqlite_items::Items;
use statement_typing::Draft;
use std::alloc::Global;
use std::mem;
use typed_units::Stmt;
use typing_rules::Found;

/// The number of the subprogram that an identifier declares, or how many there are where it declares none.
pub fn number_of(home: &Home, name: Span) -> u32
    ensures { result ≡ rank (home_of home.now).routines (spot_of (home_of home.now).file name) }
{
    home.routines.rank(home.file.spot_of(name))
}

/// How many indexes of quantified expressions a subprogram has so far, 0 where there is no such.
pub fn indexes_so_far(draft: &Draft, routine: u32) -> u32
    ensures { result ≡ indexes_so_far (slice_get draft.now.subs routine) }
{
    match draft.subs.get(routine) {
        Some(sub) => sub.indexes,
        None => 0,
    }
}

/// The body of a subprogram begins: there are no local objects yet.
pub fn opened(alloc: Global, draft: &mut Draft)
    ensures { draft.new ≡ opened draft.old }
{
    draft.locals = Items::new(alloc);
    draft.opening = Items::new(alloc);
}

/// A statement of the declarative part, as far as it is one. `Err` where memory was refused.
pub fn with_opening(statement: Found<Stmt>, draft: &mut Draft) -> Result<(), Starved>
    ensures { OnOk result (draft.new ≡ with_opening statement draft.old) }
{
    match statement {
        Found::Is(statement) => draft.opening.push(statement),
        Found::Unknown | Found::Refused(_) => Ok(()),
    }
}

/// A subprogram with its body: the place of its name, how many parameters of `for` loops, indexes of quantified expressions
/// and loops the body has, and its statements, as far as they are found. The draft's local objects and the statements of its
/// declarative part go to it. `Err` where memory was refused, as it is where the subprogram has 2^32 indexes or more.
pub fn with_body(
    alloc: Global,
    place: Place,
    routine: u32,
    turns: u32,
    indexes: u32,
    loops: u32,
    body: Found<Items<Stmt>>,
    draft: &mut Draft,
) -> Result<(), Starved>
    ensures { OnOk result (draft.new ≡ body_with place routine turns indexes loops body draft.old) }
{
    let locals = mem::replace(&mut draft.locals, Items::new(alloc));
    let opening = mem::replace(&mut draft.opening, Items::new(alloc));
    match body {
        Found::Is(body) => {
            let filling = Filling {
                place,
                locals,
                turns,
                indexes,
                loops,
                opening,
                body,
            };
            change_routine(alloc, routine, Change::Body(filling), &mut draft.subs)
        }
        Found::Unknown | Found::Refused(_) => {
            drop(locals);
            drop(opening);
            Ok(())
        }
    }
}
