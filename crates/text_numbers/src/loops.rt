//! The loops of statements (Ada RM 5.5), in the order of the text.

ghost use Rattle.std.specs.Prelude.{◌≡◌, ◌++◌, OnOk};
ghost use Rattle.statement_typing.specs.Numbers.{loops_in, loops_in_alternatives, loops_in_branches, loops_of};
ghost use Rattle.syntax_view.specs.View.{alternatives_of, branches_of, stmt, stmts_of};

use crate::Starved;
use ada_syntax::{Action, Alternative, Branch, Stmt};
use sqlite_items::Items;

#[cycle(loops)]
fn push_in_branches(found: &mut Items<u32>, branches: &Items<Branch<Stmt>>) -> Result<(), Starved>
    ensures { OnOk result (found.new ≡ found.old ++ loops_in_branches (branches_of stmt branches.now)) }
{
    for branch in branches.as_slice() {
        push_loops(found, &branch.body)?;
    }
    Ok(())
}

#[cycle(loops)]
fn push_in_alternatives(
    found: &mut Items<u32>,
    alternatives: &Items<Alternative<Stmt>>,
) -> Result<(), Starved>
    ensures { OnOk result (found.new ≡ found.old ++ loops_in_alternatives (alternatives_of stmt alternatives.now)) }
{
    for alternative in alternatives.as_slice() {
        push_loops(found, &alternative.body)?;
    }
    Ok(())
}

/// Adds the loops of statements: their first bytes.
#[cycle(loops)]
pub(crate) fn push_loops(found: &mut Items<u32>, statements: &Items<Stmt>) -> Result<(), Starved>
    ensures { OnOk result (found.new ≡ found.old ++ loops_in (stmts_of stmt statements.now)) }
{
    for statement in statements.as_slice() {
        push_in_stmt(found, statement)?;
    }
    Ok(())
}

#[tactic(auto, using(syntax_view::proofs::Forms::stmt_has, crate::proofs::Joined::joined))]
#[cycle(loops)]
fn push_in_stmt(found: &mut Items<u32>, statement: &Stmt) -> Result<(), Starved>
    ensures { OnOk result (found.new ≡ found.old ++ loops_of (stmt statement.now)) }
{
    match statement.action.get() {
        Action::If(branches, otherwise) => {
            push_in_branches(found, branches)?;
            push_loops(found, otherwise)
        }
        Action::Case(_, alternatives) => push_in_alternatives(found, alternatives),
        Action::Loop(_, body) => {
            found.push(statement.span.from)?;
            push_loops(found, body)
        }
        Action::Null
        | Action::Call(_)
        | Action::Assign(_, _)
        | Action::Exit(_)
        | Action::Return(_)
        | Action::Pragma(_) => Ok(()),
    }
}
