//! The loop parameters of statements (Ada RM 5.5), in the order of the text.

ghost use Rattle.std.specs.Prelude.{◌≡◌, ◌++◌, OnOk};
ghost use Rattle.statement_typing.specs.Numbers.{parameter_of, turns_in, turns_in_alternatives, turns_in_branches, turns_of};
ghost use Rattle.syntax_view.specs.View.{alternatives_of, branches_of, head_of, stmt, stmts_of};

use crate::Starved;
use ada_syntax::{Action, Alternative, Branch, LoopHead, Stmt};
use sqlite_items::Items;

fn push_parameter(found: &mut Items<u32>, head: &LoopHead) -> Result<(), Starved>
    ensures { OnOk result (found.new ≡ found.old ++ parameter_of (head_of head.now)) }
{
    match head {
        LoopHead::Forever | LoopHead::While(_) => Ok(()),
        LoopHead::For(name, _, _) => found.push(name.from),
    }
}

#[cycle(turns)]
fn push_in_branches(found: &mut Items<u32>, branches: &Items<Branch<Stmt>>) -> Result<(), Starved>
    ensures { OnOk result (found.new ≡ found.old ++ turns_in_branches (branches_of stmt branches.now)) }
{
    for branch in branches.as_slice() {
        push_turns(found, &branch.body)?;
    }
    Ok(())
}

#[cycle(turns)]
fn push_in_alternatives(
    found: &mut Items<u32>,
    alternatives: &Items<Alternative<Stmt>>,
) -> Result<(), Starved>
    ensures { OnOk result (found.new ≡ found.old ++ turns_in_alternatives (alternatives_of stmt alternatives.now)) }
{
    for alternative in alternatives.as_slice() {
        push_turns(found, &alternative.body)?;
    }
    Ok(())
}

/// Adds the loop parameters of statements: the first bytes of their names.
#[cycle(turns)]
pub(crate) fn push_turns(found: &mut Items<u32>, statements: &Items<Stmt>) -> Result<(), Starved>
    ensures { OnOk result (found.new ≡ found.old ++ turns_in (stmts_of stmt statements.now)) }
{
    for statement in statements.as_slice() {
        push_in_stmt(found, statement)?;
    }
    Ok(())
}

#[tactic(auto, using(syntax_view::proofs::Forms::stmt_has, crate::proofs::Joined::joined))]
#[cycle(turns)]
fn push_in_stmt(found: &mut Items<u32>, statement: &Stmt) -> Result<(), Starved>
    ensures { OnOk result (found.new ≡ found.old ++ turns_of (stmt statement.now)) }
{
    match statement.action.get() {
        Action::If(branches, otherwise) => {
            push_in_branches(found, branches)?;
            push_turns(found, otherwise)
        }
        Action::Case(_, alternatives) => push_in_alternatives(found, alternatives),
        Action::Loop(head, body) => {
            push_parameter(found, head)?;
            push_turns(found, body)
        }
        Action::Null
        | Action::Call(_)
        | Action::Assign(_, _)
        | Action::Exit(_)
        | Action::Return(_)
        | Action::Pragma(_) => Ok(()),
    }
}
