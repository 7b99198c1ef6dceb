//! The indexes of the quantified expressions in statements (Ada RM 5), in the order of the text.

ghost use Rattle.std.specs.Prelude.{◌≡◌, ◌++◌, OnOk, map, option_map};
ghost use Rattle.statement_typing.specs.Numbers.{in_alternatives, in_branches, in_case_choices, in_expr, in_head, in_option, in_stmt, in_stmts};
ghost use Rattle.syntax_view.specs.View.{alternatives_of, branches_of, case_choice_of, expr, head_of, stmt, stmts_of};

use crate::Starved;
use crate::expressions::{push_args, push_expr, push_name, push_range};
use ada_syntax::{Action, Alternative, Branch, Choice, Expr, LoopHead, Stmt};
use sqlite_items::Items;

pub(crate) fn push_option(found: &mut Items<u32>, e: &Option<Expr>) -> Result<(), Starved>
    ensures { OnOk result (found.new ≡ found.old ++ in_option (option_map expr e.now)) }
{
    match e {
        None => Ok(()),
        Some(e) => push_expr(found, e),
    }
}

fn push_case_choices(found: &mut Items<u32>, choices: &[Choice]) -> Result<(), Starved>
    ensures { OnOk result (found.new ≡ found.old ++ in_case_choices (map case_choice_of choices.now)) }
{
    for choice in choices {
        match choice {
            Choice::Others => {}
            Choice::Range(range) => push_range(found, range)?,
        }
    }
    Ok(())
}

fn push_head(found: &mut Items<u32>, head: &LoopHead) -> Result<(), Starved>
    ensures { OnOk result (found.new ≡ found.old ++ in_head (head_of head.now)) }
{
    match head {
        LoopHead::Forever => Ok(()),
        LoopHead::While(e) => push_expr(found, e),
        LoopHead::For(_, _, range) => push_range(found, range),
    }
}

#[cycle(stmts)]
fn push_branch(found: &mut Items<u32>, branch: &Branch<Stmt>) -> Result<(), Starved>
    ensures { OnOk result (found.new ≡ found.old ++ (in_expr (expr branch.now.condition) ++ in_stmts (stmts_of stmt branch.now.body))) }
{
    push_expr(found, &branch.condition)?;
    push_stmts(found, &branch.body)
}

#[cycle(stmts)]
fn push_branches(found: &mut Items<u32>, branches: &Items<Branch<Stmt>>) -> Result<(), Starved>
    ensures { OnOk result (found.new ≡ found.old ++ in_branches (branches_of stmt branches.now)) }
{
    for branch in branches.as_slice() {
        push_branch(found, branch)?;
    }
    Ok(())
}

#[cycle(stmts)]
fn push_alternative(found: &mut Items<u32>, alternative: &Alternative<Stmt>) -> Result<(), Starved>
    ensures { OnOk result (found.new ≡ found.old ++ (in_case_choices (map case_choice_of alternative.now.choices) ++ in_stmts (stmts_of stmt alternative.now.body))) }
{
    push_case_choices(found, alternative.choices.as_slice())?;
    push_stmts(found, &alternative.body)
}

#[cycle(stmts)]
fn push_alternatives(
    found: &mut Items<u32>,
    alternatives: &Items<Alternative<Stmt>>,
) -> Result<(), Starved>
    ensures { OnOk result (found.new ≡ found.old ++ in_alternatives (alternatives_of stmt alternatives.now)) }
{
    for alternative in alternatives.as_slice() {
        push_alternative(found, alternative)?;
    }
    Ok(())
}

/// Adds the indexes of statements.
#[cycle(stmts)]
pub(crate) fn push_stmts(found: &mut Items<u32>, statements: &Items<Stmt>) -> Result<(), Starved>
    ensures { OnOk result (found.new ≡ found.old ++ in_stmts (stmts_of stmt statements.now)) }
{
    for statement in statements.as_slice() {
        push_stmt(found, statement)?;
    }
    Ok(())
}

#[tactic(auto, using(syntax_view::proofs::Forms::stmt_has, crate::proofs::Joined::joined))]
#[cycle(stmts)]
fn push_stmt(found: &mut Items<u32>, statement: &Stmt) -> Result<(), Starved>
    ensures { OnOk result (found.new ≡ found.old ++ in_stmt (stmt statement.now)) }
{
    match statement.action.get() {
        Action::Null => Ok(()),
        Action::Call(name) => push_name(found, name),
        Action::Assign(target, value) => {
            push_name(found, target)?;
            push_expr(found, value)
        }
        Action::If(branches, otherwise) => {
            push_branches(found, branches)?;
            push_stmts(found, otherwise)
        }
        Action::Case(selector, alternatives) => {
            push_expr(found, selector)?;
            push_alternatives(found, alternatives)
        }
        Action::Loop(head, body) => {
            push_head(found, head)?;
            push_stmts(found, body)
        }
        Action::Exit(e) | Action::Return(e) => push_option(found, e),
        Action::Pragma(pragma) => push_args(found, &pragma.args),
    }
}
