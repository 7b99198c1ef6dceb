//! Whether the statements of a function end with `return`, and whether those of a loop leave it (Ada RM 6.5).

ghost use Rattle.std.specs.Prelude.{◌≡◌};
ghost use Rattle.reading_scope.specs.Scopes.{scope_of};
ghost use Rattle.statement_rules.specs.Arounds.{returns_of};
ghost use Rattle.statement_typing.specs.Statements.{alternatives_end, alternatives_exit, branches_end, branches_exit, ended, ends, exits, has_exit, last_place, returns};
ghost use Rattle.syntax_view.specs.View.{alternatives_of, branches_of, stmt, stmts_of};

use crate::around::Returns;
use crate::checks::unless;
use ada_syntax::{Action, Alternative, Branch, LoopHead, Stmt};
use ada_values::Place;
use reading_scope::Scope;
use sqlite_items::Items;
use type_base::Code;
use typing_rules::Found;

/// Whether an `exit` of the loop whose statements these are stands in them.
#[cycle(exits)]
pub fn has_exit(statements: &Items<Stmt>) -> bool
    ensures { result ≡ has_exit (stmts_of stmt statements.now) }
{
    for statement in statements.as_slice() {
        if exits(statement) {
            return true;
        }
    }
    false
}

#[cycle(exits)]
fn branches_exit(branches: &Items<Branch<Stmt>>) -> bool
    ensures { result ≡ branches_exit (branches_of stmt branches.now) }
{
    for branch in branches.as_slice() {
        if has_exit(&branch.body) {
            return true;
        }
    }
    false
}

#[cycle(exits)]
fn alternatives_exit(alternatives: &Items<Alternative<Stmt>>) -> bool
    ensures { result ≡ alternatives_exit (alternatives_of stmt alternatives.now) }
{
    for alternative in alternatives.as_slice() {
        if has_exit(&alternative.body) {
            return true;
        }
    }
    false
}

/// Whether an `exit` of the loop that a statement stands in stands in it.
#[tactic(auto, using(syntax_view::proofs::Forms::stmt_has))]
#[cycle(exits)]
pub fn exits(statement: &Stmt) -> bool
    ensures { result ≡ exits (stmt statement.now) }
{
    match statement.action.get() {
        Action::Exit(_) => true,
        Action::If(branches, otherwise) => branches_exit(branches) || has_exit(otherwise),
        Action::Case(_, alternatives) => alternatives_exit(alternatives),
        _ => false,
    }
}

/// Whether statements end with `return`, by whichever way they come to their end.
#[cycle(ends)]
pub fn ends(statements: &Items<Stmt>) -> bool
    ensures { result ≡ ends (stmts_of stmt statements.now) }
{
    match statements.as_slice() {
        [] => false,
        [.., last] => returns(last),
    }
}

#[cycle(ends)]
fn branches_end(branches: &Items<Branch<Stmt>>) -> bool
    ensures { result ≡ branches_end (branches_of stmt branches.now) }
{
    for branch in branches.as_slice() {
        if !ends(&branch.body) {
            return false;
        }
    }
    true
}

#[cycle(ends)]
fn alternatives_end(alternatives: &Items<Alternative<Stmt>>) -> bool
    ensures { result ≡ alternatives_end (alternatives_of stmt alternatives.now) }
{
    for alternative in alternatives.as_slice() {
        if !ends(&alternative.body) {
            return false;
        }
    }
    true
}

/// Whether a statement ends with `return`, by whichever way it comes to its end: so does a loop that nothing leaves.
#[tactic(auto, using(syntax_view::proofs::Forms::stmt_has))]
#[cycle(ends)]
pub fn returns(statement: &Stmt) -> bool
    ensures { result ≡ returns (stmt statement.now) }
{
    match statement.action.get() {
        Action::Return(_) => true,
        Action::If(branches, otherwise) => branches_end(branches) && ends(otherwise),
        Action::Case(_, alternatives) => alternatives_end(alternatives),
        Action::Loop(LoopHead::Forever, body) => !has_exit(body),
        _ => false,
    }
}

/// The place of the last of some statements; `place` where there are none.
fn last_place(scope: &Scope, place: Place, statements: &[Stmt]) -> Place
    ensures { result ≡ last_place (scope_of scope.now) place (stmts_of stmt statements.now) }
{
    match statements {
        [] => place,
        [.., last] => scope.place(last.span.from),
    }
}

/// Whether a subprogram's statements end as it is to: L13 is broken at the last statement of a function that doesn't end with
/// `return`, or at `place`, that of its name, where it has none.
pub fn ended(
    scope: &Scope,
    place: Place,
    subprogram: &Returns,
    statements: &Items<Stmt>,
) -> Found<bool>
    ensures { result ≡ ended (scope_of scope.now) place (returns_of subprogram.now) (stmts_of stmt statements.now) }
{
    match subprogram {
        Returns::Nothing => Found::Is(true),
        Returns::Value(_) => {
            let last = last_place(scope, place, statements.as_slice());
            unless(ends(statements), Code::L13, last, true)
        }
    }
}
