//! The events of pragmas and statements (Ada RM 2.8, 5).

ghost use Rattle.std.specs.Prelude.{◌≡◌, OnOk, map, option_map};
ghost use Rattle.name_numbers.specs.Numbers.{number_at};
ghost use Rattle.name_events.specs.Statements.{alternatives_onto, branches_onto, case_choice_onto, case_choices_onto, check_onto, for_onto, loop_onto, pragma_onto, some_onto, stmt_onto, stmts_onto};
ghost use Rattle.syntax_view.specs.View.{alternatives_of, branches_of, case_choice_of, expr, head_of, pragma_of, range_of, stmt, stmts_of};

use crate::Starved;
use crate::words::{PragmaKind, is_check, pragma_kind};
use ada_syntax::{Action, Alternative, Branch, Choice, Expr, LoopHead, Pragma, Range, Stmt};
use ada_text::Span;
use name_library::{Event, Kind, Scope};
use name_numbers::{NameTable, word_of};
use name_uses::{
    Brackets, Within, ident, push_args, push_expr, push_name, push_opened, push_range,
};
use sqlite_items::Items;

/// Tells of a pragma's expressions where it is a check, and that it is left out where it isn't.
pub(crate) fn push_check(
    found: &mut Items<Event>,
    names: &NameTable,
    kind: PragmaKind,
    pragma: &Pragma,
) -> Result<(), Starved>
    ensures { OnOk result (found.new ≡ check_onto (number_at names.now) kind found.old (pragma_of pragma.now)) }
{
    if is_check(kind) {
        push_args(
            found,
            names,
            Within::Text,
            Brackets::AfterName,
            &pragma.args,
        )
    } else {
        found.push(Event::LeftOut(pragma.span.from))
    }
}

fn push_pragma(found: &mut Items<Event>, names: &NameTable, pragma: &Pragma) -> Result<(), Starved>
    ensures { OnOk result (found.new ≡ pragma_onto (number_at names.now) found.old (pragma_of pragma.now)) }
{
    let kind = pragma_kind(word_of(names.number_at(pragma.name.from)));
    push_check(found, names, kind, pragma)
}

pub(crate) fn push_some(
    found: &mut Items<Event>,
    names: &NameTable,
    e: &Option<Expr>,
) -> Result<(), Starved>
    ensures { OnOk result (found.new ≡ some_onto (number_at names.now) found.old (option_map expr e.now)) }
{
    match e {
        None => Ok(()),
        Some(e) => push_expr(found, names, Within::Text, e),
    }
}

fn push_case_choice(
    found: &mut Items<Event>,
    names: &NameTable,
    choice: &Choice,
) -> Result<(), Starved>
    ensures { OnOk result (found.new ≡ case_choice_onto (number_at names.now) found.old (case_choice_of choice.now)) }
{
    match choice {
        Choice::Others => Ok(()),
        Choice::Range(range) => push_range(found, names, Within::Text, range),
    }
}

fn push_case_choices(
    found: &mut Items<Event>,
    names: &NameTable,
    choices: &Items<Choice>,
) -> Result<(), Starved>
    ensures { OnOk result (found.new ≡ case_choices_onto (number_at names.now) found.old (map case_choice_of choices.now)) }
{
    for choice in choices.as_slice() {
        push_case_choice(found, names, choice)?;
    }
    Ok(())
}

/// Tells of a loop parameter, which opens a scope (Ada RM 5.5), and of what it goes over.
fn push_for(
    found: &mut Items<Event>,
    names: &NameTable,
    name: Span,
    range: &Range<Expr>,
) -> Result<(), Starved>
    ensures { OnOk result (found.new ≡ for_onto (number_at names.now) found.old name (range_of expr range.now)) }
{
    push_opened(found, Scope::Loop, Kind::LoopParameter, ident(names, name))?;
    push_range(found, names, Within::Text, range)?;
    found.push(Event::DeclarationEnds)
}

#[cycle(stmts)]
fn push_loop(
    found: &mut Items<Event>,
    names: &NameTable,
    head: &LoopHead,
    body: &Items<Stmt>,
) -> Result<(), Starved>
    ensures { OnOk result (found.new ≡ loop_onto (number_at names.now) found.old (head_of head.now) (stmts_of stmt body.now)) }
{
    match head {
        LoopHead::Forever => push_stmts(found, names, body),
        LoopHead::While(e) => {
            push_expr(found, names, Within::Text, e)?;
            push_stmts(found, names, body)
        }
        LoopHead::For(name, _, range) => {
            push_for(found, names, *name, range)?;
            push_stmts(found, names, body)?;
            found.push(Event::Closes)
        }
    }
}

/// Tells of statements.
#[cycle(stmts)]
pub(crate) fn push_stmts(
    found: &mut Items<Event>,
    names: &NameTable,
    statements: &Items<Stmt>,
) -> Result<(), Starved>
    ensures { OnOk result (found.new ≡ stmts_onto (number_at names.now) found.old (stmts_of stmt statements.now)) }
{
    for statement in statements.as_slice() {
        push_stmt(found, names, statement)?;
    }
    Ok(())
}

#[cycle(stmts)]
fn push_branches(
    found: &mut Items<Event>,
    names: &NameTable,
    branches: &Items<Branch<Stmt>>,
) -> Result<(), Starved>
    ensures { OnOk result (found.new ≡ branches_onto (number_at names.now) found.old (branches_of stmt branches.now)) }
{
    for branch in branches.as_slice() {
        push_expr(found, names, Within::Text, &branch.condition)?;
        push_stmts(found, names, &branch.body)?;
    }
    Ok(())
}

#[cycle(stmts)]
fn push_alternative(
    found: &mut Items<Event>,
    names: &NameTable,
    alternative: &Alternative<Stmt>,
) -> Result<(), Starved>
    ensures { OnOk result (found.new ≡ stmts_onto (number_at names.now) (case_choices_onto (number_at names.now) found.old (map case_choice_of alternative.now.choices)) (stmts_of stmt alternative.now.body)) }
{
    push_case_choices(found, names, &alternative.choices)?;
    push_stmts(found, names, &alternative.body)
}

#[cycle(stmts)]
fn push_alternatives(
    found: &mut Items<Event>,
    names: &NameTable,
    alternatives: &Items<Alternative<Stmt>>,
) -> Result<(), Starved>
    ensures { OnOk result (found.new ≡ alternatives_onto (number_at names.now) found.old (alternatives_of stmt alternatives.now)) }
{
    for alternative in alternatives.as_slice() {
        push_alternative(found, names, alternative)?;
    }
    Ok(())
}

#[tactic(auto, using(syntax_view::proofs::Forms::stmt_has))]
#[cycle(stmts)]
fn push_stmt(found: &mut Items<Event>, names: &NameTable, statement: &Stmt) -> Result<(), Starved>
    ensures { OnOk result (found.new ≡ stmt_onto (number_at names.now) found.old (stmt statement.now)) }
{
    match statement.action.get() {
        Action::Null => Ok(()),
        Action::Call(name) => push_name(found, names, Within::Text, false, name),
        Action::Assign(target, value) => {
            push_name(found, names, Within::Text, false, target)?;
            push_expr(found, names, Within::Text, value)
        }
        Action::If(branches, otherwise) => {
            push_branches(found, names, branches)?;
            push_stmts(found, names, otherwise)
        }
        Action::Case(selector, alternatives) => {
            push_expr(found, names, Within::Text, selector)?;
            push_alternatives(found, names, alternatives)
        }
        Action::Loop(head, body) => push_loop(found, names, head, body),
        Action::Exit(e) | Action::Return(e) => push_some(found, names, e),
        Action::Pragma(pragma) => push_pragma(found, names, pragma),
    }
}
