//! The walk over statements.

ghost use Rattle.std.specs.Prelude.{◌≡◌, [], IfOk, map};
ghost use Rattle.reading_scope.specs.Scopes.{scope_of};
ghost use Rattle.statement_reader.specs.Loops.{body_with, case_by, loop_by};
ghost use Rattle.statement_rules.specs.Arounds.{around_of};
ghost use Rattle.statement_rules.specs.Bodies.{bodies, stage_as};
ghost use Rattle.statement_typing.specs.Statements as rules;
ghost use Rattle.syntax_view.specs.View.{action_of, alternatives_of, branches_of, case_choice_of, expr, stmt, stmts_of};
ghost use Rattle.typing_rules.specs.declared.prefix.Found.TheVariants as found';
ghost use Rattle.typing_rules.specs.Fits.{both};

use crate::Starved;
use crate::actions::{assignment, exit_of, invocation, return_of, selector};
use crate::conditions::tested;
use crate::heads::{LoopEntry, entry};
use crate::parts::{case_made, demand_added, no_statements, stmt_place};
use crate::pragmas::pragma_by;
use ada_syntax::{Action as Doing, Alternative as Whens, Branch as If, Stmt as Written};
use ada_text::Span;
use ada_values::Place;
use case_choices::alternative_of;
use name_values::added;
use reading_scope::Scope;
use sqlite_items::Items;
use statement_rules::{
    Around, Loop, LoopBody, Stage, branch_read, if_read, loop_read, selector_want, sort_of,
    stmt_at, with_stmt,
};
use statement_typing::Selected;
use std::alloc::Global;
use type_base::Want;
use typed_units::{Action, Alternative, Branch, Stmt};
use typing_rules::Found;

/// What a statement is. `Err` where memory was refused.
#[tactic(auto, using(syntax_view::proofs::Forms::stmt_has))]
#[cycle(walk)]
fn stmt(alloc: Global, around: &Around, statement: &Written) -> Result<Found<Stmt>, Starved>
    ensures { IfOk result (λ s. s ≡ rules.stmt (around_of around.now) (stmt statement.now)) }
{
    let place = around.scope.place(statement.span.from);
    let action = action_at(alloc, around, place, statement.span, statement.action.get())?;
    stmt_at(alloc, place, action)
}

/// What a statement of this span does, that begins at a place.
#[tactic(auto, using(crate::proofs::Walked::looped))]
#[cycle(walk)]
fn action_at(
    alloc: Global,
    around: &Around,
    place: Place,
    span: Span,
    action: &Doing<Written>,
) -> Result<Found<Action<Stmt>>, Starved>
    ensures { IfOk result (λ x. x ≡ rules.action_at (around_of around.now) place span (action_of stmt action.now)) }
{
    match action {
        Doing::Null => Ok(Found::Is(Action::Null)),
        Doing::Call(name) => invocation(alloc, around.scope, name),
        Doing::Assign(target, value) => assignment(alloc, around.scope, target, value),
        Doing::If(branches, otherwise) => {
            let branches = branches_onto(alloc, around, branches)?;
            match stmts(alloc, around, otherwise) {
                Ok(otherwise) => Ok(if_read(branches, otherwise)),
                Err(error) => {
                    drop(branches);
                    Err(error)
                }
            }
        }
        Doing::Case(on, alternatives) => {
            let selected = selector(alloc, around.scope, on)?;
            case_by(alloc, around, place, selected, alternatives)
        }
        Doing::Loop(head, body) => {
            let entry = entry(alloc, around.scope, head)?;
            loop_by(alloc, around, span.from, entry, body)
        }
        Doing::Exit(condition) => exit_of(alloc, around, place, condition),
        Doing::Return(value) => return_of(alloc, around, place, value),
        Doing::Pragma(pragma) => {
            let word = around.scope.word(pragma.name.from);
            pragma_by(alloc, around, place, word, pragma.args.as_slice())
        }
    }
}

/// What statements are. `Err` where memory was refused.
#[cycle(walk)]
pub fn stmts(
    alloc: Global,
    around: &Around,
    statements: &Items<Written>,
) -> Result<Found<Items<Stmt>>, Starved>
    ensures { IfOk result (λ ss. ss ≡ rules.stmts (around_of around.now) (stmts_of stmt statements.now)) }
{
    let mut done = Found::Is(Items::new(alloc));
    for statement in statements.as_slice() {
        let one = match stmt(alloc, around, statement) {
            Ok(one) => one,
            Err(error) => {
                drop(done);
                return Err(error);
            }
        };
        done = added(done, one)?;
    }
    Ok(done)
}

// ---- `if`

#[cycle(walk)]
fn read_branch(
    alloc: Global,
    around: &Around,
    branch: &If<Written>,
) -> Result<Found<Branch<Stmt>>, Starved>
    ensures { IfOk result (λ b. b ≡ both (λ x ys. record { condition = x; body = ys }) (rules.tested (around_of around.now).scope (expr branch.now.condition)) (rules.stmts (around_of around.now) (stmts_of stmt branch.now.body))) }
{
    let body = stmts(alloc, around, &branch.body)?;
    match tested(alloc, around.scope, &branch.condition) {
        Ok(condition) => Ok(branch_read(condition, body)),
        Err(error) => {
            drop(body);
            Err(error)
        }
    }
}

#[cycle(walk)]
fn branches_onto(
    alloc: Global,
    around: &Around,
    branches: &Items<If<Written>>,
) -> Result<Found<Items<Branch<Stmt>>>, Starved>
    ensures { IfOk result (λ bs. bs ≡ rules.branches_onto (around_of around.now) (found'.Is []) (branches_of stmt branches.now)) }
{
    let mut done = Found::Is(Items::new(alloc));
    for branch in branches.as_slice() {
        let one = match read_branch(alloc, around, branch) {
            Ok(one) => one,
            Err(error) => {
                drop(done);
                return Err(error);
            }
        };
        done = added(done, one)?;
    }
    Ok(done)
}

// ---- `case`

#[cycle(walk)]
fn read_alternative(
    alloc: Global,
    around: &Around,
    want: Want,
    alternative: &Whens<Written>,
) -> Result<Found<Alternative<Stmt>>, Starved>
    ensures { IfOk result (λ x. x ≡ rules.alternative_of (around_of around.now).scope want (map case_choice_of alternative.now.choices) (rules.stmts (around_of around.now) (stmts_of stmt alternative.now.body))) }
{
    let body = stmts(alloc, around, &alternative.body)?;
    alternative_of(
        alloc,
        around.scope,
        want,
        alternative.choices.as_slice(),
        body,
    )
}

#[cycle(walk)]
fn alternatives_onto(
    alloc: Global,
    around: &Around,
    want: Want,
    alternatives: &Items<Whens<Written>>,
) -> Result<Found<Items<Alternative<Stmt>>>, Starved>
    ensures { IfOk result (λ as'. as' ≡ rules.alternatives_onto (around_of around.now) want (found'.Is []) (alternatives_of stmt alternatives.now)) }
{
    let mut done = Found::Is(Items::new(alloc));
    for alternative in alternatives.as_slice() {
        let one = match read_alternative(alloc, around, want, alternative) {
            Ok(one) => one,
            Err(error) => {
                drop(done);
                return Err(error);
            }
        };
        done = added(done, one)?;
    }
    Ok(done)
}

/// A `case` at a place, by its selector.
#[cycle(walk)]
fn case_by(
    alloc: Global,
    around: &Around,
    place: Place,
    selected: Found<Selected>,
    alternatives: &Items<Whens<Written>>,
) -> Result<Found<Action<Stmt>>, Starved>
    ensures { IfOk result (λ x. x ≡ case_by (around_of around.now) place selected (alternatives_of stmt alternatives.now)) }
{
    let want = selector_want(&selected);
    match alternatives_onto(alloc, around, want, alternatives) {
        Ok(all) => case_made(
            alloc,
            around.scope,
            place,
            selected,
            alternatives.as_slice(),
            all,
        ),
        Err(error) => {
            drop(selected);
            Err(error)
        }
    }
}

// ---- loops

/// The body of a loop so far, with one statement more.
#[cycle(walk)]
fn body_with(
    alloc: Global,
    around: &Around,
    stage: Stage,
    done: Found<LoopBody>,
    statement: &Written,
) -> Result<Found<LoopBody>, Starved>
    ensures { IfOk result (λ b. bodies b ≡ body_with (around_of around.now) (stage_as stage) (bodies done) (stmt statement.now)) }
{
    let sort = sort_of(around, statement);
    if sort.is_demand() && stage.may_stand(sort) {
        demand_added(alloc, around, stmt_place(around, statement), sort, done)
    } else {
        match stmt(alloc, around, statement) {
            Ok(one) => with_stmt(stage, done, one),
            Err(error) => {
                drop(done);
                Err(error)
            }
        }
    }
}

#[tactic(auto, using(crate::proofs::Walked::turn))]
#[cycle(walk)]
fn body_onto(
    alloc: Global,
    around: &Around,
    statements: &Items<Written>,
) -> Result<Found<LoopBody>, Starved>
    ensures { IfOk result (λ b. bodies b ≡ rules.body_onto (around_of around.now) rules.before_group (found'.Is rules.empty) (stmts_of stmt statements.now)) }
{
    let mut stage = Stage::BeforeGroup;
    let mut done = no_statements(alloc);
    for statement in statements.as_slice() {
        done = body_with(alloc, around, stage, done, statement)?;
        stage = stage.after(sort_of(around, statement));
    }
    Ok(done)
}

/// A loop that begins at a byte, by what stands before its body.
#[cycle(walk)]
fn loop_by(
    alloc: Global,
    around: &Around,
    at: u32,
    entry: LoopEntry,
    statements: &Items<Written>,
) -> Result<Found<Action<Stmt>>, Starved>
    ensures { IfOk result (λ x. x ≡ loop_by (around_of around.now) ((scope_of around.now.scope.now).number at) entry (stmts_of stmt statements.now)) }
{
    let LoopEntry {
        head,
        parameters,
        parameter,
    } = entry;
    let number = around.scope.number(at);
    let scope = Scope {
        world: around.scope.world,
        file: around.scope.file,
        lines: around.scope.lines,
        links: around.scope.links,
        names: around.scope.names,
        numbers: around.scope.numbers,
        own: around.scope.own,
        moment: around.scope.moment,
        parameters: parameters.as_slice(),
    };
    let inside = Around {
        scope: &scope,
        returns: around.returns,
        inner: Some(Loop { number, parameter }),
    };
    match body_onto(alloc, &inside, statements) {
        Ok(body) => Ok(loop_read(number, head, body)),
        Err(error) => {
            drop(head);
            Err(error)
        }
    }
}
