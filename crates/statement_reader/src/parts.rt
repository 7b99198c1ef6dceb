//! Steps of the walk in which no statement is read.

ghost use Rattle.std.specs.Prelude.{◌≡◌, true, IfOk};
ghost use Rattle.front_codes.specs.declared.codes.Code.TheVariants as code;
ghost use Rattle.reading_scope.specs.Scopes.{scope_of};
ghost use Rattle.statement_rules.specs.Arounds.{around_of};
ghost use Rattle.statement_rules.specs.Bodies.{bodies, sort_as};
ghost use Rattle.statement_typing.specs.Checks.{unless};
ghost use Rattle.statement_typing.specs.Choices.{cover, others_last};
ghost use Rattle.statement_typing.specs.Statements as rules;
ghost use Rattle.syntax_view.specs.View.{alternatives_of, stmt};
ghost use Rattle.typing_rules.specs.declared.prefix.Found.TheVariants as found';

use crate::Starved;
use crate::pragmas::demand_of;
use ada_syntax::{Alternative as Whens, Stmt as Written};
use ada_values::Place;
use case_choices::cover;
use choice_rules::others_last;
use reading_scope::Scope;
use sqlite_items::Items;
use statement_rules::{Around, LoopBody, Sort, case_read, unless, with_demand};
use statement_typing::Selected;
use std::alloc::Global;
use type_base::Code;
use typed_units::{Action, Alternative, Stmt};
use typing_rules::Found;

/// The place where a statement begins.
#[tactic(auto, using(crate::proofs::Walked::placed))]
pub(crate) fn stmt_place(around: &Around, statement: &Written) -> Place
    ensures { result ≡ rules.stmt_place (around_of around.now) (stmt statement.now) }
{
    around.scope.place(statement.span.from)
}

/// The body of a loop without statements.
pub(crate) fn no_statements(alloc: Global) -> Found<LoopBody>
    ensures { bodies result ≡ found'.Is rules.empty }
{
    Found::Is(LoopBody {
        before: Items::new(alloc),
        group: Items::new(alloc),
        after: Items::new(alloc),
    })
}

/// The body of a loop so far, with what a pragma at a place demands in its group. `Err` where memory was refused.
pub(crate) fn demand_added(
    alloc: Global,
    around: &Around,
    place: Place,
    sort: Sort,
    done: Found<LoopBody>,
) -> Result<Found<LoopBody>, Starved>
    ensures { IfOk result (λ b. bodies b ≡ rules.with_demand (bodies done) (rules.demand_of (around_of around.now) place (sort_as sort.entry))) }
{
    match demand_of(alloc, around, place, sort) {
        Ok(demand) => with_demand(done, demand),
        Err(error) => {
            drop(done);
            Err(error)
        }
    }
}

/// A `case` at a place, of its selector and its alternatives; L21 is broken where `others` or what the choices have together isn't
/// as it is to be. `Err` where memory was refused.
pub(crate) fn case_made(
    alloc: Global,
    scope: &Scope,
    place: Place,
    selected: Found<Selected>,
    alternatives: &[Whens<Written>],
    all: Found<Items<Alternative<Stmt>>>,
) -> Result<Found<Action<Stmt>>, Starved>
    ensures { IfOk result (λ x. x ≡ rules.case_at place selected (unless (others_last (alternatives_of stmt alternatives.now)) code.L21 place true) (cover (scope_of scope.now) place selected (alternatives_of stmt alternatives.now)) all) }
{
    let others = unless(others_last(alternatives), Code::L21, place, true);
    match cover(alloc, scope, place, &selected, alternatives) {
        Ok(covered) => Ok(case_read(selected, others, covered, all)),
        Err(error) => {
            drop(selected);
            drop(all);
            Err(error)
        }
    }
}
