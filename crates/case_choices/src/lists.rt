//! The choices of alternatives together (Ada RM 5.4).

ghost use Rattle.std.specs.Prelude.{◌≡◌, map, IfOk, OnOk};
ghost use Rattle.case_choices.specs.Choosing.{spreads_after, with_choice};
ghost use Rattle.reading_scope.specs.Scopes.{scope_of};
ghost use Rattle.statement_typing.specs.Checks.{all_of};
ghost use Rattle.statement_typing.specs.Choices.{cover, spreads, spreads_in};
ghost use Rattle.statement_typing.specs.Statements.{alternative_of};
ghost use Rattle.syntax_view.specs.View.{alternatives_of, case_choice_of, stmt};
ghost use Rattle.typing_rules.specs.Fits.{with_found};

use crate::choices::choice_seen;
use ada_syntax::{Alternative as Whens, Choice as Written, Stmt as Statement};
use ada_values::Place;
use choice_rules::{alternative_made, choices_of, cover_by, heard_all};
use reading_scope::Scope;
use sqlite_items::Items;
use statement_rules::{any_others, has_others, selector_want};
use statement_typing::{Selected, Spread};
use std::alloc::Global;
use type_base::{Starved, Want};
use typed_units::{Alternative, Choice, Stmt};
use typing_rules::Found;

/// Reads one choice, of which `others` gives no values.
fn put_choice(
    alloc: Global,
    scope: &Scope,
    want: Want,
    choice: &Written,
    spreads: &mut Items<Found<Spread>>,
) -> Result<(), Starved>
    ensures { OnOk result (spreads.new ≡ with_choice (scope_of scope.now) want spreads.old (case_choice_of choice.now)) }
{
    match choice {
        Written::Others => Ok(()),
        Written::Range(range) => {
            let found = choice_seen(alloc, scope, want, range)?;
            spreads.push(found)
        }
    }
}

fn put_choices(
    alloc: Global,
    scope: &Scope,
    want: Want,
    mut choices: &[Written],
    spreads: &mut Items<Found<Spread>>,
) -> Result<(), Starved>
    ensures { OnOk result (spreads.new ≡ spreads_after (scope_of scope.now) want spreads.old (map case_choice_of choices.entry.now)) }
{
    while let [first, rest @ ..] = choices {
        put_choice(alloc, scope, want, first, spreads)?;
        choices = rest;
    }
    Ok(())
}

/// The choices of an alternative that give values, each as it was found. `Err` where memory was refused.
#[tactic(auto, using(crate::proofs::Afters::after_none))]
pub fn spreads_in(
    alloc: Global,
    scope: &Scope,
    want: Want,
    choices: &[Written],
) -> Result<Items<Found<Spread>>, Starved>
    ensures { IfOk result (λ xs. xs ≡ spreads_in (scope_of scope.now) want (map case_choice_of choices.now)) }
{
    let mut spreads = Items::new(alloc);
    put_choices(alloc, scope, want, choices, &mut spreads)?;
    Ok(spreads)
}

fn spreads(
    alloc: Global,
    scope: &Scope,
    want: Want,
    mut alternatives: &[Whens<Statement>],
) -> Result<Items<Found<Spread>>, Starved>
    ensures { IfOk result (λ xs. xs ≡ spreads (scope_of scope.now) want (alternatives_of stmt alternatives.entry.now)) }
{
    let mut found = Items::new(alloc);
    while let [first, rest @ ..] = alternatives {
        put_choices(alloc, scope, want, first.choices.as_slice(), &mut found)?;
        alternatives = rest;
    }
    Ok(found)
}

fn choices_found(
    alloc: Global,
    scope: &Scope,
    want: Want,
    choices: &[Written],
) -> Result<Found<Items<Choice>>, Starved>
    ensures { IfOk result (λ f. f ≡ with_found (map (λ x. x.choice)) (all_of (spreads_in (scope_of scope.now) want (map case_choice_of choices.now)))) }
{
    let spreads = spreads_in(alloc, scope, want, choices)?;
    choices_of(alloc, spreads.as_slice())
}

/// An alternative of a `case` whose selector has the type that is wanted, of its choices and its statements, which have been
/// read. `Err` where memory was refused.
#[tactic(auto, using(crate::proofs::Places::alternative_is))]
pub fn alternative_of(
    alloc: Global,
    scope: &Scope,
    want: Want,
    choices: &[Written],
    body: Found<Items<Stmt>>,
) -> Result<Found<Alternative<Stmt>>, Starved>
    ensures { IfOk result (λ f. f ≡ alternative_of (scope_of scope.now) want (map case_choice_of choices.now) body) }
{
    match choices_found(alloc, scope, want, choices) {
        Ok(found) => Ok(alternative_made(found, has_others(choices), body)),
        Err(error) => {
            drop(body);
            Err(error)
        }
    }
}

/// What is refused of the choices of a `case` at a place together, and whether nothing is: L21 is broken by a choice with a
/// value outside the selector's subtype or with one of an earlier choice, and at the place where a value is left out and there
/// is no `others`. `Err` where memory was refused.
pub fn cover(
    alloc: Global,
    scope: &Scope,
    place: Place,
    selector: &Found<Selected>,
    alternatives: &[Whens<Statement>],
) -> Result<Found<bool>, Starved>
    ensures { IfOk result (λ f. f ≡ cover (scope_of scope.now) place selector.now (alternatives_of stmt alternatives.now)) }
{
    let spreads = spreads(alloc, scope, selector_want(selector), alternatives)?;
    match selector {
        Found::Is(selected) => {
            let others = any_others(alternatives);
            let bounds = scope.world().bounds(selected.subtype);
            cover_by(alloc, place, others, bounds, spreads.as_slice())
        }
        Found::Unknown | Found::Refused(_) => Ok(heard_all(spreads.as_slice())),
    }
}
