//! The selector and the choices of a `case` (Ada RM 3.8.1, 5.4).

ghost use Rattle.std.specs.Prelude.{◌≡◌, map};
ghost use Rattle.ada_values.specs.declared.place.Place.{Place};
ghost use Rattle.front_codes.specs.declared.codes.Code.TheVariants.{L21};
ghost use Rattle.statement_typing.specs.Choices.{any_others, has_others, is_others, is_range, selected_as, selector_want};
ghost use Rattle.statement_typing.specs.Statements.{case_at};
ghost use Rattle.syntax_view.specs.View.{alternatives_of, case_choice_of, stmt};
ghost use Rattle.typed_units.specs.declared.statements.Action.TheVariants as action;
ghost use Rattle.typing_rules.specs.Fits.{both, with_found};
ghost use Rattle.type_base.specs.Demands.{operand};
ghost use Rattle.type_base.specs.declared.seen.Demand.TheVariants as demand;

use crate::checks::{and_also, with_refused, with_unknown};
use ada_syntax::{Alternative as Whens, Choice as Written, Stmt as Statement};
use ada_values::Place;
use sqlite_items::Items;
use statement_typing::Selected;
use type_base::{Code, Demand, Refusal, Seen, Want, World, operand};
use typed_units::{Action, Alternative, Expr, Stmt};
use typing_rules::{Found, Prefix};

fn selected_as(in_parentheses: bool, place: Place, seen: Seen) -> Found<Selected>
    ensures { result ≡ selected_as in_parentheses place seen }
{
    match seen {
        Seen::Refused(refusal) => Found::Refused(refusal),
        Seen::Unknown => Found::Unknown,
        Seen::Number(_) => Found::Refused(Refusal {
            code: Code::L21,
            place,
        }),
        Seen::Typed(ty, x) => {
            let subtype = if in_parentheses { ty } else { x.subtype };
            Found::Is(Selected {
                of: ty,
                subtype,
                value: x,
            })
        }
    }
}

/// A selector that is seen at a place; L21 is broken where it isn't of an integer or enumeration type, or is a number. One in
/// parentheses is no name, so that all values of its type are to be covered.
pub fn selector_read(
    world: &World,
    in_parentheses: bool,
    place: Place,
    seen: Seen,
) -> Found<Selected>
    ensures { result ≡ selected_as in_parentheses place (operand world.now demand.Ordered L21 place seen) }
{
    let read = operand(world, Demand::Ordered, Code::L21, place, seen);
    selected_as(in_parentheses, place, read)
}

/// What the choices of a `case` are read for.
pub fn selector_want(selector: &Found<Selected>) -> Want
    ensures { result ≡ selector_want selector.now }
{
    match selector {
        Found::Is(selected) => Want::Type(selected.of),
        Found::Unknown | Found::Refused(_) => Want::Unknown,
    }
}

/// Whether a name alone is a range.
pub fn is_range(prefix: &Prefix) -> bool
    ensures { result ≡ is_range prefix.now }
{
    match prefix {
        Prefix::Subtype(_) | Prefix::Range(_) => true,
        _ => false,
    }
}

fn is_others(choice: &Written) -> bool
    ensures { result ≡ is_others (case_choice_of choice.now) }
{
    match choice {
        Written::Others => true,
        Written::Range(_) => false,
    }
}

/// Whether `others` is among choices.
pub fn has_others(mut choices: &[Written]) -> bool
    ensures { result ≡ has_others (map case_choice_of choices.entry.now) }
{
    while let [first, rest @ ..] = choices {
        if is_others(first) {
            return true;
        }
        choices = rest;
    }
    false
}

/// Whether `others` is among the choices of alternatives.
pub fn any_others(mut alternatives: &[Whens<Statement>]) -> bool
    ensures { result ≡ any_others (alternatives_of stmt alternatives.entry.now) }
{
    while let [first, rest @ ..] = alternatives {
        if has_others(first.choices.as_slice()) {
            return true;
        }
        alternatives = rest;
    }
    false
}

fn case_of(selector: Expr, alternatives: Found<Items<Alternative<Stmt>>>) -> Found<Action<Stmt>>
    ensures { result ≡ with_found (λ ys. action.Case selector ys) alternatives }
{
    match alternatives {
        Found::Is(alternatives) => Found::Is(Action::Case(selector, alternatives)),
        Found::Unknown => {
            drop(selector);
            Found::Unknown
        }
        Found::Refused(refusal) => {
            drop(selector);
            Found::Refused(refusal)
        }
    }
}

fn case_made(
    selector: Found<Selected>,
    alternatives: Found<Items<Alternative<Stmt>>>,
) -> Found<Action<Stmt>>
    ensures { result ≡ both (λ x ys. action.Case x.value ys) selector alternatives }
{
    match selector {
        Found::Refused(refusal) => with_refused(refusal, alternatives),
        Found::Unknown => with_unknown(alternatives),
        Found::Is(selected) => {
            let Selected { value, .. } = selected;
            case_of(value, alternatives)
        }
    }
}

/// A `case`, of its selector, what is refused of its `others` and of its choices together, and its alternatives.
pub fn case_read(
    selector: Found<Selected>,
    others: Found<bool>,
    cover: Found<bool>,
    alternatives: Found<Items<Alternative<Stmt>>>,
) -> Found<Action<Stmt>>
    ensures { (p : Place) → result ≡ case_at p selector others cover alternatives }
{
    let heard = and_also(and_also(selector, others), cover);
    case_made(heard, alternatives)
}
