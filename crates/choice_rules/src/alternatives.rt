//! Alternatives, and where `others` stands in them.

ghost use Rattle.std.specs.Prelude.{◌≡◌, map};
ghost use Rattle.statement_typing.specs.Choices.{are_others, others_last, single, stretch};
ghost use Rattle.syntax_view.specs.View.{alternatives_of, case_choice_of, stmt};
ghost use Rattle.typing_rules.specs.Fits.{both, with_found};

use ada_syntax::{Alternative as Whens, Choice as Written, Stmt as Statement};
use ada_values::Place;
use sqlite_items::Items;
use statement_rules::{has_others, with_refused, with_unknown};
use statement_typing::Spread;
use typed_units::{Alternative, Bounds, Choice, Stmt};
use typing_rules::Found;

/// The choice of one value at a place.
pub fn single(place: Place, value: i128) -> Spread
    ensures { result ≡ single place value }
{
    Spread {
        place,
        choice: Choice::Value(value),
        values: Bounds {
            first: value,
            last: value,
        },
    }
}

/// The choice of a range at a place.
pub fn stretch(place: Place, bounds: Bounds) -> Spread
    ensures { result ≡ stretch place bounds }
{
    Spread {
        place,
        choice: Choice::Range(bounds),
        values: bounds,
    }
}

/// Whether choices are `others` alone.
fn are_others(choices: &[Written]) -> bool
    ensures { result ≡ are_others (map case_choice_of choices.now) }
{
    match choices {
        [only] => match only {
            Written::Others => true,
            Written::Range(_) => false,
        },
        _ => false,
    }
}

/// Whether `others` stands nowhere, or alone in the last alternative.
#[tactic(auto, using(crate::proofs::Lasts::not_last, crate::proofs::Lasts::alone, crate::proofs::Lasts::too_early))]
pub fn others_last(mut alternatives: &[Whens<Statement>]) -> bool
    ensures { result ≡ others_last (alternatives_of stmt alternatives.entry.now) }
{
    while let [first, rest @ ..] = alternatives {
        let choices = first.choices.as_slice();
        if has_others(choices) {
            return rest.is_empty() && are_others(choices);
        }
        alternatives = rest;
    }
    true
}

fn alternative_with(
    choices: Items<Choice>,
    others: bool,
    body: Found<Items<Stmt>>,
) -> Found<Alternative<Stmt>>
    ensures { result ≡ with_found (λ ys. record { choices = choices; others = others; body = ys }) body }
{
    match body {
        Found::Is(body) => Found::Is(Alternative {
            choices,
            others,
            body,
        }),
        Found::Unknown => {
            drop(choices);
            Found::Unknown
        }
        Found::Refused(refusal) => {
            drop(choices);
            Found::Refused(refusal)
        }
    }
}

/// An alternative, of its choices, whether `others` is one, and its statements.
pub fn alternative_made(
    choices: Found<Items<Choice>>,
    others: bool,
    body: Found<Items<Stmt>>,
) -> Found<Alternative<Stmt>>
    ensures { result ≡ both (λ xs ys. record { choices = xs; others = others; body = ys }) choices body }
{
    match choices {
        Found::Refused(refusal) => with_refused(refusal, body),
        Found::Unknown => with_unknown(body),
        Found::Is(choices) => alternative_with(choices, others, body),
    }
}
