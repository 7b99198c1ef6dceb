//! What is found of choices together.

ghost use Rattle.std.specs.Prelude.{◌≡◌, [], map, true, IfOk};
ghost use Rattle.choice_rules.specs.Steps.{choices_after, heard, heard_after};
ghost use Rattle.statement_typing.specs.Checks.{all_of};
ghost use Rattle.typing_rules.specs.declared.prefix.Found.TheVariants.{Is};
ghost use Rattle.typing_rules.specs.Fits.{with_found};

use name_values::added;
use sqlite_items::Items;
use statement_rules::and_also;
use statement_typing::Spread;
use std::alloc::Global;
use type_base::Starved;
use typed_units::Choice;
use typing_rules::Found;

/// That a choice is found, without it.
fn heard(spread: &Found<Spread>) -> Found<()>
    ensures { result ≡ heard spread.now }
{
    match spread {
        Found::Refused(refusal) => Found::Refused(*refusal),
        Found::Unknown => Found::Unknown,
        Found::Is(_) => Found::Is(()),
    }
}

/// That choices are found, without them.
pub(crate) fn all_heard(mut spreads: &[Found<Spread>]) -> Found<()>
    ensures { result ≡ heard_after (Is tt) spreads.entry.now }
{
    let mut state = Found::Is(());
    while let [first, rest @ ..] = spreads {
        state = and_also(state, heard(first));
        spreads = rest;
    }
    state
}

fn nothing_refused(state: Found<()>) -> Found<bool>
    ensures { result ≡ with_found (λ u. true) state }
{
    match state {
        Found::Refused(refusal) => Found::Refused(refusal),
        Found::Unknown => Found::Unknown,
        Found::Is(()) => Found::Is(true),
    }
}

/// What is refused of choices of which nothing is asked together: their first refusal by place.
#[tactic(auto, using(crate::proofs::Totals::all_true))]
pub fn heard_all(spreads: &[Found<Spread>]) -> Found<bool>
    ensures { result ≡ with_found (λ xs. true) (all_of spreads.now) }
{
    nothing_refused(all_heard(spreads))
}

fn chosen(spread: &Found<Spread>) -> Found<Choice>
    ensures { result ≡ with_found (λ x. x.choice) spread.now }
{
    match spread {
        Found::Refused(refusal) => Found::Refused(*refusal),
        Found::Unknown => Found::Unknown,
        Found::Is(spread) => Found::Is(spread.choice),
    }
}

fn all_chosen(alloc: Global, mut spreads: &[Found<Spread>]) -> Result<Found<Items<Choice>>, Starved>
    ensures { IfOk result (λ f. f ≡ choices_after (Is []) spreads.entry.now) }
{
    let mut done = Found::Is(Items::new(alloc));
    while let [first, rest @ ..] = spreads {
        done = added(done, chosen(first))?;
        spreads = rest;
    }
    Ok(done)
}

/// The choices of an alternative, without their places. `Err` where memory was refused.
#[tactic(auto, using(crate::proofs::Totals::chosen_is))]
pub fn choices_of(alloc: Global, spreads: &[Found<Spread>]) -> Result<Found<Items<Choice>>, Starved>
    ensures { IfOk result (λ f. f ≡ with_found (map (λ x. x.choice)) (all_of spreads.now)) }
{
    all_chosen(alloc, spreads)
}
