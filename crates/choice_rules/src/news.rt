//! Whether each choice gives values that no choice before it gives (Ada RM 5.4(10)).

ghost use Rattle.std.specs.Prelude.{◌≡◌, [], IfOk, OnOk};
ghost use Rattle.choice_rules.specs.Steps.{heard, judged_after, known_after, with_values};
ghost use Rattle.statement_typing.specs.Choices.{fresh, meet, meets_one, new_values};
ghost use Rattle.typing_rules.specs.declared.prefix.Found.TheVariants.{Is};

use sqlite_items::Items;
use statement_rules::and_also;
use statement_typing::Spread;
use std::alloc::Global;
use type_base::{Code, Refusal, Starved};
use typed_units::Bounds;
use typing_rules::Found;

/// Whether some value lies in both ranges.
fn meet(left: Bounds, right: Bounds) -> bool
    ensures { result ≡ meet left right }
{
    if left.first <= left.last && right.first <= right.last {
        left.first <= right.last && right.first <= left.last
    } else {
        false
    }
}

fn meets_one(values: Bounds, mut earlier: &[Bounds]) -> bool
    ensures { result ≡ meets_one values earlier.entry.now }
{
    while let [first, rest @ ..] = earlier {
        if meet(*first, values) {
            return true;
        }
        earlier = rest;
    }
    false
}

/// Whether a choice has no value outside the selector's bounds, and none that an earlier choice has.
fn new_values(selected: Bounds, earlier: &[Bounds], values: Bounds) -> bool
    ensures { result ≡ new_values selected earlier.now values }
{
    if values.first > values.last {
        return true;
    }
    selected.first <= values.first && values.last <= selected.last && !meets_one(values, earlier)
}

/// What is refused of a choice, after those with the earlier values.
fn fresh(selected: Bounds, earlier: &[Bounds], spread: &Found<Spread>) -> Found<()>
    ensures { result ≡ heard (fresh selected earlier.now spread.now) }
{
    match spread {
        Found::Refused(refusal) => Found::Refused(*refusal),
        Found::Unknown => Found::Unknown,
        Found::Is(spread) => {
            if new_values(selected, earlier, spread.values) {
                Found::Is(())
            } else {
                Found::Refused(Refusal {
                    code: Code::L21,
                    place: spread.place,
                })
            }
        }
    }
}

/// The values of choices, with those of one more.
fn put_values(values: &mut Items<Bounds>, spread: &Found<Spread>) -> Result<(), Starved>
    ensures { OnOk result (values.new ≡ with_values values.old spread.now) }
{
    match spread {
        Found::Is(spread) => values.push(spread.values),
        Found::Unknown | Found::Refused(_) => Ok(()),
    }
}

/// The values of the choices that are known, in the order of the text. `Err` where memory was refused.
pub(crate) fn known(alloc: Global, mut spreads: &[Found<Spread>]) -> Result<Items<Bounds>, Starved>
    ensures { IfOk result (λ v. v ≡ known_after [] spreads.entry.now) }
{
    let mut values = Items::new(alloc);
    while let [first, rest @ ..] = spreads {
        put_values(&mut values, first)?;
        spreads = rest;
    }
    Ok(values)
}

/// What is refused of choices that are to have each value of the selector's bounds at most once, and no other. `Err` where
/// memory was refused. The time grows as the square of their number.
pub(crate) fn judged(
    alloc: Global,
    selected: Bounds,
    mut spreads: &[Found<Spread>],
) -> Result<Found<()>, Starved>
    ensures { IfOk result (λ f. f ≡ judged_after selected [] (Is tt) spreads.entry.now) }
{
    let mut earlier = Items::new(alloc);
    let mut state = Found::Is(());
    while let [first, rest @ ..] = spreads {
        state = and_also(state, fresh(selected, earlier.as_slice(), first));
        put_values(&mut earlier, first)?;
        spreads = rest;
    }
    Ok(state)
}
