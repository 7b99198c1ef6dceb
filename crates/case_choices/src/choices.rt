//! A choice that is a value or a range (Ada RM 3.8.1).

ghost use Rattle.std.specs.Prelude.{◌≡◌, IfOk};
ghost use Rattle.reading_scope.specs.Scopes.{scope_of};
ghost use Rattle.statement_typing.specs.Choices.{choice_seen, range_choice, single, stretch, value_choice};
ghost use Rattle.syntax_view.specs.View.{expr, range_of};
ghost use Rattle.typing_rules.specs.Fits.{with_found};

use crate::names::{is_stretch, low_place, place_of};
use crate::ranges::{static_bounds, wanted_range};
use crate::statics::value_for;
use ada_syntax::{Expr as Tree, Range};
use ada_values::Place;
use choice_rules::{single, stretch};
use expression_reader::seen;
use reading_scope::Scope;
use statement_typing::Spread;
use std::alloc::Global;
use type_base::{Code, Starved, Want};
use typed_units::Bounds;
use typing_rules::Found;

fn stretched(place: Place, bounds: Found<Bounds>) -> Found<Spread>
    ensures { result ≡ with_found (stretch place) bounds }
{
    match bounds {
        Found::Refused(refusal) => Found::Refused(refusal),
        Found::Unknown => Found::Unknown,
        Found::Is(bounds) => Found::Is(stretch(place, bounds)),
    }
}

fn singled(place: Place, value: Found<i128>) -> Found<Spread>
    ensures { result ≡ with_found (single place) value }
{
    match value {
        Found::Refused(refusal) => Found::Refused(refusal),
        Found::Unknown => Found::Unknown,
        Found::Is(value) => Found::Is(single(place, value)),
    }
}

fn range_choice(
    alloc: Global,
    scope: &Scope,
    want: Want,
    range: &Range<Tree>,
) -> Result<Found<Spread>, Starved>
    ensures { IfOk result (λ f. f ≡ range_choice (scope_of scope.now) want (range_of expr range.now)) }
{
    let found = wanted_range(alloc, scope, Code::L21, want, range)?;
    let bounds = static_bounds(scope, range, found);
    Ok(stretched(low_place(scope, range), bounds))
}

fn value_choice(
    alloc: Global,
    scope: &Scope,
    want: Want,
    e: &Tree,
) -> Result<Found<Spread>, Starved>
    ensures { IfOk result (λ f. f ≡ value_choice (scope_of scope.now) want (expr e.now)) }
{
    let place = place_of(scope, e);
    let seen = seen(alloc, scope, want, e)?;
    let value = value_for(alloc, scope.world(), want, place, seen)?;
    Ok(singled(place, value))
}

/// A choice of a `case` whose selector has the type that is wanted: a static value, or a range with static bounds; L21 is
/// broken where it is none. `Err` where memory was refused.
pub fn choice_seen(
    alloc: Global,
    scope: &Scope,
    want: Want,
    range: &Range<Tree>,
) -> Result<Found<Spread>, Starved>
    ensures { IfOk result (λ f. f ≡ choice_seen (scope_of scope.now) want (range_of expr range.now)) }
{
    if is_stretch(alloc, scope, range)? {
        range_choice(alloc, scope, want, range)
    } else {
        value_choice(alloc, scope, want, &range.low)
    }
}
