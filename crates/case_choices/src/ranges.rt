//! Ranges that are to be of a type.

ghost use Rattle.std.specs.Prelude.{◌≡◌, IfOk};
ghost use Rattle.case_choices.specs.Choosing.{wanted_at};
ghost use Rattle.reading_scope.specs.Scopes.{scope_of};
ghost use Rattle.statement_typing.specs.Asked.{is_wanted, number_type, range_between, range_seen};
ghost use Rattle.statement_typing.specs.Choices.{static_between};
ghost use Rattle.statement_typing.specs.Subtypes.{bounds};
ghost use Rattle.syntax_view.specs.View.{expr, range_of};
ghost use Rattle.typing_rules.specs.Fits.{both, found_then};

use crate::names::{high_place, low_place};
use crate::statics::static_in;
use ada_syntax::{Expr as Tree, Range};
use ada_values::Place;
use expression_reader::reach_of;
use front_codes::first_of_two;
use name_values::type_of;
use range_rules::reach_in;
use reading_scope::Scope;
use statement_rules::unless;
use std::alloc::Global;
use type_base::{Code, INTEGER_BASE, Starved, Want, World};
use typed_units::Bounds;
use typing_rules::{Between, Found};

/// The type that universal bounds take: that of the context, else Integer.
fn number_type(want: Want) -> u32
    ensures { result ≡ number_type want }
{
    match want {
        Want::Type(ty) => ty,
        Want::Free | Want::Unknown | Want::Subtype(_) => INTEGER_BASE,
    }
}

fn is_wanted(want: Want, ty: u32) -> bool
    ensures { result ≡ is_wanted want ty }
{
    match want {
        Want::Type(wanted) => wanted == ty,
        Want::Free | Want::Unknown | Want::Subtype(_) => true,
    }
}

/// A range, by a rule, whose bounds take the type of the context where they are universal.
#[tactic(auto, using(range_rules::proofs::Placed::reach_in_placed))]
fn range_between(
    alloc: Global,
    scope: &Scope,
    code: Code,
    want: Want,
    range: &Range<Tree>,
) -> Result<Found<Between>, Starved>
    ensures { IfOk result (λ b. b ≡ range_between (scope_of scope.now) code want (range_of expr range.now)) }
{
    let reach = reach_of(alloc, scope, code, want, range)?;
    let low = low_place(scope, range);
    let high = high_place(scope, range);
    reach_in(alloc, scope, code, number_type(want), low, high, reach)
}

/// A range that is found, where it is of the type that the context gives.
fn of_wanted(
    world: &World,
    code: Code,
    want: Want,
    place: Place,
    found: Found<Between>,
) -> Found<Between>
    ensures { result ≡ wanted_at world.now code want place found }
{
    match found {
        Found::Refused(refusal) => Found::Refused(refusal),
        Found::Unknown => Found::Unknown,
        Found::Is(range) => {
            let holds = is_wanted(want, type_of(world, range.subtype));
            unless(holds, code, place, range)
        }
    }
}

/// A range, by a rule, of the type that the context gives. `Err` where memory was refused.
pub(crate) fn wanted_range(
    alloc: Global,
    scope: &Scope,
    code: Code,
    want: Want,
    range: &Range<Tree>,
) -> Result<Found<Between>, Starved>
    ensures { IfOk result (λ b. b ≡ range_seen (scope_of scope.now) code want (range_of expr range.now)) }
{
    let found = range_between(alloc, scope, code, want, range)?;
    let place = low_place(scope, range);
    Ok(of_wanted(scope.world(), code, want, place, found))
}

/// Two bounds that are both found.
fn bounds_both(first: Found<i128>, last: Found<i128>) -> Found<Bounds>
    ensures { result ≡ both bounds first last }
{
    match first {
        Found::Refused(refusal) => match last {
            Found::Refused(other) => Found::Refused(first_of_two(refusal, other)),
            Found::Unknown | Found::Is(_) => Found::Refused(refusal),
        },
        Found::Unknown => match last {
            Found::Refused(refusal) => Found::Refused(refusal),
            Found::Unknown | Found::Is(_) => Found::Unknown,
        },
        Found::Is(first) => match last {
            Found::Refused(refusal) => Found::Refused(refusal),
            Found::Unknown => Found::Unknown,
            Found::Is(last) => Found::Is(Bounds { first, last }),
        },
    }
}

fn static_between(scope: &Scope, range: &Range<Tree>, between: Between) -> Found<Bounds>
    ensures { result ≡ static_between (scope_of scope.now) (range_of expr range.now) between }
{
    let first = static_in(Code::L21, low_place(scope, range), &between.low);
    let last = static_in(Code::L21, high_place(scope, range), &between.high);
    drop(between);
    bounds_both(first, last)
}

/// The static bounds of a range.
pub(crate) fn static_bounds(
    scope: &Scope,
    range: &Range<Tree>,
    found: Found<Between>,
) -> Found<Bounds>
    ensures { result ≡ found_then found (static_between (scope_of scope.now) (range_of expr range.now)) }
{
    match found {
        Found::Refused(refusal) => Found::Refused(refusal),
        Found::Unknown => Found::Unknown,
        Found::Is(between) => static_between(scope, range, between),
    }
}
