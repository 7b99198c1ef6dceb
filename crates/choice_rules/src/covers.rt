//! Whether choices have each value of the selector once (Ada RM 5.4(6)).

ghost use Rattle.std.specs.Prelude.{◌≡◌, [], Some, IfOk};
ghost use Rattle.choice_cover.specs.Covering.{covering};
ghost use Rattle.choice_rules.specs.Steps.{covered_where, cover_read, known_after};
ghost use Rattle.statement_typing.specs.Choices.{cover_by};

use crate::news::{judged, known};
use crate::sums::all_heard;
use ada_values::Place;
use choice_cover::{Cover, cover_of};
use statement_rules::refuse;
use statement_typing::Spread;
use std::alloc::Global;
use type_base::{Code, Starved};
use typed_units::Bounds;
use typing_rules::Found;

fn covered_where(place: Place, complete: bool, state: Found<()>) -> Found<bool>
    ensures { result ≡ covered_where place complete state }
{
    match state {
        Found::Refused(refusal) => Found::Refused(refusal),
        Found::Unknown => Found::Unknown,
        Found::Is(()) => {
            if complete {
                Found::Is(true)
            } else {
                refuse(Code::L21, place)
            }
        }
    }
}

/// What is refused of choices, by what their values are for the selector's bounds.
fn cover_read(
    alloc: Global,
    place: Place,
    others: bool,
    selected: Bounds,
    spreads: &[Found<Spread>],
    cover: Cover,
) -> Result<Found<bool>, Starved>
    ensures { IfOk result (λ f. f ≡ cover_read place others selected spreads.now cover) }
{
    match cover {
        Cover::Whole => Ok(covered_where(place, true, all_heard(spreads))),
        Cover::Missing => Ok(covered_where(place, others, all_heard(spreads))),
        Cover::Outside(_) | Cover::Twice(_) => {
            let state = judged(alloc, selected, spreads)?;
            Ok(covered_where(place, true, state))
        }
    }
}

fn known_cover(
    alloc: Global,
    first: i128,
    last: i128,
    spreads: &[Found<Spread>],
) -> Result<Cover, Starved>
    ensures { IfOk result (λ c. c ≡ covering (known_after [] spreads.now) first last) }
{
    let values = known(alloc, spreads)?;
    cover_of(alloc, values.as_slice(), first, last)
}

#[tactic(auto, using(crate::proofs::Covered::cover_is))]
fn cover_in(
    alloc: Global,
    place: Place,
    others: bool,
    selected: Bounds,
    spreads: &[Found<Spread>],
) -> Result<Found<bool>, Starved>
    ensures { IfOk result (λ f. f ≡ cover_by place others (Some selected) spreads.now) }
{
    let cover = known_cover(alloc, selected.first, selected.last, spreads)?;
    cover_read(alloc, place, others, selected, spreads, cover)
}

/// What is refused of the choices of a `case` at a place together, and whether nothing is, for a selector with these bounds:
/// L21 is broken by a choice with a value outside them or with one of an earlier choice, and at the place where a value is
/// left out and there is no `others`. `Err` where memory was refused. The time grows as n log n for n choices, and as their
/// square where a value is outside or stands twice.
pub fn cover_by(
    alloc: Global,
    place: Place,
    others: bool,
    selected: Option<Bounds>,
    spreads: &[Found<Spread>],
) -> Result<Found<bool>, Starved>
    ensures { IfOk result (λ f. f ≡ cover_by place others selected spreads.now) }
{
    match selected {
        Some(selected) => cover_in(alloc, place, others, selected, spreads),
        None => Ok(Found::Unknown),
    }
}
