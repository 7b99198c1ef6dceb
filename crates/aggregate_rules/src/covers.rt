//! Whether the associations of an array give each index, and each once (Ada RM 4.3.3).

ghost use Rattle.std.specs.Prelude.{◌≡◌, IfOk, slice_get};
ghost use Rattle.syntax_view.specs.View.{args_of, expr};
ghost use Rattle.aggregate_rules.specs.Covers.{cover_as};
ghost use Rattle.reading_scope.specs.Scopes.{scope_of};
ghost use Rattle.typing_rules.specs.Aggregates.{arg_place, cover_found, cover_of, covered, items_covered};
ghost use Rattle.typing_rules.specs.Reading.{args};

use ada_syntax::{Arg, Expr as Tree};
use ada_values::Place;
use choice_cover::{Cover, cover_of};
use name_values::spoiled;
use reading_scope::Scope;
use sqlite_items::{Items, at};
use std::alloc::Global;
use type_base::{Code, Refusal, Starved};
use typed_units::{Association, Bounds, Expr};
use typing_rules::{ArrayItems, Found, Gathered};

/// The place of the association of this number; `place` where there is none.
#[tactic(auto, using(crate::proofs::Gathering::arg_there))]
fn arg_place(scope: &Scope, place: Place, associations: &[Arg<Tree>], number: usize) -> Place
    ensures { result ≡ arg_place (scope_of scope.now) place (slice_get (args (scope_of scope.now) (args_of expr associations.now)) number) }
{
    match at(associations, number) {
        Some(association) => scope.place(association.span.from),
        None => place,
    }
}

fn cover_found(
    scope: &Scope,
    place: Place,
    associations: &[Arg<Tree>],
    partial: bool,
    cover: Cover,
    done: Found<Items<Association<Expr>>>,
) -> Found<Items<Association<Expr>>>
    ensures { result ≡ cover_found (scope_of scope.now) place (args (scope_of scope.now) (args_of expr associations.now)) partial (cover_as cover) done }
{
    let code = Code::L16;
    match cover {
        Cover::Outside(number) | Cover::Twice(number) => {
            let place = arg_place(scope, place, associations, number);
            spoiled(done, Refusal { code, place })
        }
        Cover::Missing => {
            if partial {
                done
            } else {
                spoiled(done, Refusal { code, place })
            }
        }
        Cover::Whole => done,
    }
}

/// What the ranges are for the values from a first to a last one.
fn cover_between(
    alloc: Global,
    first: i128,
    last: i128,
    ranges: &[Bounds],
) -> Result<Cover, Starved>
    ensures { IfOk result (λ c. cover_as c ≡ cover_of (record { first = first; last = last }) ranges.now) }
{
    cover_of(alloc, ranges, first, last)
}

/// What the ranges are for these bounds.
fn cover_in(alloc: Global, bounds: Bounds, ranges: &[Bounds]) -> Result<Cover, Starved>
    ensures { IfOk result (λ c. cover_as c ≡ cover_of bounds ranges.now) }
{
    cover_between(alloc, bounds.first, bounds.last, ranges)
}

fn covered(
    alloc: Global,
    scope: &Scope,
    place: Place,
    bounds: Bounds,
    associations: &[Arg<Tree>],
    partial: bool,
    ranges: Found<Items<Bounds>>,
    done: Found<Items<Association<Expr>>>,
) -> Result<Found<Items<Association<Expr>>>, Starved>
    ensures { IfOk result (λ f. f ≡ covered (scope_of scope.now) place bounds (args (scope_of scope.now) (args_of expr associations.now)) partial ranges done) }
{
    match ranges {
        Found::Is(ranges) => {
            match cover_in(alloc, bounds, ranges.as_slice()) {
                Ok(cover) => Ok(cover_found(scope, place, associations, partial, cover, done)),
                Err(error) => {
                    drop(done);
                    Err(error)
                }
            }
        }
        Found::Unknown | Found::Refused(_) => Ok(done),
    }
}

/// The values of an array aggregate at a place, for these bounds. L16 is broken at the first association that gives an index
/// outside them or one that an earlier association gives, and at the place where an index has no value and there is no
/// `others`.
pub fn items_covered(
    alloc: Global,
    scope: &Scope,
    place: Place,
    bounds: Bounds,
    associations: &[Arg<Tree>],
    items: ArrayItems,
) -> Result<Found<Items<Association<Expr>>>, Starved>
    ensures { IfOk result (λ done. done ≡ items_covered (scope_of scope.now) place bounds (args (scope_of scope.now) (args_of expr associations.now)) items) }
{
    let ArrayItems { gathered, partial } = items;
    let Gathered { ranges, done } = gathered;
    covered(
        alloc,
        scope,
        place,
        bounds,
        associations,
        partial,
        ranges,
        done,
    )
}
