//! Aggregates of arrays (Ada RM 4.3.3).

ghost use Rattle.std.specs.Prelude.{◌≡◌, IfOk};
ghost use Rattle.syntax_view.specs.View.{arg_of, expr};
ghost use Rattle.aggregate_rules.specs.Steps.{array_made, gathered_with, item_gathered, item_given, rest_gathered, rest_with};
ghost use Rattle.reading_scope.specs.Scopes.{scope_of};
ghost use Rattle.typing_rules.specs.Aggregates.{choice_done, item_checks, item_value, misplaced, position_range, ranges_in, some_values, stopped};
ghost use Rattle.typing_rules.specs.Reading.{arg};

use ada_syntax::{Arg, Expr as Tree};
use ada_values::Place;
use name_values::{added, seen_as, spoiled};
use reading_scope::Scope;
use sqlite_items::Items;
use std::alloc::Global;
use type_base::{Code, Refusal, Seen, Starved};
use typed_units::{Association, Bounds, Composite, Expr, ExprNode, Fitted};
use typing_rules::{ArrayItems, Found, Gathered};
use value_rules::fit;

/// The index of the positional association after so many others, of an array with these bounds.
pub fn position_range(bounds: Bounds, before: usize) -> Found<Bounds>
    ensures { result ≡ position_range bounds before }
{
    let index = bounds.first.saturating_add(before as i128);
    Found::Is(Bounds {
        first: index,
        last: index,
    })
}

/// The values of a choice at a place. A range without values is to be `alone`, else it breaks L16.
pub fn some_values(alone: bool, place: Place, range: Found<Bounds>) -> Found<Bounds>
    ensures { result ≡ some_values alone place range }
{
    match range {
        Found::Is(bounds) => {
            if bounds.last < bounds.first && !alone {
                Found::Refused(Refusal {
                    code: Code::L16,
                    place,
                })
            } else {
                Found::Is(bounds)
            }
        }
        Found::Unknown => Found::Unknown,
        Found::Refused(refusal) => Found::Refused(refusal),
    }
}

fn item_checks(alloc: Global, bounds: Option<Bounds>) -> Result<Items<Bounds>, Starved>
    ensures { IfOk result (λ bs. bs ≡ item_checks bounds) }
{
    let mut checks = Items::new(alloc);
    if let Some(bounds) = bounds {
        checks.push(bounds)?;
    }
    Ok(checks)
}

fn item_value(
    alloc: Global,
    ranges: Items<Bounds>,
    others: bool,
    fitted: Fitted<Expr>,
) -> Result<Association<Expr>, Starved>
    ensures { IfOk result (λ a. a ≡ item_value ranges others fitted) }
{
    let Fitted { bounds, value } = fitted;
    match item_checks(alloc, bounds) {
        Ok(checks) => Ok(Association {
            ranges,
            others,
            checks,
            value,
        }),
        Err(error) => {
            drop(ranges);
            drop(value);
            Err(error)
        }
    }
}

/// The association of a value for items of a subtype, which has these ranges or is that of `others`. It is `Refused` by L8
/// where the value isn't of the subtype's type, or is an array of other bounds; by L29 where it is a number outside the type's
/// base range.
pub fn item_given(
    alloc: Global,
    scope: &Scope,
    item: u32,
    ranges: Items<Bounds>,
    others: bool,
    place: Place,
    seen: Seen,
) -> Result<Found<Association<Expr>>, Starved>
    ensures { IfOk result (λ v. v ≡ item_given (scope_of scope.now) item ranges others place seen) }
{
    match fit(alloc, scope.world(), Code::L8, true, item, place, seen) {
        Ok(Found::Refused(refusal)) => {
            drop(ranges);
            Ok(Found::Refused(refusal))
        }
        Ok(Found::Unknown) => {
            drop(ranges);
            Ok(Found::Unknown)
        }
        Ok(Found::Is(fitted)) => match item_value(alloc, ranges, others, fitted) {
            Ok(value) => Ok(Found::Is(value)),
            Err(error) => Err(error),
        },
        Err(error) => {
            drop(ranges);
            Err(error)
        }
    }
}

/// The ranges of an association with such a choice.
fn ranges_in(alloc: Global, range: &Found<Bounds>) -> Result<Items<Bounds>, Starved>
    ensures { IfOk result (λ bs. bs ≡ ranges_in range.now) }
{
    let mut ranges = Items::new(alloc);
    if let Found::Is(bounds) = range {
        ranges.push(*bounds)?;
    }
    Ok(ranges)
}

/// The value after a choice, beside what is refused in the choice.
#[tactic(auto, using(crate::proofs::Gathering::as_found))]
fn choice_done(range: &Found<Bounds>, value: Found<Association<Expr>>) -> Found<Association<Expr>>
    ensures { result ≡ choice_done range.now value }
{
    match range {
        Found::Refused(refusal) => spoiled(value, *refusal),
        Found::Unknown => match value {
            Found::Refused(refusal) => Found::Refused(refusal),
            Found::Unknown => Found::Unknown,
            Found::Is(value) => {
                drop(value);
                Found::Unknown
            }
        },
        Found::Is(_) => value,
    }
}

/// What is gathered with a choice and the value after it.
fn gathered_with(
    gathered: Gathered,
    range: Found<Bounds>,
    value: Found<Association<Expr>>,
) -> Result<Gathered, Starved>
    ensures { IfOk result (λ g. g ≡ gathered_with gathered range value) }
{
    let value = choice_done(&range, value);
    let Gathered { ranges, done } = gathered;
    let ranges = match added(ranges, range) {
        Ok(ranges) => ranges,
        Err(error) => {
            drop(done);
            drop(value);
            return Err(error);
        }
    };
    match added(done, value) {
        Ok(done) => Ok(Gathered { ranges, done }),
        Err(error) => {
            drop(ranges);
            Err(error)
        }
    }
}

/// What is gathered with one more association: a choice's values, and what is seen of the value for them.
pub fn item_gathered(
    alloc: Global,
    scope: &Scope,
    item: u32,
    gathered: Gathered,
    range: Found<Bounds>,
    place: Place,
    seen: Seen,
) -> Result<Gathered, Starved>
    ensures { IfOk result (λ g. g ≡ item_gathered (scope_of scope.now) item gathered range place seen) }
{
    let ranges = match ranges_in(alloc, &range) {
        Ok(ranges) => ranges,
        Err(error) => {
            drop(gathered);
            drop(seen);
            return Err(error);
        }
    };
    match item_given(alloc, scope, item, ranges, false, place, seen) {
        Ok(value) => gathered_with(gathered, range, value),
        Err(error) => {
            drop(gathered);
            Err(error)
        }
    }
}

fn rest_with(gathered: Gathered, value: Found<Association<Expr>>) -> Result<ArrayItems, Starved>
    ensures { IfOk result (λ i. i ≡ rest_with gathered value) }
{
    let Gathered { ranges, done } = gathered;
    match added(done, value) {
        Ok(done) => Ok(ArrayItems {
            gathered: Gathered { ranges, done },
            partial: true,
        }),
        Err(error) => {
            drop(ranges);
            Err(error)
        }
    }
}

/// The associations of an array whose last is that of `others`, with what is seen of its value.
pub fn rest_gathered(
    alloc: Global,
    scope: &Scope,
    item: u32,
    gathered: Gathered,
    place: Place,
    seen: Seen,
) -> Result<ArrayItems, Starved>
    ensures { IfOk result (λ i. i ≡ rest_gathered (scope_of scope.now) item gathered place seen) }
{
    match item_given(alloc, scope, item, Items::new(alloc), true, place, seen) {
        Ok(value) => rest_with(gathered, value),
        Err(error) => {
            drop(gathered);
            Err(error)
        }
    }
}

fn misplaced(scope: &Scope, gathered: Gathered, at: u32) -> Gathered
    ensures { result ≡ misplaced (scope_of scope.now) gathered at }
{
    let Gathered { ranges, done } = gathered;
    let refusal = Refusal {
        code: Code::L16,
        place: scope.place(at),
    };
    Gathered {
        ranges,
        done: spoiled(done, refusal),
    }
}

/// The associations of an array up to one that is out of place, which breaks L16.
pub fn stopped(scope: &Scope, gathered: Gathered, association: &Arg<Tree>) -> ArrayItems
    ensures { result ≡ stopped (scope_of scope.now) gathered (arg (scope_of scope.now) (arg_of expr association.now)) }
{
    ArrayItems {
        gathered: misplaced(scope, gathered, association.span.from),
        partial: true,
    }
}

/// An aggregate of an array subtype with these bounds.
pub fn array_made(
    alloc: Global,
    scope: &Scope,
    place: Place,
    subtype: u32,
    bounds: Bounds,
    done: Found<Items<Association<Expr>>>,
) -> Result<Seen, Starved>
    ensures { IfOk result (λ s. s ≡ array_made (scope_of scope.now) place subtype bounds done) }
{
    match done {
        Found::Refused(refusal) => Ok(Seen::Refused(refusal)),
        Found::Unknown => Ok(Seen::Unknown),
        Found::Is(values) => {
            let node = ExprNode::Aggregate(Composite::Array, bounds, values);
            seen_as(alloc, scope, place, subtype, node)
        }
    }
}
