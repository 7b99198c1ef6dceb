//! Ranges, of a type that the context gives (Ada RM 3.5, 3.6.1).

ghost use Rattle.std.specs.Prelude.{◌≡◌, IfOk, Some};
ghost use Rattle.reading_scope.specs.Scopes.{scope_of};
ghost use Rattle.statement_typing.specs.Asked as asked;
ghost use Rattle.statement_typing.specs.Subtypes.{heard, index_range, loose, static_range};
ghost use Rattle.subtype_reader.specs.Written.{range_as};
ghost use Rattle.syntax_view.specs.View.{bounds_of, expr};
ghost use Rattle.type_base.specs.declared.seen.Want.TheVariants as want';
ghost use Rattle.typing_rules.specs.Ranges as ranges;
ghost use Rattle.typing_rules.specs.Reading as reading;

use crate::Starved;
use crate::reaches::range_of_want;
use crate::written_ranges::{WrittenRange, high_place, low_place};
use ada_syntax::{Bounds as Limits, Expr};
use expression_kinds::kind;
use expression_reader::{prefix, seen};
use operand_rules::expression_place;
use range_rules::{lone_reach, two_reach, want_or};
use reading_scope::Scope;
use statement_rules::{and_also, heard};
use statement_typing::StaticRange;
use static_rules::{bounds_for, static_range_of, type_want};
use std::alloc::Global;
use type_base::{Code, Want};
use typed_units::Bounds;
use typing_rules::{Between, Found, Reach};

/// What two bounds reach over in a context, by a rule.
fn bounds_reach(
    alloc: Global,
    scope: &Scope,
    code: Code,
    want: Want,
    low: &Expr,
    high: &Expr,
) -> Result<Reach, Starved>
    ensures { IfOk result (λ r. r ≡ ranges.two_reach (scope_of scope.now) code want (reading.read (scope_of scope.now) (expr low.now)) (reading.read (scope_of scope.now) (expr high.now))) }
{
    let wanted = want_or(want, kind(scope, high));
    let first = seen(alloc, scope, wanted, low)?;
    let wanted = want_or(want, kind(scope, low));
    let last = match seen(alloc, scope, wanted, high) {
        Ok(last) => last,
        Err(error) => {
            drop(first);
            return Err(error);
        }
    };
    let from = expression_place(scope, low);
    let to = expression_place(scope, high);
    two_reach(alloc, scope, code, from, to, first, last)
}

/// What a range reaches over in a context, by a rule.
fn reach_of(
    alloc: Global,
    scope: &Scope,
    code: Code,
    want: Want,
    range: WrittenRange,
) -> Result<Reach, Starved>
    ensures { IfOk result (λ r. r ≡ ranges.reach_of (scope_of scope.now) code want (reading.range (scope_of scope.now) (range_as range.entry))) }
{
    match range {
        WrittenRange::Named(name) => {
            let prefix = prefix(alloc, scope, want, name)?;
            lone_reach(alloc, scope, code, expression_place(scope, name), prefix)
        }
        WrittenRange::Bounds(low, high) => bounds_reach(alloc, scope, code, want, low, high),
    }
}

/// A range, by a rule that is broken where it isn't of the type that the context gives. `Err` where memory was refused.
#[tactic(auto, using(crate::proofs::Ranged::range_is))]
pub fn wanted_range(
    alloc: Global,
    scope: &Scope,
    code: Code,
    want: Want,
    range: WrittenRange,
) -> Result<Found<Between>, Starved>
    ensures { IfOk result (λ b. b ≡ asked.range_seen (scope_of scope.now) code want (range_as range.entry)) }
{
    let reach = reach_of(alloc, scope, code, want, range)?;
    let low = low_place(scope, range);
    let high = high_place(scope, range);
    range_of_want(alloc, scope, code, want, low, high, reach)
}

/// A range of an integer or enumeration type with static bounds. `Err` where memory was refused.
pub fn static_range(
    alloc: Global,
    scope: &Scope,
    want: Want,
    range: WrittenRange,
) -> Result<Found<StaticRange>, Starved>
    ensures { IfOk result (λ r. r ≡ static_range (scope_of scope.now) want (range_as range.entry)) }
{
    match wanted_range(alloc, scope, Code::L20, want, range)? {
        Found::Refused(refusal) => Ok(Found::Refused(refusal)),
        Found::Unknown => Ok(Found::Unknown),
        Found::Is(between) => {
            let low = low_place(scope, range);
            let high = high_place(scope, range);
            Ok(static_range_of(low, high, between))
        }
    }
}

/// The bounds of an array whose index has a subtype, in which they are where there is any index. `Err` where memory was refused.
pub fn index_range(
    alloc: Global,
    scope: &Scope,
    index: u32,
    range: WrittenRange,
) -> Result<Found<Bounds>, Starved>
    ensures { IfOk result (λ b. b ≡ index_range (scope_of scope.now) index (range_as range.entry)) }
{
    let want = type_want(scope.world().type_of(index));
    match static_range(alloc, scope, want, range)? {
        Found::Refused(refusal) => Ok(Found::Refused(refusal)),
        Found::Unknown => Ok(Found::Unknown),
        Found::Is(found) => {
            let low = low_place(scope, range);
            let high = high_place(scope, range);
            let index = scope.world().bounds(index);
            Ok(bounds_for(low, high, index, found.bounds))
        }
    }
}

/// What is found of an expression without a context, of which nothing is demanded. `Err` where memory was refused.
pub fn expression_heard(alloc: Global, scope: &Scope, e: &Expr) -> Result<Found<()>, Starved>
    ensures { IfOk result (λ f. f ≡ heard (reading.seen (scope_of scope.now) want'.Free (expr e.now))) }
{
    let seen = seen(alloc, scope, Want::Free, e)?;
    Ok(heard(seen))
}

/// What is found of two bounds where there is nothing that they could be bounds of. `Err` where memory was refused.
pub fn loose(alloc: Global, scope: &Scope, bounds: &Limits) -> Result<Found<()>, Starved>
    ensures { IfOk result (λ f. f ≡ loose (scope_of scope.now) (Some (bounds_of bounds.now))) }
{
    let low = expression_heard(alloc, scope, &bounds.low)?;
    match expression_heard(alloc, scope, &bounds.high) {
        Ok(high) => Ok(and_also(low, high)),
        Err(error) => {
            drop(low);
            Err(error)
        }
    }
}
