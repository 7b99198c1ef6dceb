//! Subtype indications (Ada RM 3.2.2).

ghost use Rattle.std.specs.Prelude.{◌≡◌, IfOk, Some};
ghost use Rattle.front_codes.specs.declared.codes.Code.TheVariants.{L20, L27};
ghost use Rattle.reading_scope.specs.Scopes.{scope_of};
ghost use Rattle.statement_typing.specs.Asked as asked;
ghost use Rattle.statement_typing.specs.Checks.{and_also, refuse};
ghost use Rattle.statement_typing.specs.Objects.{object_subtype};
ghost use Rattle.statement_typing.specs.Routines.{marked_subtype, result_mark};
ghost use Rattle.statement_typing.specs.Subtypes.{bound_in, constrained, indicated, indication, loose, no_index, part, part_subtype, range_in, unsupported, with_index, with_range};
ghost use Rattle.subtype_reader.specs.Constraints.{constraint_as};
ghost use Rattle.subtype_reader.specs.Written.{range_as};
ghost use Rattle.syntax_view.specs.View.{bounds_of, expr, name_of, sub_ind};
ghost use Rattle.type_base.specs.declared.seen.Want.TheVariants as want';
ghost use Rattle.typing_rules.specs.Fits.{with_found};

use crate::Starved;
use crate::constraints::{Constraint, constraint_of, suffix_constraint};
use crate::ranges::{index_range, loose, wanted_range};
use crate::written_ranges::{WrittenRange, place_of};
use ada_syntax::{Bounds as Limits, Expr, Name, SubInd};
use ada_text::Span;
use ada_values::{Place, Scalar};
use expression_reader::seen;
use reading_scope::Scope;
use statement_rules::{with_refused, with_unknown};
use statement_typing::Noted;
use static_rules::{
    bound_in, bounded, bounds_found, mark_of, named_subtype, narrowed, ordered, whole_of,
};
use std::alloc::Global;
use type_base::{Code, Entity, Form, Refusal, Subtype, Want};
use typed_units::Bounds;
use typing_rules::{Between, Found};

// ---- constraints

/// A bound of a constraint on a subtype of this type and range.
fn bound_read(
    alloc: Global,
    scope: &Scope,
    ty: u32,
    scalar: Scalar,
    e: &Expr,
) -> Result<Found<i128>, Starved>
    ensures { IfOk result (λ n. n ≡ part (scope_of scope.now) (want'.Type ty) (expr e.now) (bound_in (scope_of scope.now).world ty scalar (asked.place_of (scope_of scope.now) (expr e.now)))) }
{
    let seen = seen(alloc, scope, Want::Type(ty), e)?;
    let place = place_of(scope, e);
    let found = bound_in(scope.world(), ty, scalar, place, &seen);
    drop(seen);
    Ok(found)
}

/// The bounds of a constraint on a subtype of this type and range.
fn range_in(
    alloc: Global,
    scope: &Scope,
    ty: u32,
    scalar: Scalar,
    bounds: &Limits,
) -> Result<Found<Bounds>, Starved>
    ensures { IfOk result (λ b. b ≡ range_in (scope_of scope.now) ty scalar (bounds_of bounds.now)) }
{
    let first = bound_read(alloc, scope, ty, scalar, &bounds.low)?;
    match bound_read(alloc, scope, ty, scalar, &bounds.high) {
        Ok(last) => {
            let place = place_of(scope, &bounds.high);
            Ok(ordered(place, bounds_found(first, last)))
        }
        Err(error) => {
            drop(first);
            Err(error)
        }
    }
}

/// A range constraint on what has no range.
fn no_range(alloc: Global, scope: &Scope, bounds: &Limits) -> Result<Found<Noted>, Starved>
    ensures { IfOk result (λ n. n ≡ and_also (refuse L20 (asked.place_of (scope_of scope.now) (expr bounds.now.low))) (loose (scope_of scope.now) (Some (bounds_of bounds.now)))) }
{
    let found = loose(alloc, scope, bounds)?;
    let refusal = Refusal {
        code: Code::L20,
        place: place_of(scope, &bounds.low),
    };
    Ok(with_refused(refusal, found))
}

/// A range constraint on a subtype; by L20 that has numbers or positions.
fn with_range(
    alloc: Global,
    scope: &Scope,
    subtype: Subtype,
    bounds: &Limits,
) -> Result<Found<Noted>, Starved>
    ensures { IfOk result (λ n. n ≡ with_range (scope_of scope.now) subtype (bounds_of bounds.now)) }
{
    match subtype.form {
        Form::Number(discrete, scalar) => {
            let range = range_in(alloc, scope, subtype.of, scalar, bounds)?;
            Ok(narrowed(subtype.of, discrete, scalar, range))
        }
        Form::Truth => no_range(alloc, scope, bounds),
        Form::Array { .. } => no_range(alloc, scope, bounds),
        Form::Record { .. } => no_range(alloc, scope, bounds),
    }
}

/// An index constraint on what has no index that may be constrained.
fn no_index(
    alloc: Global,
    scope: &Scope,
    span: Span,
    range: WrittenRange,
) -> Result<Found<Noted>, Starved>
    ensures { IfOk result (λ n. n ≡ no_index (scope_of scope.now) span (range_as range.entry)) }
{
    let found = wanted_range(alloc, scope, Code::L20, Want::Free, range)?;
    let refusal = Refusal {
        code: Code::L20,
        place: scope.place(span.from),
    };
    Ok(with_refused(refusal, found))
}

/// An index constraint on a subtype; by L20 that is an array's without bounds.
fn with_index(
    alloc: Global,
    scope: &Scope,
    subtype: Subtype,
    span: Span,
    range: WrittenRange,
) -> Result<Found<Noted>, Starved>
    ensures { IfOk result (λ n. n ≡ with_index (scope_of scope.now) subtype span (range_as range.entry)) }
{
    match subtype.form {
        Form::Number(_, _) => no_index(alloc, scope, span, range),
        Form::Truth => no_index(alloc, scope, span, range),
        Form::Array {
            index,
            bounds,
            item,
        } => match bounds {
            None => {
                let bounds = index_range(alloc, scope, index, range)?;
                Ok(bounded(subtype.of, index, item, bounds))
            }
            Some(_) => no_index(alloc, scope, span, range),
        },
        Form::Record { .. } => no_index(alloc, scope, span, range),
    }
}

/// A constraint on the subtype of a number, by the rule for a name of which no subtype can be made.
fn constrained(
    alloc: Global,
    scope: &Scope,
    code: Code,
    place: Place,
    number: u32,
    subtype: Option<Subtype>,
    constraint: Constraint,
) -> Result<Found<Noted>, Starved>
    ensures { IfOk result (λ n. n ≡ constrained (scope_of scope.now) code place number subtype (constraint_as constraint.entry)) }
{
    match subtype {
        None => Ok(Found::Unknown),
        Some(subtype) => match constraint {
            Constraint::Free => Ok(Found::Is(Noted::Known(number))),
            Constraint::ToRange(bounds) => with_range(alloc, scope, subtype, bounds),
            Constraint::ToIndex(span, range) => with_index(alloc, scope, subtype, span, range),
            Constraint::Other => Ok(Found::Refused(Refusal { code, place })),
        },
    }
}

fn range_heard(range: Found<Between>) -> Found<()>
    ensures { result ≡ with_found (λ o. tt) range }
{
    match range {
        Found::Refused(refusal) => Found::Refused(refusal),
        Found::Unknown => Found::Unknown,
        Found::Is(between) => {
            drop(between);
            Found::Is(())
        }
    }
}

/// A constraint on what is no subtype, or isn't known.
fn unsupported(alloc: Global, scope: &Scope, constraint: Constraint) -> Result<Found<()>, Starved>
    ensures { IfOk result (λ f. f ≡ unsupported (scope_of scope.now) (constraint_as constraint.entry)) }
{
    match constraint {
        Constraint::Free => Ok(Found::Is(())),
        Constraint::ToRange(bounds) => loose(alloc, scope, bounds),
        Constraint::ToIndex(_, range) => {
            let found = wanted_range(alloc, scope, Code::L20, Want::Free, range)?;
            Ok(range_heard(found))
        }
        Constraint::Other => Ok(Found::Is(())),
    }
}

// ---- indications

/// A constraint on what a name at a place stands for.
fn indication(
    alloc: Global,
    scope: &Scope,
    code: Code,
    place: Place,
    entity: Entity,
    constraint: Constraint,
) -> Result<Found<Noted>, Starved>
    ensures { IfOk result (λ n. n ≡ indication (scope_of scope.now) code place entity (constraint_as constraint.entry)) }
{
    match entity {
        Entity::Subtype(number) => {
            let subtype = scope.world().subtype(number);
            constrained(alloc, scope, code, place, number, subtype, constraint)
        }
        Entity::Unknown => match unsupported(alloc, scope, constraint) {
            Ok(found) => Ok(with_unknown(found)),
            Err(error) => Err(error),
        },
        _ => match unsupported(alloc, scope, constraint) {
            Ok(found) => Ok(with_refused(Refusal { code, place }, found)),
            Err(error) => Err(error),
        },
    }
}

/// What a subtype indication gives; the rule is broken where it isn't a subtype's name with a constraint that a subtype may
/// have. `Err` where memory was refused.
pub fn indicated(
    alloc: Global,
    scope: &Scope,
    code: Code,
    sub: &SubInd,
) -> Result<Found<Noted>, Starved>
    ensures { IfOk result (λ n. n ≡ indicated (scope_of scope.now) code (sub_ind sub.now)) }
{
    let mark = mark_of(scope, &sub.name);
    let place = scope.place(sub.name.span.from);
    let constraint = constraint_of(mark.rest, &sub.bounds);
    indication(alloc, scope, code, place, mark.entity, constraint)
}

/// The subtype of a component or an item; by L26 it is no unconstrained array's. `Err` where memory was refused.
pub fn part_subtype(alloc: Global, scope: &Scope, sub: &SubInd) -> Result<Found<Noted>, Starved>
    ensures { IfOk result (λ n. n ≡ part_subtype (scope_of scope.now) (sub_ind sub.now)) }
{
    match indicated(alloc, scope, Code::L26, sub)? {
        Found::Refused(refusal) => Ok(Found::Refused(refusal)),
        Found::Unknown => Ok(Found::Unknown),
        Found::Is(noted) => {
            let place = scope.place(sub.name.span.from);
            Ok(whole_of(scope.world(), Code::L26, place, noted))
        }
    }
}

/// The subtype of an object that is declared at a place; by L27 it is no unconstrained array's. `Err` where memory was refused.
pub fn object_subtype(
    alloc: Global,
    scope: &Scope,
    place: Place,
    sub: &SubInd,
) -> Result<Found<Noted>, Starved>
    ensures { IfOk result (λ n. n ≡ object_subtype (scope_of scope.now) place (sub_ind sub.now)) }
{
    match indicated(alloc, scope, Code::L27, sub)? {
        Found::Refused(refusal) => Ok(Found::Refused(refusal)),
        Found::Unknown => Ok(Found::Unknown),
        Found::Is(noted) => Ok(whole_of(scope.world(), Code::L27, place, noted)),
    }
}

/// The number of the subtype of a formal parameter, which by L27 has a name. `Err` where memory was refused.
pub fn marked_subtype(alloc: Global, scope: &Scope, sub: &SubInd) -> Result<Found<u32>, Starved>
    ensures { IfOk result (λ k. k ≡ marked_subtype (scope_of scope.now) (sub_ind sub.now)) }
{
    match indicated(alloc, scope, Code::L27, sub)? {
        Found::Refused(refusal) => Ok(Found::Refused(refusal)),
        Found::Unknown => Ok(Found::Unknown),
        Found::Is(noted) => Ok(named_subtype(scope.place(sub.name.span.from), noted)),
    }
}

/// The number of the subtype of a function's result, by its name, which by L27 is a subtype's. `Err` where memory was refused.
pub fn marked_name(alloc: Global, scope: &Scope, name: &Name<Expr>) -> Result<Found<u32>, Starved>
    ensures { IfOk result (λ k. k ≡ marked_subtype (scope_of scope.now) (result_mark (scope_of scope.now) (name_of expr name.now))) }
{
    let mark = mark_of(scope, name);
    let place = scope.place(name.span.from);
    let constraint = suffix_constraint(mark.rest);
    match indication(alloc, scope, Code::L27, place, mark.entity, constraint)? {
        Found::Refused(refusal) => Ok(Found::Refused(refusal)),
        Found::Unknown => Ok(Found::Unknown),
        Found::Is(noted) => Ok(named_subtype(place, noted)),
    }
}
