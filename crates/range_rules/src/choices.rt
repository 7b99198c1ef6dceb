//! Static choices (Ada RM 3.8.1, 4.3.1, 4.3.3).

ghost use Rattle.std.specs.Prelude.{◌≡◌, IfOk};
ghost use Rattle.reading_scope.specs.Scopes.{scope_of};
ghost use Rattle.typed_units.specs.declared.statements.Choice.TheVariants as choice;
ghost use Rattle.typing_rules.specs.Fits.{both, with_found};
ghost use Rattle.typing_rules.specs.Ranges.{bounds_of_type, choice_by, choice_range, reach_bounds, static_bounds, value_at};
ghost use Rattle.typing_rules.specs.Values.{value_of};

use ada_values::Place;
use expression_rules::number_in;
use front_codes::first_of_two;
use name_values::{type_of, typed_as, value_of};
use reading_scope::Scope;
use std::alloc::Global;
use type_base::{Code, Refusal, Seen, Starved};
use typed_units::{Bounds, Choice};
use typing_rules::{Between, Found, Prefix, Reach};
use value_rules::{static_value, subtype_reach};

/// The static value at a place that is to be of a type, by a rule. `Err` where memory was refused.
pub fn value_at(
    alloc: Global,
    scope: &Scope,
    code: Code,
    ty: u32,
    place: Place,
    seen: Seen,
) -> Result<Found<i128>, Starved>
    ensures { IfOk result (λ n. n ≡ value_at (scope_of scope.now) code ty place seen) }
{
    match typed_as(alloc, scope, code, ty, place, seen) {
        Ok(seen) => Ok(static_value(code, place, seen)),
        Err(error) => Err(error),
    }
}

/// Two bounds at a place, which by a rule are static.
fn static_bounds(code: Code, place: Place, first: Option<i128>, last: Option<i128>) -> Found<Bounds>
    ensures { result ≡ static_bounds code place place first last }
{
    match first {
        Some(first) => match last {
            Some(last) => Found::Is(Bounds { first, last }),
            None => Found::Refused(Refusal { code, place }),
        },
        None => Found::Refused(Refusal { code, place }),
    }
}

/// The bounds of a range at a place, which by a rule is static and of a type.
fn bounds_of_type(scope: &Scope, code: Code, ty: u32, place: Place, range: Between) -> Found<Bounds>
    ensures { result ≡ bounds_of_type (scope_of scope.now) code ty place range }
{
    if ty == type_of(scope.world(), range.subtype) {
        static_bounds(code, place, number_in(&range.low), number_in(&range.high))
    } else {
        Found::Refused(Refusal { code, place })
    }
}

fn reach_bounds(scope: &Scope, code: Code, ty: u32, place: Place, reach: Reach) -> Found<Bounds>
    ensures { result ≡ reach_bounds (scope_of scope.now) code ty place reach }
{
    match reach {
        Reach::Refused(refusal) => Found::Refused(refusal),
        Reach::Unknown => Found::Unknown,
        Reach::Between(range) => bounds_of_type(scope, code, ty, place, range),
        Reach::Numbers(first, last) => Found::Is(Bounds { first, last }),
    }
}

/// The choice of a range with these bounds.
fn choice_of_bounds(bounds: Found<Bounds>) -> Found<Choice>
    ensures { result ≡ with_found choice.Range bounds }
{
    match bounds {
        Found::Refused(refusal) => Found::Refused(refusal),
        Found::Unknown => Found::Unknown,
        Found::Is(bounds) => Found::Is(Choice::Range(bounds)),
    }
}

/// The choice of a value.
fn choice_of_value(value: Found<i128>) -> Found<Choice>
    ensures { result ≡ with_found choice.Value value }
{
    match value {
        Found::Refused(refusal) => Found::Refused(refusal),
        Found::Unknown => Found::Unknown,
        Found::Is(value) => Found::Is(Choice::Value(value)),
    }
}

fn value_choice(
    alloc: Global,
    scope: &Scope,
    code: Code,
    ty: u32,
    place: Place,
    prefix: Prefix,
) -> Result<Found<Choice>, Starved>
    ensures { IfOk result (λ x. x ≡ with_found choice.Value (value_at (scope_of scope.now) code ty place (value_of (scope_of scope.now) place prefix))) }
{
    let seen = value_of(alloc, scope, place, prefix)?;
    match value_at(alloc, scope, code, ty, place, seen) {
        Ok(value) => Ok(choice_of_value(value)),
        Err(error) => Err(error),
    }
}

/// A choice of a type by one expression: a static value, a subtype's name, or `'Range`, by a rule. `Err` where memory was
/// refused.
pub fn choice_by(
    alloc: Global,
    scope: &Scope,
    code: Code,
    ty: u32,
    place: Place,
    prefix: Prefix,
) -> Result<Found<Choice>, Starved>
    ensures { IfOk result (λ x. x ≡ choice_by (scope_of scope.now) code ty place prefix) }
{
    match prefix {
        Prefix::Subtype(subtype) => {
            match subtype_reach(alloc, code, place, subtype, scope.world().form(subtype)) {
                Ok(reach) => Ok(choice_of_bounds(reach_bounds(scope, code, ty, place, reach))),
                Err(error) => Err(error),
            }
        }
        Prefix::Range(range) => {
            Ok(choice_of_bounds(bounds_of_type(scope, code, ty, place, range)))
        }
        other => value_choice(alloc, scope, code, ty, place, other),
    }
}

/// A choice by two bounds.
pub fn range_choice(first: Found<i128>, last: Found<i128>) -> Found<Choice>
    ensures { result ≡ both (λ a b. choice.Range (record { first = a; last = b })) first last }
{
    match first {
        Found::Refused(refusal) => match last {
            Found::Refused(other) => Found::Refused(first_of_two(refusal, other)),
            Found::Unknown | Found::Is(_) => Found::Refused(refusal),
        },
        Found::Unknown => match last {
            Found::Refused(refusal) => Found::Refused(refusal),
            Found::Unknown | Found::Is(_) => Found::Unknown,
        },
        Found::Is(first) => match last {
            Found::Refused(refusal) => Found::Refused(refusal),
            Found::Unknown => Found::Unknown,
            Found::Is(last) => Found::Is(Choice::Range(Bounds { first, last })),
        },
    }
}

/// The numbers that a choice has.
pub fn choice_range(choice: Choice) -> Bounds
    ensures { result ≡ choice_range choice }
{
    match choice {
        Choice::Value(number) => Bounds {
            first: number,
            last: number,
        },
        Choice::Range(bounds) => bounds,
    }
}
