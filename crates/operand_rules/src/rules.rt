//! Rules of operands that have been read. `None` is one that isn't there, where one is wanted.

ghost use Rattle.std.specs.Prelude.{◌≡◌, IfOk};
ghost use Rattle.reading_scope.specs.Scopes.{scope_of};
ghost use Rattle.front_codes.specs.declared.codes.Code.TheVariants as code;
ghost use Rattle.typed_units.specs.declared.expressions.Actual.TheVariants as actual;
ghost use Rattle.type_base.specs.Lookups.{type_at};
ghost use Rattle.typing_rules.specs.Calls.{passed_as, variable};
ghost use Rattle.typing_rules.specs.Fits.{found_then, with_found};
ghost use Rattle.typing_rules.specs.declared.prefix.Prefix.TheVariants as prefix;
ghost use Rattle.operand_rules.specs.Operands.{actual_read, actual_want, argument_read, beside_read, conversion_read, index_read, mapped_read, value_for_read};

use crate::operands::{ReadOperand, value_read};
use ada_values::Place;
use aggregate_rules::value_given;
use attribute_rules::mapped_by;
use front_codes::{Code, Refusal};
use name_values::beside;
use prefix_rules::{conversion, index_found, passed_as, variable};
use reading_scope::Scope;
use std::alloc::Global;
use type_base::{Component, Formal, Seen, Starved, Want, refused};
use typed_units::{Actual, Argument, Association, Bounds, Expr, Fitted, Indexed, Mode};
use typing_rules::{Found, Gives, Mapping, Prefix};
use value_rules::fit;

/// A conversion to a subtype. L18 is broken where there is no operand.
pub fn conversion_read(
    alloc: Global,
    scope: &Scope,
    place: Place,
    subtype: u32,
    operand: Option<ReadOperand>,
) -> Result<Prefix, Starved>
    ensures { IfOk result (λ f. f ≡ prefix.Value (conversion_read (scope_of scope.now) place subtype operand)) }
{
    match operand {
        Some(operand) => {
            let at = operand.place;
            let seen = value_read(alloc, scope, operand)?;
            let seen = conversion(alloc, scope, place, subtype, at, seen)?;
            Ok(Prefix::Value(seen))
        }
        None => Ok(Prefix::Value(refused(Code::L18, place))),
    }
}

/// What an attribute of a subtype that is a function gives. L10 is broken where there is no argument.
pub fn mapped_read(
    alloc: Global,
    scope: &Scope,
    place: Place,
    mapping: Mapping,
    tick: Place,
    subtype: u32,
    operand: Option<ReadOperand>,
) -> Result<Prefix, Starved>
    ensures { IfOk result (λ f. f ≡ prefix.Value (mapped_read (scope_of scope.now) place mapping tick subtype operand)) }
{
    match operand {
        Some(operand) => {
            let at = operand.place;
            let seen = value_read(alloc, scope, operand)?;
            let seen = mapped_by(alloc, scope, place, mapping, tick, subtype, at, seen)?;
            Ok(Prefix::Value(seen))
        }
        None => Ok(Prefix::Value(refused(Code::L10, place))),
    }
}

/// An index of an array with such an index subtype and bounds. L14 is broken at `place` where there is none.
pub fn index_read(
    alloc: Global,
    scope: &Scope,
    index: u32,
    bounds: Option<Bounds>,
    place: Place,
    operand: Option<ReadOperand>,
) -> Result<Found<Indexed<Expr>>, Starved>
    ensures { IfOk result (λ f. f ≡ index_read (scope_of scope.now) index bounds place operand) }
{
    match operand {
        Some(operand) => {
            let at = operand.place;
            let seen = value_read(alloc, scope, operand)?;
            index_found(alloc, scope, index, bounds, at, seen)
        }
        None => Ok(Found::Refused(Refusal {
            code: Code::L14,
            place,
        })),
    }
}

/// What is seen beside an operand of which only its refusal is told.
pub fn beside_read(
    alloc: Global,
    scope: &Scope,
    operand: Option<ReadOperand>,
    seen: Seen,
) -> Result<Seen, Starved>
    ensures { IfOk result (λ s. s ≡ beside_read (scope_of scope.now) operand seen) }
{
    match operand {
        Some(operand) => match value_read(alloc, scope, operand) {
            Ok(other) => Ok(beside(other, seen)),
            Err(error) => {
                drop(seen);
                Err(error)
            }
        },
        None => Ok(seen),
    }
}

/// What the context gives to an actual parameter for a formal of this mode and subtype.
pub fn actual_want(mode: Mode, subtype: u32) -> Want
    ensures { result ≡ actual_want mode subtype }
{
    match mode {
        Mode::In => Want::Subtype(subtype),
        Mode::Out | Mode::InOut => Want::Free,
    }
}

fn value_passed(fitted: Found<Fitted<Expr>>) -> Found<Actual<Expr>>
    ensures { result ≡ with_found actual.In fitted }
{
    match fitted {
        Found::Refused(refusal) => Found::Refused(refusal),
        Found::Unknown => Found::Unknown,
        Found::Is(value) => Found::Is(Actual::In(value)),
    }
}

fn variable_passed(
    alloc: Global,
    scope: &Scope,
    mode: Mode,
    subtype: u32,
    operand: ReadOperand,
) -> Result<Found<Actual<Expr>>, Starved>
    ensures { IfOk result (λ a. a ≡ found_then (variable (scope_of scope.now) code.L11 operand.place operand.prefix) (passed_as (scope_of scope.now) operand.place mode subtype (type_at (scope_of scope.now).world subtype))) }
{
    let ReadOperand { place, prefix } = operand;
    match variable(alloc, scope, Code::L11, place, prefix)? {
        Found::Refused(refusal) => Ok(Found::Refused(refusal)),
        Found::Unknown => Ok(Found::Unknown),
        Found::Is(part) => Ok(passed_as(scope, place, mode, subtype, part)),
    }
}

fn actual_read(
    alloc: Global,
    scope: &Scope,
    mode: Mode,
    subtype: u32,
    operand: ReadOperand,
) -> Result<Found<Actual<Expr>>, Starved>
    ensures { IfOk result (λ a. a ≡ actual_read (scope_of scope.now) mode subtype operand) }
{
    match mode {
        Mode::In => {
            let at = operand.place;
            let seen = value_read(alloc, scope, operand)?;
            let fitted = fit(alloc, scope.world(), Code::L11, false, subtype, at, seen)?;
            Ok(value_passed(fitted))
        }
        Mode::Out | Mode::InOut => variable_passed(alloc, scope, mode, subtype, operand),
    }
}

/// The argument for the formal of a number, which was read for `actual_want`.
pub fn argument_read(
    alloc: Global,
    scope: &Scope,
    number: u32,
    formal: Formal,
    operand: Option<ReadOperand>,
) -> Result<Found<Argument<Expr>>, Starved>
    ensures { IfOk result (λ a. a ≡ argument_read (scope_of scope.now) number formal operand) }
{
    match operand {
        Some(operand) => match actual_read(alloc, scope, formal.mode, formal.subtype, operand)? {
            Found::Refused(refusal) => Ok(Found::Refused(refusal)),
            Found::Unknown => Ok(Found::Unknown),
            Found::Is(value) => Ok(Found::Is(Argument {
                formal: number,
                value,
            })),
        },
        None => Ok(Found::Unknown),
    }
}

/// The value of an association of a record that gives these components, the first of which is of this subtype.
pub fn value_for_read(
    alloc: Global,
    scope: &Scope,
    components: &[Component],
    gives: &Gives,
    subtype: u32,
    operand: Option<ReadOperand>,
) -> Result<Found<Association<Expr>>, Starved>
    ensures { IfOk result (λ a. a ≡ value_for_read (scope_of scope.now) components.now gives.now subtype operand) }
{
    match operand {
        Some(operand) => {
            let at = operand.place;
            let seen = value_read(alloc, scope, operand)?;
            value_given(alloc, scope, components, gives, subtype, at, seen)
        }
        None => Ok(Found::Unknown),
    }
}
