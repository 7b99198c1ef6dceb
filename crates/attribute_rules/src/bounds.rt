//! `'First`, `'Last`, `'Length` and `'Range` (Ada RM 3.5, 3.6.2).

ghost use Rattle.std.specs.Prelude.{◌≡◌, false, IfOk, None, Some, if◌then◌else◌};
ghost use Rattle.ada_values.specs.Scalars.{in_base};
ghost use Rattle.ada_values.specs.declared.values.Value.TheVariants as value;
ghost use Rattle.attribute_rules.specs.Arrays.{bounded_as};
ghost use Rattle.reading_scope.specs.Scopes.{scope_of};
ghost use Rattle.type_base.specs.Results.{universal};
ghost use Rattle.typed_units.specs.declared.expressions.ExprNode.TheVariants as node;
ghost use Rattle.typing_rules.specs.Attributes.{bound, bound_at, bound_of, bounded, known_bounds, length_at, length_of, of_value, range_at, range_by, range_from, scalar_bound, static};
ghost use Rattle.typing_rules.specs.Lookups.{seen_as, size_of, type_of};

use crate::arrays::{ArrayPrefix, bounded, subtype_bounded};
use ada_values::{Place, Value};
use expression_copies::copy_expression;
use name_values::{seen_as, type_of};
use reading_scope::Scope;
use std::alloc::Global;
use type_base::{Code, Form, Seen, Starved, Want, made, refused};
use typed_units::{Bounds, Expr, ExprNode};
use typing_rules::{Between, Prefix};

fn bound_of(first: bool, bounds: Bounds) -> i128
    ensures { result ≡ bound_of first bounds }
{
    if first { bounds.first } else { bounds.last }
}

/// A bound that is static.
fn static_bound(
    alloc: Global,
    scope: &Scope,
    place: Place,
    first: bool,
    subtype: u32,
    bounds: Bounds,
) -> Result<Seen, Starved>
    ensures { IfOk result (λ s. s ≡ seen_as (scope_of scope.now) place subtype (node.Static (value.Int (bound_of first bounds)))) }
{
    let value = Value::Int(bound_of(first, bounds));
    seen_as(alloc, scope, place, subtype, ExprNode::Static(value))
}

/// A bound that is known, of what isn't static.
fn known_bound(
    alloc: Global,
    scope: &Scope,
    place: Place,
    first: bool,
    index: u32,
    bounds: Bounds,
) -> Result<Seen, Starved>
    ensures { IfOk result (λ s. (x : Expr) → s ≡ bound_at (scope_of scope.now) place first (known_bounds index bounds x)) }
{
    let ty = type_of(scope.world(), index);
    let value = Value::Int(bound_of(first, bounds));
    match made(alloc, place, ty, ExprNode::Static(value)) {
        Ok(bound) => seen_as(alloc, scope, place, ty, ExprNode::Same(bound)),
        Err(error) => Err(error),
    }
}

/// A bound that the value of an expression has.
fn value_bound(
    alloc: Global,
    scope: &Scope,
    place: Place,
    first: bool,
    index: u32,
    x: Expr,
) -> Result<Seen, Starved>
    ensures { IfOk result (λ s. s ≡ bound_at (scope_of scope.now) place first (of_value index x)) }
{
    let ty = type_of(scope.world(), index);
    let node = if first {
        ExprNode::First(x)
    } else {
        ExprNode::Last(x)
    };
    seen_as(alloc, scope, place, ty, node)
}

fn bound_at(
    alloc: Global,
    scope: &Scope,
    place: Place,
    first: bool,
    array: ArrayPrefix,
) -> Result<Seen, Starved>
    ensures { IfOk result (λ s. s ≡ bound_at (scope_of scope.now) place first (bounded_as array)) }
{
    match array {
        ArrayPrefix::Static(index, bounds) => {
            let ty = type_of(scope.world(), index);
            static_bound(alloc, scope, place, first, ty, bounds)
        }
        ArrayPrefix::Known(index, bounds, x) => {
            drop(x);
            known_bound(alloc, scope, place, first, index, bounds)
        }
        ArrayPrefix::OfValue(index, x) => value_bound(alloc, scope, place, first, index, x),
        ArrayPrefix::NoArray => Ok(refused(Code::L19, place)),
        ArrayPrefix::Unclear(seen) => Ok(seen),
    }
}

/// `'First` or `'Last` of a subtype: its own bound where it is scalar.
fn subtype_bound(
    alloc: Global,
    scope: &Scope,
    place: Place,
    first: bool,
    subtype: u32,
    form: Option<Form>,
) -> Result<Seen, Starved>
    ensures { IfOk result (λ s. s ≡ scalar_bound (scope_of scope.now) place first subtype form) }
{
    match form {
        Some(Form::Number(_, scalar)) => {
            let bounds = Bounds {
                first: scalar.lo,
                last: scalar.hi,
            };
            static_bound(alloc, scope, place, first, subtype, bounds)
        }
        _ => bound_at(alloc, scope, place, first, subtype_bounded(form)),
    }
}

fn array_bound(
    alloc: Global,
    scope: &Scope,
    place: Place,
    first: bool,
    prefix: Prefix,
) -> Result<Seen, Starved>
    ensures { IfOk result (λ s. s ≡ bound_at (scope_of scope.now) place first (bounded (scope_of scope.now) place prefix)) }
{
    match bounded(alloc, scope, place, prefix) {
        Ok(array) => bound_at(alloc, scope, place, first, array),
        Err(error) => Err(error),
    }
}

/// `'First` of a prefix, or `'Last`.
pub(crate) fn bound(
    alloc: Global,
    scope: &Scope,
    place: Place,
    first: bool,
    prefix: Prefix,
) -> Result<Seen, Starved>
    ensures { IfOk result (λ s. s ≡ bound (scope_of scope.now) place first prefix) }
{
    match prefix {
        Prefix::Subtype(subtype) => {
            let form = scope.world().form(subtype);
            subtype_bound(alloc, scope, place, first, subtype, form)
        }
        Prefix::Constant(ty, x) => {
            array_bound(alloc, scope, place, first, Prefix::Constant(ty, x))
        }
        Prefix::Part(part) => array_bound(alloc, scope, place, first, Prefix::Part(part)),
        Prefix::Package => array_bound(alloc, scope, place, first, Prefix::Package),
        Prefix::Routine(routine) => {
            array_bound(alloc, scope, place, first, Prefix::Routine(routine))
        }
        Prefix::Called(routine, arguments) => {
            array_bound(
                alloc,
                scope,
                place,
                first,
                Prefix::Called(routine, arguments),
            )
        }
        Prefix::Mapping(mapping, tick, subtype) => {
            array_bound(
                alloc,
                scope,
                place,
                first,
                Prefix::Mapping(mapping, tick, subtype),
            )
        }
        Prefix::Range(range) => array_bound(alloc, scope, place, first, Prefix::Range(range)),
        Prefix::Value(seen) => array_bound(alloc, scope, place, first, Prefix::Value(seen)),
    }
}

/// How many values stand between two bounds, where that has 128 bits.
fn size_of(bounds: Bounds) -> Option<i128>
    ensures { result ≡ if in_base universal (size_of bounds) then Some (size_of bounds) else None }
{
    if bounds.last < bounds.first {
        return Some(0);
    }
    match bounds.last.checked_sub(bounds.first) {
        Some(more) => more.checked_add(1),
        None => None,
    }
}

fn length_of(place: Place, bounds: Bounds) -> Seen
    ensures { result ≡ length_of place (size_of bounds) }
{
    match size_of(bounds) {
        Some(size) => Seen::Number(size),
        None => refused(Code::TooWide, place),
    }
}

/// `'Length` of an array.
pub(crate) fn length_at(
    alloc: Global,
    scope: &Scope,
    want: Want,
    place: Place,
    tick: Place,
    array: ArrayPrefix,
) -> Result<Seen, Starved>
    ensures { IfOk result (λ s. s ≡ length_at (scope_of scope.now) want place tick (bounded_as array)) }
{
    match array {
        ArrayPrefix::Static(_, bounds) => Ok(length_of(place, bounds)),
        ArrayPrefix::Known(_, _, x) | ArrayPrefix::OfValue(_, x) => {
            let subtype = scope.world().wanted_integer(want);
            seen_as(alloc, scope, place, subtype, ExprNode::Length(tick, x))
        }
        ArrayPrefix::NoArray => Ok(refused(Code::L19, place)),
        ArrayPrefix::Unclear(seen) => Ok(seen),
    }
}

fn range_by(index: u32, low: Seen, high: Seen) -> Prefix
    ensures { result ≡ range_by index low high }
{
    match low {
        Seen::Typed(ty, x) => match high {
            Seen::Typed(_, y) => Prefix::Range(Between {
                subtype: index,
                low: x,
                high: y,
            }),
            Seen::Refused(_) | Seen::Unknown | Seen::Number(_) => {
                Prefix::Value(Seen::Typed(ty, x))
            }
        },
        Seen::Refused(refusal) => {
            drop(high);
            Prefix::Value(Seen::Refused(refusal))
        }
        Seen::Unknown => {
            drop(high);
            Prefix::Value(Seen::Unknown)
        }
        Seen::Number(number) => {
            drop(high);
            Prefix::Value(Seen::Number(number))
        }
    }
}

fn static_range(
    alloc: Global,
    scope: &Scope,
    place: Place,
    index: u32,
    bounds: Bounds,
) -> Result<Prefix, Starved>
    ensures { IfOk result (λ f. f ≡ range_from (scope_of scope.now) place index (static index bounds)) }
{
    let ty = type_of(scope.world(), index);
    let low = static_bound(alloc, scope, place, true, ty, bounds)?;
    match static_bound(alloc, scope, place, false, ty, bounds) {
        Ok(high) => Ok(range_by(ty, low, high)),
        Err(error) => {
            drop(low);
            Err(error)
        }
    }
}

fn known_range(
    alloc: Global,
    scope: &Scope,
    place: Place,
    index: u32,
    bounds: Bounds,
) -> Result<Prefix, Starved>
    ensures { IfOk result (λ f. (x : Expr) → f ≡ range_from (scope_of scope.now) place index (known_bounds index bounds x)) }
{
    let low = known_bound(alloc, scope, place, true, index, bounds)?;
    match known_bound(alloc, scope, place, false, index, bounds) {
        Ok(high) => Ok(range_by(type_of(scope.world(), index), low, high)),
        Err(error) => {
            drop(low);
            Err(error)
        }
    }
}

fn upper_bound(
    alloc: Global,
    scope: &Scope,
    place: Place,
    index: u32,
    low: Seen,
    x: Expr,
) -> Result<Prefix, Starved>
    ensures { IfOk result (λ f. f ≡ range_by (type_of (scope_of scope.now).world index) low (bound_at (scope_of scope.now) place false (of_value index x))) }
{
    match value_bound(alloc, scope, place, false, index, x) {
        Ok(high) => Ok(range_by(type_of(scope.world(), index), low, high)),
        Err(error) => {
            drop(low);
            Err(error)
        }
    }
}

/// The bounds that the value of an expression has, which stands in both.
fn value_range(
    alloc: Global,
    scope: &Scope,
    place: Place,
    index: u32,
    x: Expr,
) -> Result<Prefix, Starved>
    ensures { IfOk result (λ f. f ≡ range_from (scope_of scope.now) place index (of_value index x)) }
{
    let copy = match copy_expression(alloc, &x) {
        Ok(copy) => copy,
        Err(error) => {
            drop(x);
            return Err(error);
        }
    };
    match value_bound(alloc, scope, place, true, index, x) {
        Ok(low) => upper_bound(alloc, scope, place, index, low, copy),
        Err(error) => {
            drop(copy);
            Err(error)
        }
    }
}

fn range_at(
    alloc: Global,
    scope: &Scope,
    place: Place,
    array: ArrayPrefix,
) -> Result<Prefix, Starved>
    ensures { IfOk result (λ f. f ≡ range_at (scope_of scope.now) place (bounded_as array)) }
{
    match array {
        ArrayPrefix::Static(index, bounds) => static_range(alloc, scope, place, index, bounds),
        ArrayPrefix::Known(index, bounds, x) => {
            drop(x);
            known_range(alloc, scope, place, index, bounds)
        }
        ArrayPrefix::OfValue(index, x) => value_range(alloc, scope, place, index, x),
        ArrayPrefix::NoArray => Ok(Prefix::Value(refused(Code::L19, place))),
        ArrayPrefix::Unclear(seen) => Ok(Prefix::Value(seen)),
    }
}

/// `'Range` of a prefix: `Range` where it is an array's, else a value that is refused by L19 or of which nothing is known
/// (Ada RM 3.6.2).
pub fn range_of(
    alloc: Global,
    scope: &Scope,
    place: Place,
    prefix: Prefix,
) -> Result<Prefix, Starved>
    ensures { IfOk result (λ f. f ≡ range_at (scope_of scope.now) place (bounded (scope_of scope.now) place prefix)) }
{
    match bounded(alloc, scope, place, prefix) {
        Ok(array) => range_at(alloc, scope, place, array),
        Err(error) => Err(error),
    }
}
