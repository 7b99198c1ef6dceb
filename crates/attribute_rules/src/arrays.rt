//! What arrays an attribute may be of.

ghost use Rattle.std.specs.Prelude.{◌≡◌, IfOk, Some};
ghost use Rattle.attribute_rules.specs.Arrays.{bounded_as, is_whole};
ghost use Rattle.reading_scope.specs.Scopes.{scope_of};
ghost use Rattle.typing_rules.specs.Attributes.{bounded, bounded_by, bounds_static, constant_bounded, only_components, part_bounded, subtype_bounded, value_bounded, value_bounded_by};
ghost use Rattle.typing_rules.specs.Lookups.{array_at, array_in};
ghost use Rattle.typing_rules.specs.Values.{part_value, value_of};

use ada_values::Place;
use name_values::{part_value, value_of};
use reading_scope::Scope;
use std::alloc::Global;
use type_base::{Form, Seen, Starved, World};
use typed_units::{Bounds, Expr, Step};
use typing_rules::{Part, Prefix};

/// An array as the prefix of an attribute, by the number of its index subtype.
#[derive(Drop)]
pub(crate) enum ArrayPrefix {
    /// A subtype, an object or a constant, whose bounds are static (Ada RM 4.9).
    Static(u32, Bounds),
    /// A component of an object: its bounds are known, and it isn't read.
    Known(u32, Bounds, Expr),
    /// The bounds are those that the expression has.
    OfValue(u32, Expr),
    /// An unconstrained subtype, and what is no array.
    NoArray,
    /// A value that is refused, or of which nothing is known.
    Unclear(Seen),
}

pub(crate) fn subtype_bounded(form: Option<Form>) -> ArrayPrefix
    ensures { bounded_as result ≡ subtype_bounded form }
{
    match form {
        None => ArrayPrefix::Unclear(Seen::Unknown),
        Some(
            Form::Array {
                index,
                bounds: Some(bounds),
                ..
            },
        ) => ArrayPrefix::Static(index, bounds),
        Some(_) => ArrayPrefix::NoArray,
    }
}

fn constant_bounded(x: Expr, form: Option<Form>) -> ArrayPrefix
    ensures { bounded_as result ≡ constant_bounded x (array_in form) }
{
    match form {
        Some(
            Form::Array {
                index,
                bounds: Some(bounds),
                ..
            },
        ) => {
            drop(x);
            ArrayPrefix::Static(index, bounds)
        }
        Some(Form::Array { index, .. }) => ArrayPrefix::OfValue(index, x),
        _ => {
            drop(x);
            ArrayPrefix::NoArray
        }
    }
}

fn only_components(mut path: &[Step<Expr>]) -> bool
    ensures { result ≡ only_components path.entry.now }
{
    while let [step, rest @ ..] = path {
        if let Step::Item(_, _) = step {
            return false;
        }
        path = rest;
    }
    true
}

fn is_whole(path: &[Step<Expr>]) -> bool
    ensures { result ≡ is_whole path.now }
{
    match path {
        [] => true,
        [_, ..] => false,
    }
}

#[tactic(auto, using(crate::proofs::Paths::by_path))]
fn constrained_part(
    alloc: Global,
    world: &World,
    part: Part,
    index: u32,
    bounds: Bounds,
) -> Result<ArrayPrefix, Starved>
    ensures { IfOk result (λ b. bounded_as b ≡ bounded_by (part_value world.now part) index (Some bounds) part.target.path) }
{
    if is_whole(part.target.path.as_slice()) {
        drop(part);
        return Ok(ArrayPrefix::Static(index, bounds));
    }
    let is_known = only_components(part.target.path.as_slice());
    match part_value(alloc, world, part) {
        Ok(x) => {
            if is_known {
                Ok(ArrayPrefix::Known(index, bounds, x))
            } else {
                Ok(ArrayPrefix::OfValue(index, x))
            }
        }
        Err(error) => Err(error),
    }
}

fn part_bounded(alloc: Global, world: &World, part: Part) -> Result<ArrayPrefix, Starved>
    ensures { IfOk result (λ b. bounded_as b ≡ part_bounded world.now part (array_at world.now part.subtype)) }
{
    match world.form(part.subtype) {
        Some(
            Form::Array {
                index,
                bounds: Some(bounds),
                ..
            },
        ) => constrained_part(alloc, world, part, index, bounds),
        Some(Form::Array { index, .. }) => match part_value(alloc, world, part) {
            Ok(x) => Ok(ArrayPrefix::OfValue(index, x)),
            Err(error) => Err(error),
        },
        _ => {
            drop(part);
            Ok(ArrayPrefix::NoArray)
        }
    }
}

fn value_bounded_by(x: Expr, form: Option<Form>) -> ArrayPrefix
    ensures { bounded_as result ≡ value_bounded_by x (array_in form) }
{
    match form {
        Some(Form::Array { index, .. }) => ArrayPrefix::OfValue(index, x),
        _ => {
            drop(x);
            ArrayPrefix::NoArray
        }
    }
}

fn value_bounded(world: &World, seen: Seen) -> ArrayPrefix
    ensures { bounded_as result ≡ value_bounded world.now seen }
{
    match seen {
        Seen::Number(_) => ArrayPrefix::NoArray,
        Seen::Typed(_, x) => {
            let form = world.form(x.subtype);
            value_bounded_by(x, form)
        }
        Seen::Refused(refusal) => ArrayPrefix::Unclear(Seen::Refused(refusal)),
        Seen::Unknown => ArrayPrefix::Unclear(Seen::Unknown),
    }
}

/// The array that the value of a prefix is.
fn other_bounded(
    alloc: Global,
    scope: &Scope,
    place: Place,
    prefix: Prefix,
) -> Result<ArrayPrefix, Starved>
    ensures { IfOk result (λ b. bounded_as b ≡ value_bounded (scope_of scope.now).world (value_of (scope_of scope.now) place prefix)) }
{
    match value_of(alloc, scope, place, prefix) {
        Ok(seen) => Ok(value_bounded(scope.world(), seen)),
        Err(error) => Err(error),
    }
}

/// The array that a prefix is.
pub(crate) fn bounded(
    alloc: Global,
    scope: &Scope,
    place: Place,
    prefix: Prefix,
) -> Result<ArrayPrefix, Starved>
    ensures { IfOk result (λ b. bounded_as b ≡ bounded (scope_of scope.now) place prefix) }
{
    match prefix {
        Prefix::Subtype(subtype) => Ok(subtype_bounded(scope.world().form(subtype))),
        Prefix::Constant(_, x) => {
            let form = scope.world().form(x.subtype);
            Ok(constant_bounded(x, form))
        }
        Prefix::Part(part) => part_bounded(alloc, scope.world(), part),
        Prefix::Package => other_bounded(alloc, scope, place, Prefix::Package),
        Prefix::Routine(routine) => other_bounded(alloc, scope, place, Prefix::Routine(routine)),
        Prefix::Called(routine, arguments) => {
            other_bounded(alloc, scope, place, Prefix::Called(routine, arguments))
        }
        Prefix::Mapping(mapping, tick, subtype) => {
            other_bounded(alloc, scope, place, Prefix::Mapping(mapping, tick, subtype))
        }
        Prefix::Range(range) => other_bounded(alloc, scope, place, Prefix::Range(range)),
        Prefix::Value(seen) => other_bounded(alloc, scope, place, Prefix::Value(seen)),
    }
}
