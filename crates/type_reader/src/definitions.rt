//! The definitions of types (Ada RM 3.2.1).

ghost use Rattle.std.specs.Prelude.{◌≡◌, map, IfOk};
ghost use Rattle.reading_scope.specs.Scopes.{scope_of};
ghost use Rattle.static_rules.specs.Statics.{modular_read};
ghost use Rattle.statement_typing.specs.Asked as asked;
ghost use Rattle.statement_typing.specs.Checks.{all_of};
ghost use Rattle.statement_typing.specs.declared.parts.Definition.TheVariants as definition';
ghost use Rattle.statement_typing.specs.Subtypes.{noted_subtype, part, part_subtype};
ghost use Rattle.statement_typing.specs.Types.{definition, derived_of, group, indexes, signed, signed_bound};
ghost use Rattle.syntax_view.specs.View.{bounds_of, component_of, expr, index_of, sub_ind, type_form_of};
ghost use Rattle.type_base.specs.declared.seen.Want.TheVariants as want';
ghost use Rattle.type_reader.specs.Parts.{signed_type};
ghost use Rattle.typing_rules.specs.Fits.{both, found_then, with_found};
ghost use Rattle.typing_rules.specs.Reading as reading;

use crate::Starved;
use crate::indexes::indexes;
use ada_syntax::{Bounds as Limits, Component, Expr, Index, SubInd, TypeForm};
use ada_values::Place;
use expression_reader::seen;
use front_codes::first_of_two;
use name_values::added;
use reading_scope::Scope;
use sqlite_items::Items;
use statement_typing::{Definition, Group, Indexes, Noted};
use static_rules::{
    bounds_found, derived_form, modular_form, noted_subtype, ordered, positions, signed_bound,
    signed_scalar,
};
use std::alloc::Global;
use subtype_reader::{indicated, part_subtype, place_of};
use type_base::{Code, Discrete, Want, World};
use typed_units::Bounds;
use typing_rules::Found;

// ---- integer types

/// A bound of a signed integer type.
fn bound_read(alloc: Global, scope: &Scope, e: &Expr) -> Result<Found<i128>, Starved>
    ensures { IfOk result (λ n. n ≡ part (scope_of scope.now) want'.Free (expr e.now) (signed_bound (scope_of scope.now).world (asked.place_of (scope_of scope.now) (expr e.now)))) }
{
    let seen = seen(alloc, scope, Want::Free, e)?;
    let place = place_of(scope, e);
    let found = signed_bound(scope.world(), place, &seen);
    drop(seen);
    Ok(found)
}

/// The bounds of a signed integer type.
fn signed(alloc: Global, scope: &Scope, bounds: &Limits) -> Result<Found<Bounds>, Starved>
    ensures { IfOk result (λ b. b ≡ signed (scope_of scope.now) (bounds_of bounds.now)) }
{
    let first = bound_read(alloc, scope, &bounds.low)?;
    match bound_read(alloc, scope, &bounds.high) {
        Ok(last) => {
            let place = place_of(scope, &bounds.high);
            Ok(ordered(place, bounds_found(first, last)))
        }
        Err(error) => {
            drop(first);
            Err(error)
        }
    }
}

fn signed_type(bounds: Found<Bounds>) -> Found<Definition>
    ensures { result ≡ with_found signed_type bounds }
{
    match bounds {
        Found::Refused(refusal) => Found::Refused(refusal),
        Found::Unknown => Found::Unknown,
        Found::Is(bounds) => {
            let scalar = signed_scalar(bounds);
            Found::Is(Definition::Integer(Discrete::Signed, scalar))
        }
    }
}

/// A modular type, by its modulus.
fn modular(alloc: Global, scope: &Scope, e: &Expr) -> Result<Found<Definition>, Starved>
    ensures { IfOk result (λ d. d ≡ modular_read (scope_of scope.now).world (asked.place_of (scope_of scope.now) (expr e.now)) (reading.seen (scope_of scope.now) want'.Free (expr e.now))) }
{
    let seen = seen(alloc, scope, Want::Free, e)?;
    let found = modular_form(scope.world(), place_of(scope, e), &seen);
    drop(seen);
    Ok(found)
}

// ---- composite types

fn array_of(indexes: Found<Indexes>, item: Found<Noted>) -> Found<Definition>
    ensures { result ≡ both definition'.ArrayOf indexes item }
{
    match indexes {
        Found::Refused(refusal) => match item {
            Found::Refused(other) => Found::Refused(first_of_two(refusal, other)),
            Found::Unknown | Found::Is(_) => Found::Refused(refusal),
        },
        Found::Unknown => match item {
            Found::Refused(refusal) => Found::Refused(refusal),
            Found::Unknown | Found::Is(_) => Found::Unknown,
        },
        Found::Is(indexes) => match item {
            Found::Refused(refusal) => Found::Refused(refusal),
            Found::Unknown => Found::Unknown,
            Found::Is(item) => Found::Is(Definition::ArrayOf(indexes, item)),
        },
    }
}

/// Components of a record that have one subtype. `Err` where memory was refused.
fn group(alloc: Global, scope: &Scope, component: &Component) -> Result<Found<Group>, Starved>
    ensures { IfOk result (λ g. g ≡ group (scope_of scope.now) (component_of component.now)) }
{
    match part_subtype(alloc, scope, &component.subtype)? {
        Found::Refused(refusal) => Ok(Found::Refused(refusal)),
        Found::Unknown => Ok(Found::Unknown),
        Found::Is(subtype) => {
            let names = Items::from_slice(alloc, component.names.as_slice())?;
            Ok(Found::Is(Group { names, subtype }))
        }
    }
}

/// All components of a record. `Err` where memory was refused.
fn groups(
    alloc: Global,
    scope: &Scope,
    mut components: &[Component],
) -> Result<Found<Items<Group>>, Starved>
    ensures { IfOk result (λ gs. gs ≡ all_of (map (group (scope_of scope.now)) (map component_of components.entry.now))) }
{
    let mut done = Found::Is(Items::new(alloc));
    while let [first, rest @ ..] = components {
        let next = match group(alloc, scope, first) {
            Ok(next) => next,
            Err(error) => {
                drop(done);
                return Err(error);
            }
        };
        done = added(done, next)?;
        components = rest;
    }
    Ok(done)
}

fn record_of(groups: Found<Items<Group>>) -> Found<Definition>
    ensures { result ≡ with_found definition'.RecordOf groups }
{
    match groups {
        Found::Refused(refusal) => Found::Refused(refusal),
        Found::Unknown => Found::Unknown,
        Found::Is(groups) => Found::Is(Definition::RecordOf(groups)),
    }
}

// ---- definitions

/// The type that is derived from what is found at a place.
fn derived(world: &World, place: Place, parent: Found<Noted>) -> Found<Definition>
    ensures { result ≡ found_then parent (λ n. derived_of place (noted_subtype world.now n)) }
{
    match parent {
        Found::Refused(refusal) => Found::Refused(refusal),
        Found::Unknown => Found::Unknown,
        Found::Is(noted) => match noted_subtype(world, noted) {
            None => Found::Unknown,
            Some(subtype) => derived_form(place, subtype.form),
        },
    }
}

/// The array type with this index and this item.
fn array(
    alloc: Global,
    scope: &Scope,
    index: &Index,
    item: &SubInd,
) -> Result<Found<Definition>, Starved>
    ensures { IfOk result (λ d. d ≡ both definition'.ArrayOf (indexes (scope_of scope.now) (index_of index.now)) (part_subtype (scope_of scope.now) (sub_ind item.now))) }
{
    let indexes = indexes(alloc, scope, index)?;
    match part_subtype(alloc, scope, item) {
        Ok(item) => Ok(array_of(indexes, item)),
        Err(error) => {
            drop(indexes);
            Err(error)
        }
    }
}

/// What the definition of a type gives. `Err` where memory was refused.
pub fn definition(
    alloc: Global,
    scope: &Scope,
    form: &TypeForm,
) -> Result<Found<Definition>, Starved>
    ensures { IfOk result (λ d. d ≡ definition (scope_of scope.now) (type_form_of form.now)) }
{
    match form {
        TypeForm::Range(bounds) => {
            let bounds = signed(alloc, scope, bounds)?;
            Ok(signed_type(bounds))
        }
        TypeForm::Modular(e) => modular(alloc, scope, e),
        TypeForm::Enumeration(names) => {
            Ok(Found::Is(Definition::Single(positions(names.len()))))
        }
        TypeForm::Array(index, item) => array(alloc, scope, index, item),
        TypeForm::Record(components) => {
            let groups = groups(alloc, scope, components.as_slice())?;
            Ok(record_of(groups))
        }
        TypeForm::Derived(parent) => {
            let place = scope.place(parent.name.span.from);
            let parent = indicated(alloc, scope, Code::L20, parent)?;
            Ok(derived(scope.world(), place, parent))
        }
    }
}
