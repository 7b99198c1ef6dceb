//! What stands in a scope.

ghost use Rattle.std.specs.Prelude.{◌≡◌, ◌≤◌, IfOk, IfSome, Some, length};
ghost use Rattle.std.specs.Option.{option_copied};
ghost use Rattle.reading_scope.specs.Scopes.{scope_of};
ghost use Rattle.typing_rules.specs.Lookups.{components_at, entity_by, entity_of, declared_at, place_among, scalar_value, seen_as, type_of};
ghost use Rattle.typing_rules.specs.Values.{component_subtype, formals_of};

use ada_values::{Place, Value};
use name_kinds::part_of;
use name_library::{Link, Spot};
use reading_scope::Scope;
use sqlite_items::at;
use std::alloc::Global;
use type_base::{
    Access, BOOLEAN, Component, Entity, Form, Formal, Parameter, Routine, Seen, Starved, World,
    made,
};
use typed_units::{Expr, ExprNode};

/// What the declaring identifier at a place stands for, first among these parameters and indexes.
fn declared_at(world: &World, mut parameters: &[Parameter], spot: Spot) -> Entity
    ensures { result ≡ declared_at world.now parameters.entry.now spot }
{
    while let [first, rest @ ..] = parameters {
        if first.spot.file == spot.file && first.spot.at == spot.at {
            return Entity::Object(first.subtype, first.object, Access::LoopParameter);
        }
        parameters = rest;
    }
    world.linked(Link::Declared(spot))
}

/// What an identifier of this link stands for; `Unknown` where it has none.
pub fn entity_by(scope: &Scope, link: Option<Link>) -> Entity
    ensures { result ≡ entity_by (scope_of scope.now) link }
{
    match link {
        Some(Link::Declared(spot)) => declared_at(scope.world(), scope.parameters, spot),
        Some(Link::Predefined(number)) => scope.world().linked(Link::Predefined(number)),
        None => Entity::Unknown,
    }
}

/// What the identifier at a byte stands for.
pub fn entity_of(scope: &Scope, at: u32) -> Entity
    ensures { result ≡ entity_of (scope_of scope.now) at }
{
    entity_by(scope, scope.link(at))
}

/// The number of the type of a subtype that the world has; 0 of another.
pub fn type_of(world: &World, subtype: u32) -> u32
    ensures { result ≡ type_of world.now subtype }
{
    match world.type_of(subtype) {
        Some(ty) => ty,
        None => 0,
    }
}

/// The components of a record subtype.
pub fn components_at(world: &World, subtype: u32) -> Option<&[Component]>
    ensures value { option_copied result ≡ components_at world.now subtype }
    ensures few { IfSome result (λ components. length components.now ≤ 4294967295) }
{
    match world.form(subtype) {
        Some(Form::Record { first, count }) => {
            Some(part_of(world.components.as_slice(), first, count))
        }
        _ => None,
    }
}

/// The number of the component of a name among these.
pub fn place_among(mut components: &[Component], name: u32) -> Option<u32>
    requires { length components.now ≤ 4294967295 }
    ensures { result ≡ place_among components.entry.now name 0 }
{
    let mut place = 0;
    while let [first, rest @ ..] = components {
        if first.name == name {
            return Some(place);
        }
        components = rest;
        place += 1;
    }
    None
}

/// The number of the subtype of a component, by the component's number among these; 0 where there is none.
#[tactic(auto, using(crate::proofs::Components::numbered))]
pub fn component_subtype(components: &[Component], number: u32) -> u32
    ensures { result ≡ component_subtype (Some components.now) number }
{
    match at(components, number as usize) {
        Some(component) => component.subtype,
        None => 0,
    }
}

/// The formals of a subprogram.
pub fn formals_of(world: &World, routine: Routine) -> &[Formal]
    ensures value { result.now ≡ formals_of world.now routine }
    ensures few { length result.now ≤ 4294967295 }
{
    part_of(world.formals.as_slice(), routine.first, routine.count)
}

/// The value of a scalar type by its number or position; Boolean's are truth values.
pub fn scalar_value(ty: u32, number: i128) -> Value
    ensures { result ≡ scalar_value ty number }
{
    if ty == BOOLEAN {
        Value::Bool(number != 0)
    } else {
        Value::Int(number)
    }
}

/// An expression of a subtype at a place; `Unknown` where the world doesn't have the subtype.
pub fn seen_as(
    alloc: Global,
    scope: &Scope,
    place: Place,
    subtype: u32,
    node: ExprNode<Expr>,
) -> Result<Seen, Starved>
    ensures { IfOk result (λ s. s ≡ seen_as (scope_of scope.now) place subtype node) }
{
    match scope.world().type_of(subtype) {
        Some(ty) => match made(alloc, place, subtype, node) {
            Ok(x) => Ok(Seen::Typed(ty, x)),
            Err(error) => Err(error),
        },
        None => {
            drop(node);
            Ok(Seen::Unknown)
        }
    }
}
