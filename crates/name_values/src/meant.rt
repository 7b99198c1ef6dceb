//! What a name is by the entity that it stands for.

ghost use Rattle.std.specs.Prelude.{◌≡◌, IfOk, Some};
ghost use Rattle.reading_scope.specs.Scopes.{scope_of};
ghost use Rattle.type_base.specs.Lookups.{constant_at, type_at};
ghost use Rattle.typing_rules.specs.Values.{constant_by, entity_prefix, object_by};

use crate::lookups::{scalar_value, seen_as, type_of};
use ada_values::{Place, Value};
use reading_scope::Scope;
use sqlite_items::Items;
use std::alloc::Global;
use type_base::{Access, Entity, Seen, Starved, World, made};
use typed_units::{ExprNode, Object, Target};
use typing_rules::{Part, Prefix};

fn constant_by(
    alloc: Global,
    place: Place,
    subtype: u32,
    value: Value,
    ty: Option<u32>,
) -> Result<Prefix, Starved>
    ensures { IfOk result (λ f. f ≡ constant_by place subtype (Some value) ty) }
{
    match ty {
        Some(ty) => match made(alloc, place, subtype, ExprNode::Static(value)) {
            Ok(x) => Ok(Prefix::Constant(ty, x)),
            Err(error) => Err(error),
        },
        None => {
            drop(value);
            Ok(Prefix::Value(Seen::Unknown))
        }
    }
}

/// A package's constant of a composite subtype, by the number of its value.
fn composite(
    alloc: Global,
    world: &World,
    place: Place,
    subtype: u32,
    number: u32,
) -> Result<Prefix, Starved>
    ensures { IfOk result (λ f. f ≡ constant_by place subtype (constant_at world.now number) (type_at world.now subtype)) }
{
    match world.constant(number) {
        Some(value) => match value.copy(alloc) {
            Ok(value) => constant_by(alloc, place, subtype, value, world.type_of(subtype)),
            Err(error) => Err(error),
        },
        None => Ok(Prefix::Value(Seen::Unknown)),
    }
}

fn object_by(
    alloc: Global,
    place: Place,
    subtype: u32,
    object: Object,
    access: Access,
    ty: Option<u32>,
) -> Prefix
    ensures { result ≡ object_by place subtype object access ty }
{
    match ty {
        Some(_) => Prefix::Part(Part {
            access,
            whole: subtype,
            subtype,
            target: Target {
                place,
                object,
                path: Items::new(alloc),
            },
        }),
        None => Prefix::Value(Seen::Unknown),
    }
}

/// What a name at a place is that stands for an entity. `Err` where memory was refused.
pub fn entity_prefix(
    alloc: Global,
    scope: &Scope,
    place: Place,
    entity: Entity,
) -> Result<Prefix, Starved>
    ensures { IfOk result (λ f. f ≡ entity_prefix (scope_of scope.now) place entity) }
{
    let world = scope.world();
    match entity {
        Entity::Unknown => Ok(Prefix::Value(Seen::Unknown)),
        Entity::Package => Ok(Prefix::Package),
        Entity::Subtype(subtype) => Ok(Prefix::Subtype(subtype)),
        Entity::Routine(routine) => Ok(Prefix::Routine(routine)),
        Entity::Number(number) => Ok(Prefix::Value(Seen::Number(number))),
        Entity::Literal(subtype, number) => {
            let node = ExprNode::Static(scalar_value(subtype, number));
            match seen_as(alloc, scope, place, subtype, node) {
                Ok(seen) => Ok(Prefix::Value(seen)),
                Err(error) => Err(error),
            }
        }
        Entity::Static(subtype, number) => {
            let value = scalar_value(type_of(world, subtype), number);
            constant_by(alloc, place, subtype, value, world.type_of(subtype))
        }
        Entity::Constant(subtype, number) => composite(alloc, world, place, subtype, number),
        Entity::Object(subtype, object, access) => {
            let ty = world.type_of(subtype);
            Ok(object_by(alloc, place, subtype, object, access, ty))
        }
    }
}
