//! Names with selectors (Ada RM 4.1.3).

ghost use Rattle.std.specs.Prelude.{◌≡◌, ◌≤◌, IfOk, Some, length};
ghost use Rattle.reading_scope.specs.Scopes.{scope_of};
ghost use Rattle.typing_rules.specs.declared.prefix.Prefix.TheVariants as prefix;
ghost use Rattle.typing_rules.specs.Lookups.{components_at, entity_by};
ghost use Rattle.typing_rules.specs.Names.{component, component_of, component_part, part_component, record_component, selection, unless_refused, value_component};
ghost use Rattle.typing_rules.specs.Values.{entity_prefix, prefix_fault};
ghost use Rattle.prefix_rules.specs.Parts.{further};

use ada_values::Place;
use name_library::Link;
use name_values::{
    component_subtype, components_at, entity_by, entity_prefix, place_among, prefix_fault, seen_as,
    value_of,
};
use reading_scope::Scope;
use std::alloc::Global;
use type_base::{Code, Component, Seen, Starved, World, refused};
use typed_units::{Expr, ExprNode, Step, Target};
use typing_rules::{Part, Prefix};

/// The part of a part that one more step leads to, with the number of its subtype.
pub(crate) fn further(part: Part, subtype: u32, step: Step<Expr>) -> Result<Prefix, Starved>
    ensures { IfOk result (λ f. f ≡ prefix.Part (further part subtype step)) }
{
    let Part {
        access,
        whole,
        subtype: _,
        target,
    } = part;
    let Target {
        place,
        object,
        mut path,
    } = target;
    match path.push(step) {
        Ok(()) => Ok(Prefix::Part(Part {
            access,
            whole,
            subtype,
            target: Target {
                place,
                object,
                path,
            },
        })),
        Err(error) => {
            drop(path);
            Err(error)
        }
    }
}

fn component_part(
    place: Place,
    part: Part,
    components: &[Component],
    number: Option<u32>,
) -> Result<Prefix, Starved>
    requires { length components.now ≤ 4294967295 }
    ensures { IfOk result (λ f. f ≡ component_part place part components.now number) }
{
    match number {
        Some(number) => {
            let subtype = component_subtype(components, number);
            let step = Step::Component(number, components.len() as u32);
            further(part, subtype, step)
        }
        None => {
            drop(part);
            Ok(Prefix::Value(refused(Code::L15, place)))
        }
    }
}

fn part_component(world: &World, place: Place, name: u32, part: Part) -> Result<Prefix, Starved>
    ensures { IfOk result (λ f. f ≡ part_component place name part (components_at world.now part.subtype)) }
{
    match components_at(world, part.subtype) {
        Some(components) => {
            component_part(place, part, components, place_among(components, name))
        }
        None => {
            drop(part);
            Ok(Prefix::Value(refused(Code::L15, place)))
        }
    }
}

fn component_of(
    alloc: Global,
    scope: &Scope,
    place: Place,
    x: Expr,
    components: &[Component],
    number: Option<u32>,
) -> Result<Seen, Starved>
    ensures { IfOk result (λ s. s ≡ component_of (scope_of scope.now) place x components.now number) }
{
    match number {
        Some(number) => {
            let subtype = component_subtype(components, number);
            seen_as(alloc, scope, place, subtype, ExprNode::Component(x, number))
        }
        None => {
            drop(x);
            Ok(refused(Code::L15, place))
        }
    }
}

fn record_component(
    alloc: Global,
    scope: &Scope,
    place: Place,
    name: u32,
    x: Expr,
    subtype: u32,
) -> Result<Seen, Starved>
    ensures { IfOk result (λ s. s ≡ record_component (scope_of scope.now) place name x (components_at (scope_of scope.now).world subtype)) }
{
    match components_at(scope.world(), subtype) {
        Some(components) => {
            let number = place_among(components, name);
            component_of(alloc, scope, place, x, components, number)
        }
        None => {
            drop(x);
            Ok(refused(Code::L15, place))
        }
    }
}

fn value_component(
    alloc: Global,
    scope: &Scope,
    place: Place,
    name: u32,
    seen: Seen,
) -> Result<Prefix, Starved>
    ensures { IfOk result (λ f. f ≡ prefix.Value (value_component (scope_of scope.now) place name seen)) }
{
    match seen {
        Seen::Refused(refusal) => Ok(Prefix::Value(Seen::Refused(refusal))),
        Seen::Unknown => Ok(Prefix::Value(Seen::Unknown)),
        Seen::Number(_) => Ok(Prefix::Value(refused(Code::L15, place))),
        Seen::Typed(_, x) => {
            let subtype = x.subtype;
            match record_component(alloc, scope, place, name, x, subtype) {
                Ok(seen) => Ok(Prefix::Value(seen)),
                Err(error) => Err(error),
            }
        }
    }
}

/// A name with the component of a name.
fn component(
    alloc: Global,
    scope: &Scope,
    place: Place,
    name: u32,
    prefix: Prefix,
) -> Result<Prefix, Starved>
    ensures { IfOk result (λ f. f ≡ component (scope_of scope.now) place name prefix) }
{
    match prefix {
        Prefix::Part(part) => part_component(scope.world(), place, name, part),
        other => match value_of(alloc, scope, place, other) {
            Ok(seen) => value_component(alloc, scope, place, name, seen),
            Err(error) => Err(error),
        },
    }
}

/// What an identifier with a link stands for, after a name; what is refused in that comes first.
fn anew(
    alloc: Global,
    scope: &Scope,
    place: Place,
    prefix: Prefix,
    link: Link,
) -> Result<Prefix, Starved>
    ensures { IfOk result (λ f. f ≡ unless_refused (prefix_fault prefix) (entity_prefix (scope_of scope.now) place (entity_by (scope_of scope.now) (Some link)))) }
{
    let fault = prefix_fault(&prefix);
    drop(prefix);
    match fault {
        Some(refusal) => Ok(Prefix::Value(Seen::Refused(refusal))),
        None => entity_prefix(alloc, scope, place, entity_by(scope, Some(link))),
    }
}

/// A name at a place with the selector that begins at a byte. One that has a link stands for its entity, whatever the name
/// before it is; another names a component, and is `Refused` by L15 where there is none. `Err` where memory was refused.
pub fn selection(
    alloc: Global,
    scope: &Scope,
    place: Place,
    prefix: Prefix,
    at: u32,
) -> Result<Prefix, Starved>
    ensures { IfOk result (λ f. f ≡ selection (scope_of scope.now) place prefix at) }
{
    match scope.link(at) {
        Some(link) => anew(alloc, scope, place, prefix, link),
        None => component(alloc, scope, place, scope.name(at), prefix),
    }
}
