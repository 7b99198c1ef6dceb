//! The values of objects and of parts of them.

ghost use Rattle.std.specs.Prelude.{◌≡◌, IfOk};
ghost use Rattle.typing_rules.specs.Lookups.{array_at};
ghost use Rattle.typing_rules.specs.Values.{item_subtype, part_of, part_value, step_subtype, stepped};

use crate::lookups::{component_subtype, components_at};
use ada_values::Place;
use sqlite_items::Items;
use std::alloc::Global;
use type_base::{Form, Starved, World, made};
use typed_units::{Expr, ExprNode, Step, Target};
use typing_rules::Part;

fn item_subtype(world: &World, subtype: u32) -> u32
    ensures { result ≡ item_subtype (array_at world.now subtype) }
{
    match world.form(subtype) {
        Some(Form::Array { item, .. }) => item,
        _ => 0,
    }
}

/// The number of the subtype of a part of what has this subtype.
fn step_subtype(world: &World, subtype: u32, step: &Step<Expr>) -> u32
    ensures { result ≡ step_subtype world.now subtype step.now }
{
    match step {
        Step::Component(number, _) => match components_at(world, subtype) {
            Some(components) => component_subtype(components, *number),
            None => 0,
        },
        Step::Item(_, _) => item_subtype(world, subtype),
    }
}

fn stepped(
    alloc: Global,
    place: Place,
    subtype: u32,
    x: Expr,
    step: Step<Expr>,
) -> Result<Expr, Starved>
    ensures { IfOk result (λ y. y ≡ stepped place subtype x step) }
{
    match step {
        Step::Component(number, _) => {
            made(alloc, place, subtype, ExprNode::Component(x, number))
        }
        Step::Item(_, index) => made(alloc, place, subtype, ExprNode::Item(x, index)),
    }
}

/// The part of an expression of this subtype that the steps lead to.
fn part_of(
    alloc: Global,
    world: &World,
    place: Place,
    mut subtype: u32,
    mut x: Expr,
    mut path: Items<Step<Expr>>,
) -> Result<Expr, Starved>
    ensures { IfOk result (λ y. y ≡ part_of world.now place subtype x path) }
{
    while !path.is_empty() {
        let step = path.remove(0);
        subtype = step_subtype(world, subtype, &step);
        x = match stepped(alloc, place, subtype, x, step) {
            Ok(x) => x,
            Err(error) => {
                drop(path);
                return Err(error);
            }
        };
    }
    drop(path);
    Ok(x)
}

/// The value of an object or of a part of it. `Err` where memory was refused.
pub fn part_value(alloc: Global, world: &World, part: Part) -> Result<Expr, Starved>
    ensures { IfOk result (λ x. x ≡ part_value world.now part) }
{
    let Part {
        access: _,
        whole,
        subtype: _,
        target,
    } = part;
    let Target {
        place,
        object,
        path,
    } = target;
    match made(alloc, place, whole, ExprNode::Read(place, object)) {
        Ok(x) => part_of(alloc, world, place, whole, x, path),
        Err(error) => {
            drop(path);
            Err(error)
        }
    }
}
