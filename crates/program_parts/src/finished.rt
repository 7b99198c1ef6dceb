//! The typed program.

ghost use Rattle.std.specs.Prelude.{◌≡◌, ◌++◌, ◌≤◌, ◌^◌, ◌+◌, IfOk, OnOk, map};
ghost use Rattle.program_parts.specs.Finished.{listed_from, type_named};
ghost use Rattle.statement_typing.specs.Units as units;

use crate::Starved;
use ada_values::{ArrayShape, NameText, Scalar, Shape};
use sqlite_items::Items;
use statement_typing::{Draft, Subs};
use std::alloc::{AllocError, Global};
use type_base::{Component, Discrete, Form, Subtype, Subtypes, World};
use typed_units::{Bounds, Class, Program, Type};

/// The subtype Integer.
const INTEGER: Scalar = Scalar {
    lo: -2147483648,
    hi: 2147483647,
    base_lo: -2147483648,
    base_hi: 2147483647,
    modulus: None,
};

fn scalar_in(form: Option<Form>) -> Scalar
    ensures { result ≡ units.scalar_in form }
{
    match form {
        Some(Form::Number(_, scalar)) => scalar,
        _ => INTEGER,
    }
}

fn pair_of(bounds: Option<Bounds>) -> Option<(i128, i128)>
    ensures { result ≡ units.pair_of bounds }
{
    match bounds {
        None => None,
        Some(bounds) => Some((bounds.first, bounds.last)),
    }
}

fn subtype_of_component(component: Option<Component>) -> u32
    ensures { result ≡ units.subtype_of_component component }
{
    match component {
        None => 0,
        Some(component) => component.subtype,
    }
}

/// The subtypes of so many components, from one on.
fn components_from(
    alloc: Global,
    components: &[Component],
    first: u32,
    count: u32,
) -> Result<Items<u32>, Starved>
    ensures { IfOk result (λ found. found ≡ listed_from components.now first count) }
{
    let mut found = Items::new(alloc);
    let mut at = first as usize;
    let mut left = count;
    while left > 0 {
        let component = sqlite_items::at(components, at).copied();
        found.push(subtype_of_component(component))?;
        at += 1;
        left -= 1;
    }
    Ok(found)
}

/// The values of a subtype of this form. `Err` where memory was refused.
#[tactic(auto, using(crate::proofs::Listed::listed_is))]
fn shape_of(alloc: Global, world: &World, form: Form) -> Result<Shape, Starved>
    ensures { IfOk result (λ shape. shape ≡ units.shape_of world.now form) }
{
    match form {
        Form::Number(_, scalar) => Ok(Shape::Number(scalar)),
        Form::Truth => Ok(Shape::Truth),
        Form::Array {
            index,
            bounds,
            item,
        } => Ok(Shape::Array(ArrayShape {
            index: scalar_in(world.form(index)),
            bounds: pair_of(bounds),
            item,
        })),
        Form::Record { first, count } => {
            let components = components_from(alloc, world.components.as_slice(), first, count)?;
            Ok(Shape::Record(components))
        }
    }
}

fn class_of_discrete(class: Discrete) -> Class
    ensures { result ≡ units.class_of_discrete class }
{
    match class {
        Discrete::Signed => Class::Signed,
        Discrete::Modular => Class::Modular,
        Discrete::Enumeration => Class::Enumeration,
    }
}

fn class_of(form: Form) -> Class
    ensures { result ≡ units.class_of form }
{
    match form {
        Form::Number(class, _) => class_of_discrete(class),
        Form::Truth => Class::Boolean,
        Form::Array { index, .. } => Class::Array(index),
        Form::Record { .. } => Class::Record,
    }
}

/// The values of all subtypes. `Err` where memory was refused, as it is for 2^32 subtypes or more.
#[tactic(auto, using(crate::proofs::Dropped::one_mapped, crate::proofs::Dropped::no_more, crate::proofs::Dropped::past))]
fn shapes(alloc: Global, world: &World) -> Result<Items<Shape>, Starved>
    ensures { IfOk result (λ found. found ≡ map (λ s. units.shape_of world.now s.form) world.now.subtypes) }
{
    let Ok(count) = u32::try_from(world.subtypes.len()) else {
        return Err(AllocError);
    };
    let mut found = Items::new(alloc);
    let mut number = 0;
    while number < count {
        let Some(subtype) = world.subtype(number) else {
            return Ok(found);
        };
        found.push(shape_of(alloc, world, subtype.form)?)?;
        number += 1;
    }
    Ok(found)
}

fn copied(alloc: Global, name: &Option<NameText>) -> Result<Option<NameText>, Starved>
    ensures { IfOk result (λ copy. copy ≡ name.now) }
{
    match name {
        None => Ok(None),
        Some(name) => {
            let copy = name.copy(alloc)?;
            Ok(Some(copy))
        }
    }
}

fn type_named(alloc: Global, name: &Option<NameText>, subtype: Subtype) -> Result<Type, Starved>
    ensures { IfOk result (λ ty. ty ≡ type_named name.now subtype) }
{
    let name = copied(alloc, name)?;
    Ok(Type {
        name,
        of: subtype.of,
        class: class_of(subtype.form),
    })
}

/// The names and classes of all subtypes. `Err` where memory was refused, as it is for 2^32 subtypes or more.
#[tactic(auto, using(crate::proofs::Dropped::one_type, crate::proofs::Dropped::no_name, crate::proofs::Dropped::no_subtype, crate::proofs::Dropped::past_names))]
fn types(
    alloc: Global,
    names: &[Option<NameText>],
    subtypes: &Subtypes,
) -> Result<Items<Type>, Starved>
    ensures { IfOk result (λ found. found ≡ units.types_of names.now subtypes.now) }
{
    let Ok(count) = u32::try_from(names.len()) else {
        return Err(AllocError);
    };
    let mut found = Items::new(alloc);
    let mut number = 0;
    while number < count {
        let Some(name) = sqlite_items::at(names, number as usize) else {
            return Ok(found);
        };
        let Some(subtype) = subtypes.get(number) else {
            return Ok(found);
        };
        found.push(type_named(alloc, name, subtype)?)?;
        number += 1;
    }
    Ok(found)
}

/// The typed program. `Err` where memory was refused.
pub fn program_of(alloc: Global, draft: Draft) -> Result<Program, Starved>
    ensures { IfOk result (λ program. program ≡ units.program_of draft) }
{
    let mut draft = draft;
    let shapes = shapes(alloc, &draft.world)?;
    let types = types(alloc, draft.names.as_slice(), &draft.world.subtypes)?;
    let globals = std::mem::replace(&mut draft.globals, Items::new(alloc));
    let subs = std::mem::replace(&mut draft.subs, Subs::new(alloc));
    drop(draft);
    Ok(Program {
        shapes,
        types,
        globals,
        subs: subs.into_items(),
    })
}
