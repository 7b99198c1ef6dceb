//! Shapes: what values a subtype has.

ghost use Rattle.std.specs.Prelude.{◌≡◌, ◌<◌, length, slice_get, ◌==◌, ◌&&◌};
ghost use Rattle.std.specs.Option.{option_copied};
ghost use Rattle.ada_values.specs.Parts.{ItemLaw, NewItemLaw, ComponentLaw, NewComponentLaw};
ghost use Rattle.ada_values.specs.Scalars.{in_base};
ghost use Rattle.ada_values.specs.Shapes.{range_length, bounds_fit, fits, all_fit, each_fits, in_shape};
ghost use Rattle.ada_values.specs.Value.{value, values, length_of};

use crate::scalars::{Scalar, in_scalar};
use crate::values::{ArrayValue, Value};
use sqlite_items::Items;

/// The numbers of the shapes of a record's components, in order.
pub type ShapeIds = Items<u32>;

/// The shapes of a program. A shape refers to earlier shapes only.
pub type ShapeList = Items<Shape>;

/// An array subtype: the subtype of its index, its bounds where it is constrained, and the number of its item's shape.
#[derive(Clone, Copy, Debug, PartialEq, Eq)]
pub struct ArrayShape {
    pub index: Scalar,
    pub bounds: Option<(i128, i128)>,
    pub item: u32,
}

/// What values a subtype has.
#[derive(Drop)]
pub enum Shape {
    /// Whole numbers, or the positions of an enumeration.
    Number(Scalar),
    /// `Boolean`.
    Truth,
    Array(ArrayShape),
    Record(ShapeIds),
}

/// Whether the value is one of the shape with that number in the list.
///
/// Of a constrained array the bounds are the subtype's; those of another array belong to the index subtype, or it is
/// null and they lie in the base range of the index type. A number outside the list is the number of no shape.
pub fn in_shape(shapes: &ShapeList, shape: u32, v: &Value) -> bool
    ensures { result ≡ in_shape shapes.now shape (value v.now) }
{
    fits(shapes, shapes.get(shape as usize), v)
}

/// The parts of a value that has a shape have their shapes, and a part may be replaced by another value of its shape.
pub fn part_laws()
    ensures item { ItemLaw }
    ensures new_item { NewItemLaw }
    ensures component { ComponentLaw }
    ensures new_component { NewComponentLaw }
{}

#[cycle(fits)]
fn fits(shapes: &ShapeList, shape: Option<&Shape>, v: &Value) -> bool
    ensures { result ≡ fits shapes.now (option_copied shape.entry) (value v.now) }
{
    match shape {
        None => false,
        Some(Shape::Number(s)) => match v {
            Value::Int(n) => in_scalar(s, *n),
            _ => false,
        },
        Some(Shape::Truth) => match v {
            Value::Bool(_) => true,
            _ => false,
        },
        Some(Shape::Array(a)) => match v {
            Value::Arr(array) => fits_array(shapes, a, array.first, array.last, &array.items),
            _ => false,
        },
        Some(Shape::Record(ids)) => match v {
            Value::Rec(fields) => each_fits(shapes, ids, fields),
            _ => false,
        },
    }
}

#[cycle(fits)]
fn fits_array(
    shapes: &ShapeList,
    shape: &ArrayShape,
    first: i128,
    last: i128,
    items: &Items<Value>,
) -> bool
    ensures { let item = slice_get shapes.now shape.now.item in
        let bounds = bounds_fit shape.now.bounds shape.now.index first last in
        result ≡ (bounds && (length_of (values items.now) == range_length first last) && all_fit shapes.now item (values items.now)) }
{
    has_bounds(shape, first, last, items.len()) && all_fit(shapes, shape.item, items)
}

#[cycle(fits)]
fn all_fit(shapes: &ShapeList, item: u32, items: &Items<Value>) -> bool
    ensures { result ≡ all_fit shapes.now (slice_get shapes.now item) (values items.now) }
{
    let shape = shapes.get(item as usize);
    for v in items.as_slice() {
        if !fits(shapes, shape, v) {
            return false;
        }
    }
    true
}

#[cycle(fits)]
fn each_fits(shapes: &ShapeList, ids: &ShapeIds, fields: &Items<Value>) -> bool
    ensures { result ≡ each_fits shapes.now ids.now (values fields.now) }
{
    if ids.len() != fields.len() {
        return false;
    }
    for i in 0..ids.len() {
        let shape = shapes.get(ids.as_slice()[i] as usize);
        if !fits(shapes, shape, &fields.as_slice()[i]) {
            return false;
        }
    }
    true
}

// Whether an array with these bounds and that many items may belong to the subtype.
fn has_bounds(shape: &ArrayShape, first: i128, last: i128, length: usize) -> bool
    ensures { result ≡ (bounds_fit shape.now.bounds shape.now.index first last && (length == range_length first last)) }
{
    bounds_fit(shape, first, last) && has_length(first, last, length)
}

// Whether an array with these bounds may belong to the subtype.
fn bounds_fit(shape: &ArrayShape, first: i128, last: i128) -> bool
    ensures { result ≡ bounds_fit shape.now.bounds shape.now.index first last }
{
    let index = &shape.index;
    match shape.bounds {
        Some((lo, hi)) => first == lo && last == hi,
        None => {
            in_scalar(index, first) && in_scalar(index, last)
                || last < first && in_base(index, first) && in_base(index, last)
        }
    }
}

fn in_base(s: &Scalar, v: i128) -> bool
    ensures { result ≡ in_base s.now v }
{
    s.base_lo <= v && v <= s.base_hi
}

// Whether the range has that many indexes.
fn has_length(first: i128, last: i128, length: usize) -> bool
    ensures { result ≡ (length == range_length first last) }
{
    if last < first {
        length == 0
    } else {
        0 < length && last.abs_diff(first) == (length - 1) as u128
    }
}
