//! The shapes that cases name.

use ada_values::{
    ArrayShape, INTEGER_FIRST, INTEGER_LAST, Scalar, Shape, ShapeIds, ShapeList, Starved,
};
use std::alloc::Global;

/// Integers from 1 to 10.
const INDEX: Scalar = Scalar {
    lo: 1,
    hi: 10,
    base_lo: INTEGER_FIRST,
    base_hi: INTEGER_LAST,
    modulus: None,
};

/// Arrays over the index of integers from 1 to 10.
fn array_of(bounds: Option<(i128, i128)>) -> Shape {
    Shape::Array(ArrayShape {
        index: INDEX,
        bounds,
        item: 0,
    })
}

/// The shapes, from 0: integers from 1 to 10; arrays of these over an index of these, with any bounds and with the bounds 1
/// and 2; a truth value; and a record of an integer from 1 to 10 and a truth value.
pub fn shapes(alloc: Global) -> Result<ShapeList, Starved> {
    let mut list = ShapeList::new(alloc);
    list.push(Shape::Number(INDEX))?;
    list.push(array_of(None))?;
    list.push(array_of(Some((1, 2))))?;
    list.push(Shape::Truth)?;
    let ids = ShapeIds::from_slice(alloc, &[0, 3])?;
    list.push(Shape::Record(ids))?;
    Ok(list)
}
