//! Places, values, scalar types, shapes and the operations of the profile, with the small list types of the product.
#![tactic(auto)]

mod modular;
mod names;
mod operations;
mod place;
mod scalars;
mod shapes;
mod values;

pub use names::{ByteList, NameList, NameText, WordList};
pub use operations::{combine, operation_laws};
pub use place::Place;
pub use scalars::{INTEGER_FIRST, INTEGER_LAST, Op, OpFault, Scalar, in_scalar};
pub use shapes::{ArrayShape, Shape, ShapeIds, ShapeList, in_shape, part_laws};
pub use values::{ArrayValue, FieldList, ItemList, Value, same_value};

/// Want of memory. Where a call names no other cause, this is its only error.
pub use std::alloc::AllocError as Starved;
