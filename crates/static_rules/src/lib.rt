//! What declarations demand of static values, bounds and subtypes, over what has been read of their parts (Ada RM 3.2.2, 3.4, 3.5, 3.6).
#![tactic(auto)]

mod bounds;
mod forms;
mod marks;
mod noted;
mod numbers;
mod ranges;

pub use bounds::{bound_in, bounds_found, in_order, indexes_in, ordered, signed_bound};
pub use forms::{derived_form, modular_form, modulus, positions, signed_scalar};
pub use marks::{Mark, mark_of};
pub use noted::{bounded, is_constrained, named_subtype, narrowed, noted_subtype, whole_of};
pub use numbers::{integer_number, static_in, static_number, value_of_type};
pub use ranges::{bounds_for, static_range_of, type_want};
