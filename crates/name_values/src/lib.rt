//! What names stand for, and the values that they are (Ada RM 4.1, 6.4).
#![tactic(auto)]

mod found;
mod lookups;
mod meant;
mod steps;
mod types;
mod values;

pub use found::{added, beside, found_fault, no_arguments, no_function, refused_beside, spoiled};
pub use lookups::{
    component_subtype, components_at, entity_by, entity_of, formals_of, place_among, scalar_value,
    seen_as, type_of,
};
pub use meant::entity_prefix;
pub use steps::part_value;
pub use type_base::Starved;
pub use types::{of_type, typed_as};
pub use values::{call_value, prefix_fault, value_of};
