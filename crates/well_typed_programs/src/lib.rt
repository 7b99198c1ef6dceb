//! What the rules of types accept is well typed.
#![tactic(auto)]

mod laws;

pub use laws::{
    actuals_are_well_typed, array_attributes_are_well_typed, attributes_are_well_typed,
    conversions_are_well_typed, objects_are_well_typed, operators_are_well_typed,
    parts_are_well_typed, ranges_are_well_typed, standard_fits, values_are_well_typed,
};
