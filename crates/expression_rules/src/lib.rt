//! What operators demand of their operands, and what they give (Ada RM 4.5, 4.9).
#![tactic(auto)]

mod families;
mod laws;
mod operators;
mod powers;
mod results;
mod statics;

pub use families::{demand_of, family_of, rule_of};
pub use laws::{accepted_have_types, known_where_declared};
pub use operators::{Places, joined, unary_of};
pub use results::moved;
pub use statics::{number_in, static_result, static_truth, truth_at, truth_in, universal_result};
pub use type_base::Starved;
