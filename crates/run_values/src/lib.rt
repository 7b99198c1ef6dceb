//! The values of a run, and what the operators make of them, with their checks.
#![tactic(auto)]

mod aggregates;
mod arrays;
mod checks;
mod operators;
mod taking;
mod values;

pub use aggregates::{
    GivenList, built, claims, claims_any, filled, lies_in, nothing_given, whole_values,
};
pub use arrays::{item_at, item_of, length_of, lies_within, position_below, span_within};
pub use checks::{Ending, Made, check_each, check_value, ends_at, keeps, keeps_each};
pub use operators::{
    compute_one, compute_two, decides, first_of, has_modulus, is_member, joined, last_of, negated,
    number_in, predecessor, relate, same_number, stops_at, successor, truth_in, undecided,
};
pub use taking::taken;
pub use values::{RunArray, RunValue, same_run_value};
