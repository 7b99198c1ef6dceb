//! The sorts of terms, where quantified variables are numbers.
#![tactic(auto)]

mod operators;
mod scope;
mod sorting;

pub use scope::FoundSort;
pub use sorting::{is_formula, is_number, sort_of};
