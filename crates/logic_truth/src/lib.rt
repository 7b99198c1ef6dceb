//! The truth of a constant formula, which is computed.
#![tactic(auto)]

mod arithmetic;
mod arrays;
mod evaluator;
mod forms;
mod found;
mod kinds;
mod operators;
mod places;
mod same_found;

pub use evaluator::truth;
pub use found::TruthFault;
