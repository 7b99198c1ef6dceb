//! Copies of typed expressions.
#![tactic(auto)]

mod expressions;
mod forms;

pub use expressions::copy_expression;
pub use std::alloc::AllocError as Starved;
