//! The places of the indexes, loop parameters and loops of a subprogram in the order of its text, and the numbers that they have by it.
//!
//! Each call fails by want of memory alone.
#![tactic(auto)]

mod aspects;
mod declarations;
mod expressions;
mod lists;
mod loops;
mod statements;
mod turns;

pub use lists::{body_indexes, contract_indexes, loops_in, numbered, turns_in};
pub use std::alloc::AllocError as Starved;
