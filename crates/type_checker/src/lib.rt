//! A program of files whose names are resolved is typed, or the first of the rules of types that it breaks is told.
#![tactic(auto)]

mod bodies;
mod checking;
mod declarations;
mod files;
mod numbering;
mod simple;
mod units;

pub use checking::type_check;
pub use std::alloc::AllocError as Starved;
