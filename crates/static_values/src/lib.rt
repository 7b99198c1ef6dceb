//! The values of static expressions, and of aggregates of static values (Ada RM 3.3.1).
#![tactic(auto)]

mod owners;
mod shares;
mod values;
mod wholes;

pub use std::alloc::AllocError as Starved;
pub use values::{settled, static_value};
