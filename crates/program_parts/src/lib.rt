//! What a program declares, with which its typing begins, and the typed program that it ends with.
#![tactic(auto)]

mod finished;
mod packages;
mod starting;
mod subprograms;

pub use finished::program_of;
pub use packages::{declared_text, variables};
pub use starting::start;
pub use std::alloc::AllocError as Starved;
pub use subprograms::routines;
