//! The sites of a typed program: which checks it has, and where each stands.
#![tactic(auto)]

mod known;
mod laws;
mod nodes;
mod operators;
mod order;
mod program;
mod site;

pub use laws::laws_of_program_sites;
pub use program::sites;
pub use site::{Site, SiteList};

/// Want of memory, which is the only error of every call.
pub use std::alloc::AllocError as Starved;
