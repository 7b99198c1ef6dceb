//! Whether choices give each value of a range, and each once.
#![tactic(auto)]

mod bounds;
mod cover;
mod laws;
mod sweeps;

pub use cover::{Cover, cover_of};
pub use laws::laws_of_covers;

/// Want of memory, which is the only error of every call.
pub use std::alloc::AllocError as Starved;
