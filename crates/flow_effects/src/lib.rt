//! Which globals subprograms read and write, and the flow rules F3 to F6.
#![tactic(auto)]

mod aliases;
mod functions;
mod own;
mod parts;
mod passed;
mod stated;

pub use aliases::alias_faults;
pub use functions::function_faults;

/// Want of memory, which is the only error of every call.
pub use std::alloc::AllocError as Starved;
