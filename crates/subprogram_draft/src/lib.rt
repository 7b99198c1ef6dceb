//! Objects and subprograms as they are entered into a program that is being typed.
#![tactic(auto)]

mod aspects;
mod bodies;
mod changes;
mod globals;
mod laws;
mod locals;
mod objects;
mod profiles;

pub use aspects::{with_aspects, with_contract};
pub use bodies::{indexes_so_far, number_of, opened, with_body, with_opening};
pub use laws::counts;
pub use objects::{with_number, with_objects, with_package_objects};
pub use profiles::with_profile;
pub use std::alloc::AllocError as Starved;
