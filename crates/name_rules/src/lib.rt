//! All broken rules of names of a program, the first of them, and what each identifier stands for, with worked cases as laws.
#![tactic(auto)]

mod demands;
mod files;
mod first;
pub mod laws;
mod program;

pub use first::{first_fault, is_before};
pub use name_library::Starved;
pub use program::{Answer, answer_of};
