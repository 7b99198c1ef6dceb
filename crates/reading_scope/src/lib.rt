//! What the reading of a file's text goes by: what is declared, and of each byte its place, its link, its name and its number.
#![tactic(auto)]

mod numbers;
mod scope;

pub use numbers::{Numbered, Numbers};
pub use scope::Scope;
pub use std::alloc::AllocError as Starved;
