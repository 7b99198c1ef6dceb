//! What the identifiers of a program stand for, to be looked up by their places.
#![tactic(auto)]

mod links;

pub use links::Links;
pub use std::alloc::AllocError as Starved;
