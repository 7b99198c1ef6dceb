//! Lines and columns of places in a text whose lines are found once.
#![tactic(auto)]

mod laws;
mod lines;

pub use laws::places_are_those_of_texts;
pub use lines::Lines;
pub use std::alloc::AllocError as Starved;
