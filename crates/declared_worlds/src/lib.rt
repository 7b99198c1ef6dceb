//! Each world that the declarations of a program build is sound, and what identifiers stand for stands in it.
#![tactic(auto)]

mod laws;

pub use laws::{identifiers_are_stated, subprograms_are_stated, types_are_there, worlds_are_sound};
