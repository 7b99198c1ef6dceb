//! What a file tells of names, by a walk over its tree: which scopes open and close, what is declared and what is used, in the
//! order of the text.
//!
//! The walk also tells what the profile leaves out: pragmas, aspects and attributes by their names, slices, `null` outside of
//! `Global`, nested subprograms, and what can't stand in a private part.
#![tactic(auto)]

mod asked;
mod cases;
mod declarations;
mod laws;
mod statements;
mod subprograms;
mod units;
mod words;

pub use cases::{declarations_told, expressions_told, loops_told, names_told, packages_told};
pub use laws::scopes_nest;
pub use name_uses::Starved;
pub use units::events_of;
