//! The clauses of the rules about arrays: items and bounds, and extensionality.
#![tactic(auto)]

mod compound;

pub use compound::{array_clause, extensional};
