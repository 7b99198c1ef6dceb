//! What is so of every expression by the rules of types (Ada RM 4).
#![tactic(auto)]

mod laws;

pub use laws::{known_where_declared, refusals_are_first};
