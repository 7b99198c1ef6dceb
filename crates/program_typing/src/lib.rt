//! Which typed programs are well typed: all numbers are in range, and each node's types are as the rules of types demand.
#![tactic(auto)]

mod laws;

pub use laws::{well_typed_nodes, worked_programs};
