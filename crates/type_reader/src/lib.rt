//! The definitions of types (Ada RM 3.4, 3.5.1, 3.5.4, 3.6, 3.8).
#![tactic(auto)]

mod definitions;
mod indexes;

pub use definitions::definition;
pub use type_base::Starved;
