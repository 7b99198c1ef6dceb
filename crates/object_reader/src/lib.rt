//! Declarations of named numbers, constants and variables (Ada RM 3.3.1, 3.3.2).
#![tactic(auto)]

mod declared;

pub use declared::object_declared;
pub use type_base::Starved;
