//! The values of named numbers, constants and variables, as they are declared (Ada RM 3.3.1, 3.3.2).
#![tactic(auto)]

mod given;
mod numbers;
mod settling;

pub use given::object_value;
pub use numbers::number_read;
pub use settling::found_settled;
pub use type_base::Starved;
