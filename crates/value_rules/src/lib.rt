//! Values that are to be of a subtype, ranges and membership tests, over what is seen of their parts (Ada RM 3.5, 4.5.2, 4.6).
#![tactic(auto)]

mod fits;
mod members;
mod ranges;

pub use fits::{fit, takes};
pub use members::{member_number, member_of};
pub use ranges::{bounds_reach, found_expr, no_range, static_range, static_value, subtype_reach};
pub use type_base::Starved;
