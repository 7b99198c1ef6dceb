//! What is seen of an expression: the rules of its form over what is seen of its parts (Ada RM 4).
#![tactic(auto)]

mod entries;
mod parts;
mod sorts;
mod walk;

pub use entries::{call_seen, range_seen, target_seen};
pub use type_base::Starved;
pub use walk::{item_prefix, item_seen, name_seen, prefix, reach_of, seen};
