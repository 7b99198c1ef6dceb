//! Ranges, membership tests and static choices, over what has been read of their parts (Ada RM 3.5, 3.8.1, 4.5.2).
#![tactic(auto)]

mod choices;
mod members;
mod reaches;
mod wants;

pub use choices::{choice_by, choice_range, range_choice, value_at};
pub use members::member_by;
pub use reaches::{lone_reach, reach_in, two_reach};
pub use type_base::Starved;
pub use wants::{want_or, weaker};
