//! The choices of a `case` together, over what has been read of each (Ada RM 3.8.1, 5.4).
#![tactic(auto)]

mod alternatives;
mod covers;
mod news;
mod sums;

pub use alternatives::{alternative_made, others_last, single, stretch};
pub use covers::cover_by;
pub use sums::{choices_of, heard_all};
pub use type_base::Starved;
