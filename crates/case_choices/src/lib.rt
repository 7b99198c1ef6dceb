//! The choices of a `case`: each is read, and they are taken together (Ada RM 3.8.1, 5.4).
#![tactic(auto)]

mod choices;
mod lists;
mod names;
mod ranges;
mod statics;

pub use choices::choice_seen;
pub use lists::{alternative_of, cover, spreads_in};
pub use type_base::Starved;
