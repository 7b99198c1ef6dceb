//! Refusals of a text: the codes of broken rules, where they are broken, and which of several is told.
#![tactic(auto)]

mod codes;
mod laws;
mod words;

pub use codes::{Code, Refusal, first_of_two, is_before};
pub use laws::laws_of_refusals;
pub use words::text_of;
