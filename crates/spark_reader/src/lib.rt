//! From the bytes of a source file to its syntax tree, or to its first error.
#![tactic(auto)]

mod laws;
mod reading;
mod refusal;

pub use ada_text::Starved;
pub use laws::one_answer;
pub use reading::read;
pub use refusal::ReadRefusal;
