//! The clause of the rule that replaces a term by an equal one.
#![tactic(auto)]

mod replacing;
mod swapping;

pub use replacing::replacement;
