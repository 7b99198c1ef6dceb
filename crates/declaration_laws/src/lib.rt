//! What is told while a program is read declaration by declaration is the first of all rules that it breaks.
#![tactic(auto)]

mod laws;

pub use laws::{answers_are_told, declarations_are_told, units_are_told};
