//! What is so of every declaration and statement by the rules of types (Ada RM 3, 5, 6).
#![tactic(auto)]

mod laws;

pub use laws::{
    declarations_are_first, indications_are_first, programs_are_first, statements_are_first,
};
