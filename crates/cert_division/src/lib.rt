//! The clauses of the rule about division by a number.
#![tactic(auto)]

mod division;

pub use division::division_fact;
