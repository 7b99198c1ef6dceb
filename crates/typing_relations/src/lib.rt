//! Which typed expression an expression is, by the rules of the language (Ada RM 4).
#![tactic(auto)]

mod laws;

pub use laws::accepted_obey_the_rules;
