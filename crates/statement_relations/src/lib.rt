//! Which typed statement a statement is, by the rules of the language (Ada RM 5, 6.4, 6.5, 11.4.2; SPARK RM 5.5.3).
#![tactic(auto)]

mod laws;

pub use laws::accepted_statements_obey_the_rules;
