//! Statements whose names are all declared are accepted or refused (Ada RM 5).
#![tactic(auto)]

mod laws;

pub use laws::statements_known_where_declared;
