//! Declarations whose names are all declared are accepted or refused (Ada RM 3, 6, 8).
#![tactic(auto)]

mod laws;

pub use laws::parts_known_where_declared;
