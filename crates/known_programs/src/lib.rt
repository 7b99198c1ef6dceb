//! Programs whose names are all declared are accepted or refused (Ada RM 3.11, 6.3, 7, 10.1).
#![tactic(auto)]

mod laws;

pub use laws::{declarations_known_where_declared, declared_programs_obey_the_rules};
