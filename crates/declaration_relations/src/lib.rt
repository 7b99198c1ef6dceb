//! Which typed program the declarations of a program are, by the rules of the language (Ada RM 3, 6, 7, 10.1, 13.1).
#![tactic(auto)]

mod laws;

pub use laws::{
    accepted_declarations_obey_the_rules, accepted_parts_obey_the_rules,
    accepted_programs_obey_the_rules, parts_of_worked_cases_are_known,
};
