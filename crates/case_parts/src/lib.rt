//! What the programs of cases of the logic share: terms, formulas and numbers from the words of a case, and lines of their
//! texts.
#![tactic(auto)]

mod fault;
mod lines;
mod parts;

pub use fault::{CaseFault, push_fault};
pub use lines::{push, push_formula_text, push_number, push_term_text, push_text, push_told};
pub use parts::{count_of, formula_of, number_of, sort_of_text, term_of};
