//! The rules of certificates: which lines are allowed, and why an accepted certificate makes its goal valid.
#![tactic(auto)]

mod clauses;
mod fault;
mod laws;
mod literals;
mod terms;
mod worked_compound;
mod worked_lines;

pub use clauses::{clause_of_four, clause_of_one, clause_of_three, clause_of_two};
pub use fault::LineFault;
pub use laws::certificates_are_sound;
pub use literals::{
    at_most, both, boxed_formula, equal, equals, literal, negation, not, not_at_most, not_equal,
};
pub use terms::{
    boxed, field, first, item, last, modulus, number, product, quotient, record, remainder, sum,
    symbol,
};
pub use worked_compound::{
    worked_arrays, worked_division, worked_extensionality, worked_fields, worked_replacing,
};
pub use worked_lines::{
    worked_certificates, worked_choices, worked_connectives, worked_hypotheses, worked_numbers,
    worked_propagation, worked_quantifiers, worked_sums,
};
