//! Linear forms: a constant plus variables with coefficients, which is said to be at least 0.
#![tactic(auto)]

mod build;
mod divisor;
mod fault;
mod form;
mod gather;
mod laws;
mod numbers;
mod place;

pub use build::{add_scaled, form_of, tighten};
pub use divisor::{floor_quotient, gcd};
pub use fault::FormFault;
pub use form::{LinearForm, Part};
pub use laws::{laws_of_forms, laws_of_order, laws_of_tightening};
