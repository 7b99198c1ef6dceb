//! The checker of certificates: whether each line is allowed, and the last clause is empty.
#![tactic(auto)]

mod checking;
mod judging;
mod lines;
mod refusal;

pub use checking::checks;
pub use refusal::CertRefusal;
