//! The clauses that the rules of certificates yield, but for those about earlier lines, linear forms, arrays,
//! division and equal terms.
#![tactic(auto)]

mod computing;
mod opening;
mod quantifiers;
mod records;

pub use computing::computed;
pub use opening::{compared, hypothesis, multiplied, opened, sides};
pub use quantifiers::{instance_of, witness_of};
pub use records::field_clause;
