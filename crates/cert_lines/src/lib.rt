//! Certificates: lists of lines, each of which yields a clause by one of fourteen rules.
#![tactic(auto)]

mod line;
mod rule;
mod step;

pub use line::{Cert, CertLine, CertLines, HintList};
pub use rule::Rule;
pub use step::{StepLine, StepLines};
