//! Clauses that follow because linear forms can't all be at least 0 (rule C4).
#![tactic(auto)]

mod forms;
mod line;
mod refuted;
mod steps;
mod terms;

pub use line::linear_line;
