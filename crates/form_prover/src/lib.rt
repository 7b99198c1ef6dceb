//! Which assertions of a file of the first form are proved.
#![tactic(auto)]

mod formulas;
mod given;
mod laws;
mod rows;
mod verdicts;

pub use laws::{proved_rows_hold, rows_are_complete};
pub use rows::{Row, RowList, rows_of};
