//! Reports: a row for each site, and the text of the rows.
#![tactic(auto)]

mod laws;
mod rows;
mod text;

pub use laws::{
    error_lines_differ, fault_lines_differ, lines_are_rows, lines_read_back, one_line_is_whole,
};
pub use rows::{Row, RowList, RowStatus};
pub use text::{push_place, report_text};
