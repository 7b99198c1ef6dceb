//! Steps over linear forms.

use sqlite_items::Items;

/// Steps in order.
pub type StepLines = Items<StepLine>;

/// A step, which appends a form to a list of forms. Forms are numbered from 0.
#[derive(Clone, Copy, Debug, PartialEq, Eq)]
pub enum StepLine {
    /// `+ I M J K`: M times form I plus K times form J.
    Add {
        first: u32,
        by_first: i128,
        second: u32,
        by_second: i128,
    },
    /// `t I`: form I tightened.
    Tighten(u32),
}
