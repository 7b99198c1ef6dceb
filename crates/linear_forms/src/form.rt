//! Linear forms.

use logic_terms::Term;
use sqlite_items::Items;

/// A variable with its coefficient.
#[derive(Drop)]
pub struct Part {
    pub coefficient: i128,
    pub variable: Term,
}

/// A constant plus the parts. As a statement it says that this sum is at least 0.
#[derive(Drop)]
pub struct LinearForm {
    pub constant: i128,
    pub parts: Items<Part>,
}
