//! What is read: terms, formulas and sorts.

use logic_terms::{Formula, Sort, Term};
use sqlite_items::Boxed;

/// What can stand at a place of a text.
#[derive(Clone, Copy, Debug, PartialEq, Eq)]
pub enum Side {
    Term,
    Formula,
    Sort,
}

/// A term, a formula or a sort.
#[derive(Drop)]
pub enum Part {
    Term(Boxed<Term>),
    Formula(Boxed<Formula>),
    Sort(Boxed<Sort>),
}
