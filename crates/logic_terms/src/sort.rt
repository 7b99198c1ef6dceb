//! The sorts of terms.

use sqlite_items::{Boxed, Items};

/// Sorts in order.
pub type SortList = Items<Sort>;

/// What a term has as its value.
#[derive(Drop)]
pub enum Sort {
    /// Whole numbers, `N`.
    Num,
    /// Truth values, `B`.
    Truth,
    /// Arrays of one sort, `(A S)`.
    Array(Boxed<Sort>),
    /// Records of these sorts, `(R S ..)`.
    Record(SortList),
}
