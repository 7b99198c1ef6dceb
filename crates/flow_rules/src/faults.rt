//! Broken flow rules, and sets of globals.

use ada_values::Place;
use sqlite_items::Items;

/// A flow rule that is broken: 1 to 6 for F1 to F6, and where.
#[derive(Clone, Copy, Debug, PartialEq, Eq)]
pub struct FlowFault {
    pub rule: u8,
    pub place: Place,
}

/// Broken rules in a list.
pub type FlowList = Items<FlowFault>;

/// For each subprogram of a program in order, a set of globals: their numbers in order of declaration, each once.
pub type SetList = Items<Items<u32>>;

/// Which globals each subprogram reads, and which it writes, by itself or through calls.
#[derive(Drop)]
pub struct Effects {
    pub reads: SetList,
    pub writes: SetList,
}
