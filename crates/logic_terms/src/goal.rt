//! Goals.

use crate::sort::{Sort, SortList};
use crate::syntax::{Formula, FormulaList};
use sqlite_items::Items;

/// The symbols of a goal, in the order of their numbers.
pub type SymbolList = Items<Symbol>;

/// The calls of a goal, in the order of their numbers.
pub type CallList = Items<Call>;

/// What a symbol stands for in the run of its subprogram.
#[derive(Clone, Copy, Debug, PartialEq, Eq)]
pub enum Role {
    /// An input of the subprogram: its parameters and then all globals, from 0.
    Input(u32),
    /// A value chosen on the way to the goal, from 0.
    Choice(u32),
    Plain,
}

/// A symbol of a goal.
#[derive(Drop)]
pub struct Symbol {
    pub sort: Sort,
    pub role: Role,
}

/// A call of a goal: the sorts of its arguments and of its answer, and the number of its subprogram.
#[derive(Drop)]
pub struct Call {
    pub arguments: SortList,
    pub answer: Sort,
    pub sub: Option<u32>,
}

/// A goal: the conclusion is to hold wherever the hypotheses do.
#[derive(Drop)]
pub struct Goal {
    pub symbols: SymbolList,
    pub calls: CallList,
    pub hypotheses: FormulaList,
    pub conclusion: Formula,
}
