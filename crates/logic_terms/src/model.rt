//! Models of goals.

use crate::goal::Role;
use sqlite_items::Items;

/// The values of a goal's symbols, in the order of their numbers.
pub type ModelSymbolList = Items<ModelSymbol>;

/// The entries of a model's table of calls.
pub type ModelCallList = Items<ModelCall>;

/// Values in order.
pub type GoalValueList = Items<GoalValue>;

/// A value of a symbol, of an argument or of an answer.
#[derive(Drop)]
pub enum GoalValue {
    Num(i128),
    Truth(bool),
    Array(GoalArray<GoalValue>),
    Record(GoalValueList),
}

/// An array of values, where `V` is `GoalValue`: its first index, its last index, and its items.
#[derive(Drop)]
pub struct GoalArray<V> {
    pub first: i128,
    pub last: i128,
    pub items: Items<V>,
}

/// What a model says of a symbol.
#[derive(Drop)]
pub struct ModelSymbol {
    pub role: Role,
    pub value: GoalValue,
}

/// What a call of the subprogram with these arguments answers.
#[derive(Drop)]
pub struct ModelCall {
    pub sub: Option<u32>,
    pub arguments: GoalValueList,
    pub answer: GoalValue,
}

/// A value for each symbol of a goal, and a table of calls.
#[derive(Drop)]
pub struct GoalModel {
    pub symbols: ModelSymbolList,
    pub calls: ModelCallList,
}
