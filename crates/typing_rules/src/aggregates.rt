//! What aggregates are while they are read (Ada RM 4.3).

use crate::prefix::Found;
use sqlite_items::Items;
use typed_units::{Association, Bounds, Expr};

/// The components that an association of a record gives: their numbers, from 0, and whether it is one of `others`.
#[derive(Drop)]
pub struct Gives {
    pub numbers: Items<u32>,
    pub by_others: bool,
}

/// How the values of an array are given.
#[derive(Clone, Copy)]
pub enum Manner {
    /// By none so far, so both are open.
    Either,
    /// By positional associations.
    ByPlace,
    /// By associations with choices.
    ByChoice,
}

/// What is gathered of an array's associations: the ranges that they give, without `others`, and the values.
#[derive(Drop)]
pub struct Gathered {
    pub ranges: Found<Items<Bounds>>,
    pub done: Found<Items<Association<Expr>>>,
}

/// The associations of an array, and whether all that isn't given may be missing.
#[derive(Drop)]
pub struct ArrayItems {
    pub gathered: Gathered,
    pub partial: bool,
}
