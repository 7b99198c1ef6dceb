//! The type of an expression, as far as its form and its names tell without a context (Ada RM 8.6).
#![tactic(auto)]

mod expressions;
mod names;

pub use expressions::{branches_kind, item_kind, kind, range_kind};
