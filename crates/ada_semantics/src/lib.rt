//! The meaning of typed programs: what a run of a subprogram does, with worked cases as laws.
#![tactic(auto)]

pub mod budgets;
pub mod calls;
pub mod contracts;
pub mod expressions;
pub mod loops;
pub mod operations;
pub mod parts;
pub mod pieces;
pub mod starts;
pub mod statements;
pub mod turns;
