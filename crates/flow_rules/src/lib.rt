//! The flow rules F1 to F6 over typed programs: the globals that subprograms read and write, aliasing, functions, stated
//! `Global`s, and what is read before it is set. Worked cases of each rule are laws.
#![tactic(auto)]

pub mod aliases;
mod faults;
pub mod globals;
pub mod unset;

pub use faults::{Effects, FlowFault, FlowList, SetList};
