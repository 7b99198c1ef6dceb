//! Verification trees: what a run may assume and must check on each way through a subprogram.
#![tactic(auto)]

/// What a symbol of a tree stands for.
#[derive(Clone, Copy, Debug, PartialEq, Eq)]
pub enum AnyRole {
    /// An input of the run: the parameters and then the globals, each in order of declaration, from 0.
    Input(u32),
    /// A value that a call or a loop leaves, which the run takes as it comes.
    Choice,
    /// Any other variable.
    Plain,
}

pub mod laws;
