//! What is visible at each place of a program, and what a name stands for there (Ada RM 8).
#![tactic(auto)]

mod clauses;
mod declarations;
pub mod laws;
mod names;
mod packages;
mod state;
mod steps;
mod subprograms;

pub use name_frames::{Entries, Entry, Frame, Frames, Profile, Sort};
pub use name_library::Starved;
pub use state::{Findings, Late, Scopes};
