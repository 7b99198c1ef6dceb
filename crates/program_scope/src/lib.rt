//! What the typing of a program goes by in each of its files: the tree, the text, and where declarations stand.
#![tactic(auto)]

mod file;
mod home;
mod ranks;

pub use file::File;
pub use home::Home;
pub use ranks::SpotRanks;
pub use std::alloc::AllocError as Starved;
