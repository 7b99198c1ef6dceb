//! Numbers for the names of a program: two identifiers have one number exactly where their texts are the same without regard to case
//! (Ada RM 2.3).
#![tactic(auto)]

mod numbering;
mod table;
mod words;

pub use numbering::number_names;
pub use std::alloc::AllocError as Starved;
pub use table::NameTable;
pub use words::{STANDARD_NAMES, WORDS, Word, word_of};
