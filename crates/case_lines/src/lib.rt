//! What the programs of cases share: lines of cases, and texts on one line.
#![tactic(auto)]

mod input;
mod shown;
mod tables;
mod words;

pub use input::cases;
pub use shown::push_shown;
pub use tables::named;
pub use words::{LineFault, WordList, words_of};
