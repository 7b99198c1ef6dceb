//! Sorts, terms and formulas read from their texts.
#![tactic(auto)]

mod atom;
mod bytes;
mod fault;
mod frames;
mod leaf;
mod make;
mod marks;
mod nodes;
mod number;
mod opening;
mod operator;
mod part;
mod sort_text;
mod steps;
mod table;
mod whole;
mod words;

pub use bytes::byte_at;
pub use fault::ReadFault;
pub use marks::read_word;
pub use nodes::{FormulaRead, SortRead, TermRead, read_formula, read_sort, read_term};
pub use number::{Number, read_number};
pub use part::{Part, Side};
pub use sort_text::push_sort;
pub use steps::{Read, read_part};
pub use table::{WordPlace, word_among};
pub use whole::{Whole, read_whole};
