//! What an expression tells of names: which are used, which scopes open and close in it, and what the profile leaves out of it, in the
//! order of the text.
//!
//! Each call that adds events adds them to those that were there before, and fails by want of memory alone.
#![tactic(auto)]

mod asked;
mod places;
mod told;
mod uses;

pub use asked::{is_selector, sole_choice, sole_item};
pub use places::{Brackets, Listed, Within};
pub use std::alloc::AllocError as Starved;
pub use told::{ident, push_left_out, push_listed, push_opened};
pub use uses::{push_args, push_expr, push_item, push_name, push_range};
