//! What statements are: the rules of each over what is seen of its names and expressions (Ada RM 5, 6.5, 11.4.2, SPARK RM 5.5.3).
#![tactic(auto)]

mod actions;
mod conditions;
mod heads;
mod parts;
mod pragmas;
mod walk;
mod words;

pub use conditions::item_condition;
pub use pragmas::{checked, pragma_by, ways};
pub use type_base::Starved;
pub use walk::stmts;
