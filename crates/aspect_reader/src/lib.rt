//! What the aspects of a declaration state, read in the order of their text (Ada RM 6.1.1, 13.1.1, SPARK RM 6.1.4).
#![tactic(auto)]

mod aspects;
mod conditions;

pub use aspects::aspects_found;
pub use conditions::item_condition;
pub use type_base::Starved;
