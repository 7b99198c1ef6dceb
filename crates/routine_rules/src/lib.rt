//! What the headings of subprograms state, over what has been read of their parts: the modes and subtypes of parameters, and the
//! aspects `Pre`, `Post` and `Global` (Ada RM 6.1, 6.1.1, 13.1.1, SPARK RM 6.1.4).
#![tactic(auto)]

mod globals;
mod listed;
mod marks;
mod modes;
mod profiles;
mod standing;
mod stated;

pub use globals::global_items;
pub use marks::{Mark, mark_of};
pub use profiles::{formals_read, profile_read, result_read};
pub use standing::Standing;
pub use stated::{global_read, post_read, pre_read, where_allowed, without_value};
pub use type_base::Starved;
