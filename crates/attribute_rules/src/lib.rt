//! Attributes of names, over what is seen of their parts (Ada RM 3.5, 3.5.5, 3.6.2, 6.1.1, SPARK RM 5.5.3.1).
#![tactic(auto)]

mod arrays;
mod attributes;
mod bounds;
mod earlier;
mod mappings;

pub use attributes::attributed;
pub use bounds::range_of;
pub use mappings::{mapped_by, mapped_want};
pub use type_base::Starved;
