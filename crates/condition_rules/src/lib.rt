//! If-expressions and quantified expressions, over what has been read of their parts (Ada RM 4.5.7, 4.5.8).
#![tactic(auto)]

mod arms;
mod branches;
mod choosing;
mod common;
mod counting;
mod statics;

pub use branches::{ReadArm, ReadBranch, branch_want, condition};
pub use choosing::if_read;
pub use counting::{index_subtype, quantified_by};
pub use type_base::Starved;
