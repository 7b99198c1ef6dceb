//! The headings of subprograms: their profiles and contracts, as they are read and entered into a program (Ada RM 6.1, 6.1.1,
//! SPARK RM 6.1.4).
#![tactic(auto)]

mod headings;
mod profiles;

pub use headings::{package_aspects, with_heading};
pub use profiles::{profile, returns_of};
pub use type_base::Starved;
