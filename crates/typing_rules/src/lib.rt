//! The rules of types for expressions: names, calls, ranges, aggregates and all that is made of them (Ada RM 4).
#![tactic(auto)]

mod aggregates;
mod hint;
pub mod laws;
mod prefix;

pub use aggregates::{ArrayItems, Gathered, Gives, Manner};
pub use hint::Hint;
pub use prefix::{Between, Call, Found, Mapping, Part, Prefix, Reach};
pub use std::alloc::AllocError as Starved;
