//! The changes of a program that is being typed.
#![tactic(auto)]

mod entering;
mod naming;
mod objects;
mod subtypes;
mod types;

pub use entering::{declare, declare_all, declare_literals};
pub use naming::{package_named, with_definition, with_indication};
pub use objects::with_constant;
pub use std::alloc::AllocError as Starved;
pub use subtypes::{entered, entered_by, next_subtype, noted_subtype, with_subtype};
pub use types::with_type;
