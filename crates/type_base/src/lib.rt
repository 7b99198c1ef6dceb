//! What the rules of types speak of: subtypes and entities, what is seen of an expression, and operands that agree (Ada RM 3, 4.9).
#![tactic(auto)]

mod agreement;
mod demands;
mod entities;
mod fitting;
mod laws;
mod seen;
mod standard;
mod subtypes;
mod world;

pub use agreement::{agree, with_left, with_refused, with_right, with_unknown};
pub use demands::{made, operand, placed_number, refused, typed};
pub use entities::{Access, Entity, EntityTable, FileMeanings, Meaning};
pub use front_codes::{Code, Refusal};
pub use laws::laws_of_operators;
pub use seen::{Agreed, Demand, Family, Moment, Parameter, Seen, Want};
pub use standard::{
    BOOLEAN, INTEGER, INTEGER_BASE, LONG, LONG_BASE, NATURAL, POSITIVE, predefined,
};
pub use std::alloc::AllocError as Starved;
pub use subtypes::{Subtypes, widened};
pub use world::{Component, Discrete, Form, Formal, Routine, Subtype, World};
