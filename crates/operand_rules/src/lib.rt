//! What the rules of names, calls and aggregates make of operands that have been read (Ada RM 4.1, 4.3, 6.4).
#![tactic(auto)]

mod operands;
mod rules;

pub use operands::{ReadOperand, expression_place, value_read};
pub use rules::{
    actual_want, argument_read, beside_read, conversion_read, index_read, mapped_read,
    value_for_read,
};
pub use type_base::Starved;
