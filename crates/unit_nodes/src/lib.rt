//! The nodes of a typed program, in one list.
#![tactic(auto)]

mod expressions;
mod laws;
mod node;
mod programs;
mod statements;

pub use expressions::push_expression;
pub use laws::{laws_of_counts, laws_of_expressions, laws_of_programs};
pub use node::{Asked, NodeList, NodeRef};
pub use programs::{program_nodes, subprogram_nodes};
pub use statements::push_statements;

/// Want of memory, which is the only error of every call.
pub use std::alloc::AllocError as Starved;
