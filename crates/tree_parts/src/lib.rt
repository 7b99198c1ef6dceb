//! What the phrases of a derivation become, on the way to a syntax tree.
#![tactic(auto)]

mod chain;
mod declaration_parts;
mod ends;
mod expression_parts;
mod item_parts;
mod missing;
mod nodes;
mod operations;
mod operators;
mod part;
mod parts;
mod relations;
mod statement_parts;
mod subprogram_parts;
mod type_parts;
mod unit_parts;

pub use chain::Chain;
pub use declaration_parts::DeclarationPart;
pub use ends::{bounds_end, expr_end, item_end};
pub use expression_parts::ExpressionPart;
pub use item_parts::ItemPart;
pub use operations::{binary, grouped, joined, unary};
pub use operators::{logic_operator, number_of, operator_of, quantifier_of, short_operator_of};
pub use part::{Edged, Ended, LogicTail, Operation};
pub use parts::{Part, Parts};
pub use relations::{ArgTail, RelationTail, named_action, plain};
pub use statement_parts::{ChoicePart, StatementPart};
pub use std::alloc::AllocError as Starved;
pub use subprogram_parts::SubprogramPart;
pub use type_parts::TypePart;
pub use unit_parts::UnitPart;
