//! Terms, formulas and goals of the proof, with their truth.
#![tactic(auto)]

mod constant;
mod copy;
mod copy_goal;
mod equality;
mod goal;
mod injective;
mod laws;
mod model;
mod names;
mod nesting;
mod node;
mod operators;
mod parts;
mod put;
mod same;
mod same_sorts;
mod sort;
mod syntax;
mod text;
mod text_laws;

pub use constant::is_constant;
pub use copy_goal::copy_formulas;
pub use equality::{same_formula, same_sort, same_term};
pub use goal::{Call, CallList, Goal, Role, Symbol, SymbolList};
pub use injective::views_are_injective;
pub use laws::{laws_of_arithmetic, laws_of_formulas, laws_of_terms};
pub use model::{
    GoalArray, GoalModel, GoalValue, GoalValueList, ModelCall, ModelCallList, ModelSymbol,
    ModelSymbolList,
};
pub use names::names_nothing;
pub use nesting::MOST_LEVELS;
pub use node::{BinaryNode, TernaryNode, UnaryNode};
pub use operators::{
    Arithmetic, BinaryOperator, Comparison, Connective, ListOperator, Quantifier, TernaryOperator,
    UnaryOperator, binary_term, compared, joined, list_term, quantified, ternary_term, unary_term,
};
pub use parts::{FormulaParts, TermParts, formula_parts, term_parts};
pub use put::{negate, put_in};
pub use sort::{Sort, SortList};
pub use std::alloc::AllocError as Starved;
pub use syntax::{Formula, FormulaList, Term, TermList};
pub use text::{
    precedes, push_formula, push_number, push_spaced_formula, push_spaced_term, push_whole, text_of,
};
pub use text_laws::{laws_of_text_order, texts_are_injective};
