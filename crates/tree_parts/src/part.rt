//! What the phrases of a derivation become.

use crate::chain::Chain;
use ada_syntax::{BinaryOperator, Expr};
use ada_text::Span;

/// What a phrase became that may have no token, with the place of its first or its last token where it has one.
#[derive(Drop)]
pub struct Edged<T> {
    pub value: T,
    pub edge: Option<Span>,
}

/// What a phrase became, with the place of its last token.
#[derive(Drop)]
pub struct Ended<T> {
    pub value: T,
    pub end: Span,
}

/// An operator with its place and its right operand.
#[derive(Drop)]
pub struct Operation {
    pub place: Span,
    pub operator: BinaryOperator,
    pub operand: Expr,
}

/// What follows an `and` or an `or`: whether that is the first word of a short-circuit form, the operand, and more.
#[derive(Drop)]
pub struct LogicTail {
    pub short: bool,
    pub operand: Expr,
    pub more: Chain<Operation>,
}
