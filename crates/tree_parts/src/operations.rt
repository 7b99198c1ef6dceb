//! Operators with their right operands.

ghost use Rattle.std.specs.Prelude.{◌≡◌, IfOk};
ghost use Rattle.tree_parts.specs.Operations.{binary, grouped, joined, unary};

use crate::Starved;
use crate::chain::Chain;
use crate::nodes::expr_at;
use crate::operators::unary_operator_of;
use crate::part::Operation;
use ada_syntax::{Expr, ExprNode};
use ada_text::{Span, Token};
use std::alloc::Global;

/// From the first byte of one span to the end of another.
pub fn joined(first: Span, last: Span) -> Span
    ensures { result ≡ joined first last }
{
    Span {
        from: first.from,
        to: last.to,
    }
}

/// An operator before its operand.
pub fn unary(alloc: Global, operator: Token, operand: Expr) -> Result<Expr, Starved>
    ensures { IfOk result (λ e. e ≡ unary operator operand) }
{
    let span = joined(operator.span, operand.span);
    expr_at(
        alloc,
        span,
        ExprNode::Unary(operator.span, unary_operator_of(operator.kind), operand),
    )
}

/// An operator between two operands.
pub fn binary(alloc: Global, left: Expr, operation: Operation) -> Result<Expr, Starved>
    ensures { IfOk result (λ e. e ≡ binary left operation) }
{
    let Operation {
        place,
        operator,
        operand,
    } = operation;
    let span = joined(left.span, operand.span);
    expr_at(
        alloc,
        span,
        ExprNode::Binary(place, operator, left, operand),
    )
}

/// Operators one after another, grouped to the left.
pub fn grouped(alloc: Global, first: Expr, more: Chain<Operation>) -> Result<Expr, Starved>
    ensures { IfOk result (λ e. e ≡ grouped first more) }
{
    let mut all = first;
    let mut left = more;
    while let Some(operation) = left.take_first() {
        all = binary(alloc, all, operation)?;
    }
    Ok(all)
}
