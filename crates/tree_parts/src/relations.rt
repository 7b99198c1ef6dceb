//! Expressions from their first part and what follows it.

ghost use Rattle.std.specs.Prelude.{◌≡◌, IfOk};
ghost use Rattle.tree_parts.specs.Operations.{grouped};
ghost use Rattle.tree_parts.specs.Relations.{argument, named_action, plain, plain_argument, range_end, related};

use crate::Starved;
use crate::chain::Chain;
use crate::ends::{expr_end, item_end};
use crate::nodes::{expr_at, item_at};
use crate::operations::{binary, grouped, joined};
use crate::part::Operation;
use ada_syntax::{Action, Arg, ArgChoice, Expr, ExprNode, Item, ItemForm, Name, Range, Stmt};
use ada_text::Span;
use sqlite_items::Boxed;
use std::alloc::Global;

/// What follows a simple expression in a relation.
pub enum RelationTail {
    Nothing,
    Compare(Operation),
    /// The place of `in`, or of `not` for true, and the range.
    Member(Span, bool, Boxed<Range<Expr>>),
}

impl Drop for RelationTail {
    fn drop(self) {
        match self {
            RelationTail::Nothing => {}
            RelationTail::Compare(part) => drop(part),
            RelationTail::Member(_, _, part) => drop(part),
        }
    }
}

impl RelationTail {
    /// The relation that this is the tail of.
    pub fn related(self, alloc: Global, first: Expr) -> Result<Expr, Starved>
        ensures { IfOk result (λ e. e ≡ related first self) }
    {
        match self {
            RelationTail::Nothing => Ok(first),
            RelationTail::Compare(operation) => binary(alloc, first, operation),
            RelationTail::Member(place, negated, range) => {
                member(alloc, place, negated, first, range)
            }
        }
    }
}

/// What follows the first simple expression of an argument.
pub enum ArgTail {
    /// The upper bound, to which the expression is the lower one, and the value.
    UpTo(Expr, Option<Item<Expr>>),
    /// The rest of the expression, and the value.
    Rest(RelationTail, Chain<Operation>, Option<Item<Expr>>),
}

impl Drop for ArgTail {
    fn drop(self) {
        match self {
            ArgTail::UpTo(part, second) => {
                drop(part);
                drop(second);
            }
            ArgTail::Rest(part, second, third) => {
                drop(part);
                drop(second);
                drop(third);
            }
        }
    }
}

/// The span of a range's last bound.
pub fn range_end(range: &Range<Expr>) -> Span
    ensures { result ≡ range_end range.now }
{
    expr_end(&range.high, range.low.span)
}

/// An expression that is a membership test.
fn member(
    alloc: Global,
    place: Span,
    negated: bool,
    first: Expr,
    range: Boxed<Range<Expr>>,
) -> Result<Expr, Starved>
    ensures { IfOk result (λ e. e ≡ related first (RelationTail.Member place negated range)) }
{
    let span = joined(first.span, range_end(range.get()));
    expr_at(alloc, span, ExprNode::Member(place, negated, first, range))
}

/// An expression as an item.
pub fn plain(alloc: Global, expr: Expr) -> Result<Item<Expr>, Starved>
    ensures { IfOk result (λ item. item ≡ plain expr) }
{
    item_at(alloc, expr.span, ItemForm::Plain(expr))
}

/// A relation with the operators after it.
fn grouped_relation(
    alloc: Global,
    first: Expr,
    tail: RelationTail,
    more: Chain<Operation>,
) -> Result<Expr, Starved>
    ensures { IfOk result (λ e. e ≡ grouped (related first tail) more) }
{
    let relation = tail.related(alloc, first)?;
    grouped(alloc, relation, more)
}

/// An argument that is an expression, and the value after it.
fn plain_argument(
    alloc: Global,
    expr: Expr,
    value: Option<Item<Expr>>,
) -> Result<Arg<Expr>, Starved>
    ensures { IfOk result (λ a. a ≡ plain_argument expr value) }
{
    let span = joined(expr.span, item_end(&value, expr.span));
    match plain(alloc, expr) {
        Ok(item) => Ok(Arg {
            span,
            choice: ArgChoice::Item(item),
            value,
        }),
        Err(starved) => {
            drop(value);
            Err(starved)
        }
    }
}

impl ArgTail {
    /// The argument that begins with this simple expression and has this tail.
    pub fn argument(self, alloc: Global, first: Expr) -> Result<Arg<Expr>, Starved>
        ensures { IfOk result (λ a. a ≡ argument first self) }
    {
        match self {
            ArgTail::UpTo(high, value) => Ok(Arg {
                span: joined(first.span, item_end(&value, high.span)),
                choice: ArgChoice::Range(first, high),
                value,
            }),
            ArgTail::Rest(relation, more, value) => {
                match grouped_relation(alloc, first, relation, more) {
                    Ok(expr) => plain_argument(alloc, expr, value),
                    Err(starved) => {
                        drop(value);
                        Err(starved)
                    }
                }
            }
        }
    }
}

/// An assignment of a value to a name, or without a value a call.
pub fn named_action(name: Name<Expr>, value: Option<Expr>) -> Action<Stmt>
    ensures { result ≡ named_action name value }
{
    match value {
        Some(value) => Action::Assign(name, value),
        None => Action::Call(name),
    }
}
