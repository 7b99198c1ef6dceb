//! Where what may be left out ends.

ghost use Rattle.std.specs.Prelude.{◌≡◌};
ghost use Rattle.tree_parts.specs.Ends.{bounds_end, expr_end, item_end};

use ada_syntax::{Bounds, Expr, Item};
use ada_text::Span;

/// The span of the upper bound, or where there are no bounds that of what stands before them.
pub fn bounds_end(bounds: &Option<Bounds>, before: Span) -> Span
    ensures { result ≡ bounds_end bounds.now before }
{
    match bounds {
        Some(b) => b.high.span,
        None => before,
    }
}

/// The span of an item, or where there is none that of what stands before it.
pub fn item_end(item: &Option<Item<Expr>>, before: Span) -> Span
    ensures { result ≡ item_end item.now before }
{
    match item {
        Some(i) => i.span,
        None => before,
    }
}

/// The span of an expression, or where there is none that of what stands before it.
pub fn expr_end(expr: &Option<Expr>, before: Span) -> Span
    ensures { result ≡ expr_end expr.now before }
{
    match expr {
        Some(e) => e.span,
        None => before,
    }
}
