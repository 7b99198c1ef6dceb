//! Ranges as they are written, and the places of their bounds.

ghost use Rattle.std.specs.Prelude.{◌≡◌};
ghost use Rattle.reading_scope.specs.Scopes.{scope_of};
ghost use Rattle.statement_typing.specs.Asked as asked;
ghost use Rattle.subtype_reader.specs.Written.{range_as};
ghost use Rattle.syntax_view.specs.View.{expr, range_of};

use ada_syntax::{Expr, Range};
use ada_values::Place;
use reading_scope::Scope;

/// A range as it is written.
#[derive(Clone, Copy)]
pub enum WrittenRange<'a> {
    /// One expression, which names a range or a subtype.
    Named(&'a Expr),
    /// Two bounds.
    Bounds(&'a Expr, &'a Expr),
}

/// A range of the text.
pub fn written(range: &Range<Expr>) -> WrittenRange<'_>
    ensures { range_as result ≡ range_of expr range.now }
{
    match &range.high {
        Some(high) => WrittenRange::Bounds(&range.low, high),
        None => WrittenRange::Named(&range.low),
    }
}

/// The place where an expression begins.
#[tactic(auto, using(crate::proofs::Ranged::place_is))]
pub fn place_of(scope: &Scope, e: &Expr) -> Place
    ensures { result ≡ asked.place_of (scope_of scope.now) (expr e.now) }
{
    scope.place(e.span.from)
}

/// The place where a range begins.
pub fn low_place(scope: &Scope, range: WrittenRange) -> Place
    ensures { result ≡ asked.low_place (scope_of scope.now) (range_as range.entry) }
{
    match range {
        WrittenRange::Named(name) => place_of(scope, name),
        WrittenRange::Bounds(low, _) => place_of(scope, low),
    }
}

/// The place where the second bound of a range begins, or the one expression that it is.
pub fn high_place(scope: &Scope, range: WrittenRange) -> Place
    ensures { result ≡ asked.high_place (scope_of scope.now) (range_as range.entry) }
{
    match range {
        WrittenRange::Named(name) => place_of(scope, name),
        WrittenRange::Bounds(_, high) => place_of(scope, high),
    }
}
