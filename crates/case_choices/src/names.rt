//! Where the parts of choices begin, and whether a choice is a range.

ghost use Rattle.std.specs.Prelude.{◌≡◌, IfOk};
ghost use Rattle.case_choices.specs.Choosing.{is_stretch, names_range};
ghost use Rattle.reading_scope.specs.Scopes.{scope_of};
ghost use Rattle.statement_typing.specs.Asked.{high_place, low_place, place_of};
ghost use Rattle.statement_typing.specs.Choices.{is_range};
ghost use Rattle.syntax_view.specs.View.{expr, range_of};

use ada_syntax::{Expr as Tree, ExprNode as TreeNode, Range};
use ada_values::Place;
use expression_reader::name_seen;
use reading_scope::Scope;
use statement_rules::is_range;
use std::alloc::Global;
use type_base::{Starved, Want};
use typing_rules::Prefix;

/// The place where an expression begins.
#[tactic(auto, using(syntax_view::proofs::Forms::expr_has, crate::proofs::Places::place_is))]
pub(crate) fn place_of(scope: &Scope, e: &Tree) -> Place
    ensures { result ≡ place_of (scope_of scope.now) (expr e.now) }
{
    scope.place(e.span.from)
}

/// The place where a range begins.
pub(crate) fn low_place(scope: &Scope, range: &Range<Tree>) -> Place
    ensures { result ≡ low_place (scope_of scope.now) (range_of expr range.now) }
{
    place_of(scope, &range.low)
}

/// The place where the second bound of a range begins, or the one expression that it is.
pub(crate) fn high_place(scope: &Scope, range: &Range<Tree>) -> Place
    ensures { result ≡ high_place (scope_of scope.now) (range_of expr range.now) }
{
    match &range.high {
        Some(high) => place_of(scope, high),
        None => place_of(scope, &range.low),
    }
}

fn prefix_is_range(prefix: Prefix) -> bool
    ensures { result ≡ is_range prefix }
{
    let answer = is_range(&prefix);
    drop(prefix);
    answer
}

/// Whether an expression is the name of a range.
#[tactic(auto, using(syntax_view::proofs::Forms::expr_has))]
fn names_range(alloc: Global, scope: &Scope, e: &Tree) -> Result<bool, Starved>
    ensures { IfOk result (λ yes. yes ≡ names_range (scope_of scope.now) (expr e.now)) }
{
    match e.node.get() {
        TreeNode::Name(name) => {
            let prefix = name_seen(alloc, scope, Want::Free, name)?;
            Ok(prefix_is_range(prefix))
        }
        _ => Ok(false),
    }
}

/// Whether a choice is a range: two bounds, or the name of one. `Err` where memory was refused.
pub(crate) fn is_stretch(alloc: Global, scope: &Scope, range: &Range<Tree>) -> Result<bool, Starved>
    ensures { IfOk result (λ yes. yes ≡ is_stretch (scope_of scope.now) (range_of expr range.now)) }
{
    match &range.high {
        Some(_) => Ok(true),
        None => names_range(alloc, scope, &range.low),
    }
}
