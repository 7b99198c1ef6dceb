//! Conditions (Ada RM 5.3, 5.5, 5.7, 6.1.1, 11.4.2).

ghost use Rattle.std.specs.Prelude.{◌≡◌, IfOk};
ghost use Rattle.reading_scope.specs.Scopes.{scope_of};
ghost use Rattle.statement_typing.specs.Asked.{place_of};
ghost use Rattle.statement_typing.specs.Aspects.{item_condition};
ghost use Rattle.statement_typing.specs.Statements.{tested};
ghost use Rattle.syntax_view.specs.View.{expr, item_of};

use ada_syntax::{Expr as Tree, Item};
use ada_values::Place;
use expression_reader::{item_seen, seen};
use reading_scope::Scope;
use statement_rules::condition;
use std::alloc::Global;
use type_base::{BOOLEAN, Code, Starved, Want};
use typed_units::Expr;
use typing_rules::Found;

/// The place where an expression begins.
#[tactic(auto, using(crate::proofs::Read::begins))]
pub(crate) fn place_of(scope: &Scope, e: &Tree) -> Place
    ensures { result ≡ place_of (scope_of scope.now) (expr e.now) }
{
    scope.place(e.span.from)
}

/// A condition that is an item, by a rule: of an aspect or a pragma. `Err` where memory was refused.
pub fn item_condition(
    alloc: Global,
    scope: &Scope,
    code: Code,
    item: &Item<Tree>,
) -> Result<Found<Expr>, Starved>
    ensures { IfOk result (λ x. x ≡ item_condition (scope_of scope.now) code (item_of expr item.now)) }
{
    let seen = item_seen(alloc, scope, Want::Type(BOOLEAN), item)?;
    let place = scope.place(item.span.from);
    Ok(condition(scope.world(), code, place, seen))
}

/// A condition of a statement; L9 is broken where it isn't Boolean. `Err` where memory was refused.
pub(crate) fn tested(alloc: Global, scope: &Scope, e: &Tree) -> Result<Found<Expr>, Starved>
    ensures { IfOk result (λ x. x ≡ tested (scope_of scope.now) (expr e.now)) }
{
    let place = place_of(scope, e);
    let seen = seen(alloc, scope, Want::Type(BOOLEAN), e)?;
    Ok(condition(scope.world(), Code::L9, place, seen))
}
