//! Statements without statements inside: assignments, calls, `return` and `exit`; and the selector of a `case`
//! (Ada RM 5.2, 5.4, 5.7, 6.4, 6.5).

ghost use Rattle.std.specs.Prelude.{◌≡◌, IfOk, Some, option_map};
ghost use Rattle.reading_scope.specs.Scopes.{scope_of};
ghost use Rattle.statement_rules.specs.Arounds.{around_of};
ghost use Rattle.statement_typing.specs.Choices.{in_parentheses, selector};
ghost use Rattle.statement_typing.specs.Statements.{assignment, exit_of, invocation, return_of, value_for};
ghost use Rattle.statement_typing.specs.Subtypes.{part};
ghost use Rattle.syntax_view.specs.View.{expr, name_of};
ghost use Rattle.type_base.specs.declared.seen.Want.TheVariants as want;

use crate::conditions::{place_of, tested};
use ada_syntax::{Expr as Tree, ExprNode as TreeNode, Name};
use ada_values::Place;
use expression_reader::{call_seen, seen, target_seen};
use reading_scope::Scope;
use statement_rules::{
    Around, assignment_read, call_action, exit_alone, exit_when, return_alone, return_read,
    return_want, selector_read, value_for_read, value_want,
};
use statement_typing::Selected;
use std::alloc::Global;
use type_base::{Starved, Want};
use typed_units::{Action, Expr, Fitted, Stmt};
use typing_rules::{Found, Part};

/// The value of an assignment to a target. `Err` where memory was refused.
#[tactic(auto, using(statement_rules::proofs::ReadParts::value_is))]
fn value_for(
    alloc: Global,
    scope: &Scope,
    target: &Found<Part>,
    value: &Tree,
) -> Result<Found<Fitted<Expr>>, Starved>
    ensures { IfOk result (λ f. f ≡ value_for (scope_of scope.now) target.now (expr value.now)) }
{
    let place = place_of(scope, value);
    let seen = seen(alloc, scope, value_want(target), value)?;
    value_for_read(alloc, scope.world(), target, place, seen)
}

/// An assignment. `Err` where memory was refused.
pub(crate) fn assignment(
    alloc: Global,
    scope: &Scope,
    target: &Name<Tree>,
    value: &Tree,
) -> Result<Found<Action<Stmt>>, Starved>
    ensures { IfOk result (λ x. x ≡ assignment (scope_of scope.now) (name_of expr target.now) (expr value.now)) }
{
    let target = target_seen(alloc, scope, target)?;
    match value_for(alloc, scope, &target, value) {
        Ok(value) => Ok(assignment_read(target, value)),
        Err(error) => {
            drop(target);
            Err(error)
        }
    }
}

/// A name that stands as a statement: a call. `Err` where memory was refused.
pub(crate) fn invocation(
    alloc: Global,
    scope: &Scope,
    name: &Name<Tree>,
) -> Result<Found<Action<Stmt>>, Starved>
    ensures { IfOk result (λ x. x ≡ invocation (scope_of scope.now) (name_of expr name.now)) }
{
    let call = call_seen(alloc, scope, name)?;
    Ok(call_action(call))
}

#[tactic(auto, using(statement_rules::proofs::ReadParts::return_is))]
fn return_value(
    alloc: Global,
    around: &Around,
    place: Place,
    value: &Tree,
) -> Result<Found<Action<Stmt>>, Starved>
    ensures { IfOk result (λ x. x ≡ return_of (around_of around.now) place (around_of around.now).returns (Some (expr value.now))) }
{
    let at = place_of(around.scope, value);
    let seen = seen(alloc, around.scope, return_want(around.returns), value)?;
    return_read(alloc, around.scope.world(), around.returns, at, seen)
}

/// A `return` at a place. `Err` where memory was refused.
pub(crate) fn return_of(
    alloc: Global,
    around: &Around,
    place: Place,
    value: &Option<Tree>,
) -> Result<Found<Action<Stmt>>, Starved>
    ensures { IfOk result (λ x. x ≡ return_of (around_of around.now) place (around_of around.now).returns (option_map expr value.now)) }
{
    match value {
        Some(value) => return_value(alloc, around, place, value),
        None => Ok(return_alone(around, place)),
    }
}

/// An `exit` at a place. `Err` where memory was refused.
pub(crate) fn exit_of(
    alloc: Global,
    around: &Around,
    place: Place,
    condition: &Option<Tree>,
) -> Result<Found<Action<Stmt>>, Starved>
    ensures { IfOk result (λ x. x ≡ exit_of (around_of around.now) place (option_map expr condition.now)) }
{
    match condition {
        Some(condition) => {
            let tested = tested(alloc, around.scope, condition)?;
            Ok(exit_when(around.inner, place, tested))
        }
        None => Ok(exit_alone(around, place)),
    }
}

#[tactic(auto, using(syntax_view::proofs::Forms::expr_has))]
fn in_parentheses(e: &Tree) -> bool
    ensures { result ≡ in_parentheses (expr e.now) }
{
    match e.node.get() {
        TreeNode::Group(_) => true,
        _ => false,
    }
}

/// The selector of a `case`. `Err` where memory was refused.
pub(crate) fn selector(alloc: Global, scope: &Scope, e: &Tree) -> Result<Found<Selected>, Starved>
    ensures { IfOk result (λ x. x ≡ part (scope_of scope.now) want.Free (expr e.now) (selector (scope_of scope.now) (expr e.now))) }
{
    let place = place_of(scope, e);
    let seen = seen(alloc, scope, Want::Free, e)?;
    Ok(selector_read(scope.world(), in_parentheses(e), place, seen))
}
