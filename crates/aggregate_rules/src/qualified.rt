//! Qualified expressions (Ada RM 4.7).

ghost use Rattle.std.specs.Prelude.{◌≡◌, IfOk};
ghost use Rattle.typed_units.specs.declared.expressions.Expr.{out-Expr};
ghost use Rattle.aggregate_rules.specs.Steps.{unchecked};
ghost use Rattle.reading_scope.specs.Scopes.{scope_of};
ghost use Rattle.typing_rules.specs.Aggregates.{no_subtype, qualified_as, qualified_node};

use ada_values::{Place, Value};
use name_values::seen_as;
use reading_scope::Scope;
use std::alloc::Global;
use type_base::{Code, Seen, Starved, refused};
use typed_units::{Expr, ExprNode, Fitted};
use typing_rules::Found;

/// An operand that needs no check.
fn unchecked(value: Expr) -> ExprNode<Expr>
    ensures { result ≡ unchecked value (out-Expr value).node }
{
    match value.node.get() {
        ExprNode::Static(Value::Int(number)) => {
            let node = ExprNode::Static(Value::Int(*number));
            drop(value);
            node
        }
        ExprNode::Static(Value::Bool(truth)) => {
            let node = ExprNode::Static(Value::Bool(*truth));
            drop(value);
            node
        }
        _ => ExprNode::Convert(None, value),
    }
}

fn qualified_node(fitted: Fitted<Expr>) -> ExprNode<Expr>
    ensures { result ≡ qualified_node fitted fitted.bounds (out-Expr fitted.value).node }
{
    let Fitted { bounds, value } = fitted;
    match bounds {
        Some(bounds) => ExprNode::Convert(Some(bounds), value),
        None => unchecked(value),
    }
}

/// A qualified expression of a subtype. A static operand that needs no check stays static.
pub fn qualified_as(
    alloc: Global,
    scope: &Scope,
    place: Place,
    subtype: u32,
    operand: Found<Fitted<Expr>>,
) -> Result<Seen, Starved>
    ensures { IfOk result (λ s. s ≡ qualified_as (scope_of scope.now) place subtype operand) }
{
    match operand {
        Found::Refused(refusal) => Ok(Seen::Refused(refusal)),
        Found::Unknown => Ok(Seen::Unknown),
        Found::Is(fitted) => {
            let node = qualified_node(fitted);
            seen_as(alloc, scope, place, subtype, node)
        }
    }
}

/// A qualification by what is no subtype: L18, or what is refused in it.
pub fn no_subtype(place: Place, seen: Seen) -> Seen
    ensures { result ≡ no_subtype place seen }
{
    match seen {
        Seen::Refused(refusal) => Seen::Refused(refusal),
        Seen::Unknown => Seen::Unknown,
        Seen::Number(_) | Seen::Typed(_, _) => refused(Code::L18, place),
    }
}
