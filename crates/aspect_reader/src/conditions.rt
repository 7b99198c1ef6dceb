//! Conditions that stand as items: in aspects and as the arguments of pragmas (Ada RM 6.1.1, 11.4.2).

ghost use Rattle.std.specs.Prelude.{◌≡◌, IfOk};
ghost use Rattle.reading_scope.specs.Scopes.{scope_of};
ghost use Rattle.statement_typing.specs.Aspects as rules;
ghost use Rattle.syntax_view.specs.View.{expr, item_of};

use ada_syntax::{Expr as Tree, Item};
use expression_reader::item_seen;
use front_codes::Code;
use reading_scope::Scope;
use statement_rules::condition;
use std::alloc::Global;
use type_base::{BOOLEAN, Starved, Want};
use typed_units::Expr;
use typing_rules::Found;

/// The condition that an item is; the rule is broken where it isn't Boolean. `Err` where memory was refused.
pub fn item_condition(
    alloc: Global,
    scope: &Scope,
    code: Code,
    item: &Item<Tree>,
) -> Result<Found<Expr>, Starved>
    ensures { IfOk result (λ f. f ≡ rules.item_condition (scope_of scope.now) code (item_of expr item.now)) }
{
    let seen = item_seen(alloc, scope, Want::Type(BOOLEAN), item)?;
    Ok(condition(scope.world(), code, scope.place(item.span.from), seen))
}
