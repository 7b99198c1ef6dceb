//! Operands that have been read.

ghost use Rattle.std.specs.Prelude.{◌≡◌, IfOk};
ghost use Rattle.reading_scope.specs.Scopes.{scope_of};
ghost use Rattle.syntax_view.specs.View.{expr};
ghost use Rattle.typing_rules.specs.Reading.{read};
ghost use Rattle.typing_rules.specs.Values.{place_of};
ghost use Rattle.operand_rules.specs.Operands.{value_read};

use ada_syntax::Expr;
use ada_values::Place;
use name_values::value_of;
use reading_scope::Scope;
use std::alloc::Global;
use type_base::{Seen, Starved};
use typing_rules::Prefix;

/// An operand: the place where it begins, and what it is in its context.
#[derive(Drop)]
pub struct ReadOperand {
    pub place: Place,
    pub prefix: Prefix,
}

/// The place where an expression begins.
#[tactic(auto, using(crate::proofs::Read::expression_place))]
pub fn expression_place(scope: &Scope, e: &Expr) -> Place
    ensures { result ≡ place_of (scope_of scope.now) (read (scope_of scope.now) (expr e.now)) }
{
    scope.place(e.span.from)
}

/// The value that an operand is. `Err` where memory was refused.
pub fn value_read(alloc: Global, scope: &Scope, operand: ReadOperand) -> Result<Seen, Starved>
    ensures { IfOk result (λ s. s ≡ value_read (scope_of scope.now) operand) }
{
    let ReadOperand { place, prefix } = operand;
    value_of(alloc, scope, place, prefix)
}
