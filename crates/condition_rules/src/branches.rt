//! Conditions and branches (Ada RM 4.5.7).

ghost use Rattle.std.specs.Prelude.{◌≡◌};
ghost use Rattle.reading_scope.specs.Scopes.{scope_of};
ghost use Rattle.type_base.specs.declared.seen.Demand.TheVariants as demand;
ghost use Rattle.type_base.specs.Demands.{operand};
ghost use Rattle.typing_rules.specs.Conditions.{branch_want};
ghost use Rattle.typing_rules.specs.Ranges.{found_expr};

use ada_values::Place;
use range_rules::want_or;
use reading_scope::Scope;
use type_base::{Code, Demand, Seen, Want, operand};
use typed_units::Expr;
use typing_rules::Found;
use value_rules::found_expr;

/// A branch of an if-expression: the place where it begins, and what is seen of it.
#[derive(Drop)]
pub struct ReadBranch {
    pub place: Place,
    pub seen: Seen,
}

/// A condition of an if-expression, by L9, and the branch that it chooses.
#[derive(Drop)]
pub struct ReadArm {
    pub condition: Found<Expr>,
    pub gives: ReadBranch,
}

/// What has been seen at a place, which by a rule is to be Boolean.
pub fn condition(scope: &Scope, code: Code, place: Place, seen: Seen) -> Found<Expr>
    ensures { result ≡ found_expr (operand (scope_of scope.now).world demand.Truth code place seen) }
{
    found_expr(operand(scope.world(), Demand::Truth, code, place, seen))
}

/// What each branch is read for: what the context gives, or the type of the first branch that tells one.
pub fn branch_want(want: Want, kind: Option<u32>) -> Want
    ensures { result ≡ branch_want want kind }
{
    match want {
        Want::Free => want_or(Want::Free, kind),
        Want::Unknown => Want::Unknown,
        Want::Type(ty) => Want::Type(ty),
        Want::Subtype(subtype) => Want::Subtype(subtype),
    }
}
