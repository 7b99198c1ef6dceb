//! If-expressions (Ada RM 4.5.7).

ghost use Rattle.std.specs.Prelude.{◌≡◌, IfOk};
ghost use Rattle.reading_scope.specs.Scopes.{scope_of};
ghost use Rattle.typing_rules.specs.Conditions.{chosen, if_found, if_made};
ghost use Rattle.condition_rules.specs.Ifs.{common, if_read, typed_if};

use crate::arms::{arms_read, else_read};
use crate::branches::{ReadArm, ReadBranch};
use crate::common::{Common, common_of, result_by};
use crate::statics::{chosen, number_else};
use ada_values::Place;
use front_codes::first_of_two;
use name_values::seen_as;
use reading_scope::Scope;
use sqlite_items::Items;
use std::alloc::Global;
use type_base::{Seen, Starved, Want};
use typed_units::{Arm, Expr, ExprNode};
use typing_rules::Found;

fn if_made(
    alloc: Global,
    scope: &Scope,
    place: Place,
    kind: Common,
    arms: Items<Arm<Expr>>,
    otherwise: Expr,
) -> Result<Seen, Starved>
    ensures { IfOk result (λ s. s ≡ if_made (scope_of scope.now) place (common kind) arms otherwise (chosen arms otherwise)) }
{
    match chosen(arms.as_slice(), &otherwise) {
        Some(value) => {
            drop(arms);
            drop(otherwise);
            seen_as(alloc, scope, place, kind.ty, ExprNode::Static(value))
        }
        None => {
            let subtype = result_by(kind, scope.world().form(kind.subtype));
            seen_as(alloc, scope, place, subtype, ExprNode::If(arms, otherwise))
        }
    }
}

fn if_found(
    alloc: Global,
    scope: &Scope,
    place: Place,
    kind: Common,
    arms: Found<Items<Arm<Expr>>>,
    otherwise: Found<Expr>,
) -> Result<Seen, Starved>
    ensures { IfOk result (λ s. s ≡ if_found (scope_of scope.now) place (common kind) arms otherwise) }
{
    match arms {
        Found::Refused(refusal) => match otherwise {
            Found::Refused(other) => Ok(Seen::Refused(first_of_two(refusal, other))),
            Found::Unknown | Found::Is(_) => Ok(Seen::Refused(refusal)),
        },
        Found::Unknown => match otherwise {
            Found::Refused(refusal) => Ok(Seen::Refused(refusal)),
            Found::Unknown | Found::Is(_) => Ok(Seen::Unknown),
        },
        Found::Is(arms) => match otherwise {
            Found::Refused(refusal) => Ok(Seen::Refused(refusal)),
            Found::Unknown => Ok(Seen::Unknown),
            Found::Is(otherwise) => if_made(alloc, scope, place, kind, arms, otherwise),
        },
    }
}

/// An if-expression whose branches have a type in common.
fn typed_if(
    alloc: Global,
    scope: &Scope,
    place: Place,
    kind: Common,
    arms: Items<ReadArm>,
    otherwise: Option<ReadBranch>,
) -> Result<Seen, Starved>
    ensures { IfOk result (λ s. s ≡ typed_if (scope_of scope.now) place (common kind) arms otherwise) }
{
    match else_read(alloc, scope, place, kind, otherwise) {
        Ok(otherwise) => match arms_read(alloc, scope, kind, arms) {
            Ok(arms) => if_found(alloc, scope, place, kind, arms, otherwise),
            Err(error) => {
                drop(otherwise);
                Err(error)
            }
        },
        Err(error) => {
            drop(arms);
            Err(error)
        }
    }
}

/// An if-expression of parts that have been read once, its branches for `want`. A branch that isn't of the common type is
/// `Refused` by L26; the whole is static where all its parts are, and a number where its branches are numbers beside static
/// conditions. `Err` where memory was refused.
pub fn if_read(
    alloc: Global,
    scope: &Scope,
    place: Place,
    want: Want,
    arms: Items<ReadArm>,
    otherwise: Option<ReadBranch>,
) -> Result<Seen, Starved>
    ensures { IfOk result (λ s. s ≡ if_read (scope_of scope.now) place want arms otherwise) }
{
    match number_else(arms.as_slice(), &otherwise) {
        Some(number) => {
            drop(arms);
            drop(otherwise);
            Ok(Seen::Number(number))
        }
        None => {
            let kind = common_of(scope, want, arms.as_slice(), &otherwise);
            typed_if(alloc, scope, place, kind, arms, otherwise)
        }
    }
}
