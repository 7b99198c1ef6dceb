//! The arms of an if-expression, and what it gives else (Ada RM 4.5.7).

ghost use Rattle.std.specs.Prelude.{◌≡◌, [], ◌∷◌, ◌++◌, reverse, IfOk};
ghost use Rattle.reading_scope.specs.Scopes.{scope_of};
ghost use Rattle.typing_rules.specs.declared.prefix.Found.TheVariants.{Is};
ghost use Rattle.typing_rules.specs.Conditions.{branch_by};
ghost use Rattle.typing_rules.specs.Fits.{both};
ghost use Rattle.condition_rules.specs.Ifs.{arm_read, arms_read, branch_read, common, else_read};

use crate::branches::{ReadArm, ReadBranch};
use crate::common::Common;
use ada_values::{Place, Value};
use front_codes::first_of_two;
use name_values::added;
use reading_scope::Scope;
use sqlite_items::Items;
use std::alloc::Global;
use type_base::{BOOLEAN, Code, Refusal, Seen, Starved, made, placed_number};
use typed_units::{Arm, Expr, ExprNode};
use typing_rules::Found;
use value_rules::found_expr;

/// What has been seen of a branch at a place, which is to be of the common type, and of the common subtype where that is an
/// array's; a number takes the type.
fn branch_by(
    alloc: Global,
    scope: &Scope,
    kind: Common,
    place: Place,
    seen: Seen,
) -> Result<Found<Expr>, Starved>
    ensures { IfOk result (λ x. x ≡ branch_by (scope_of scope.now) (common kind) place seen) }
{
    let world = scope.world();
    match seen {
        Seen::Refused(refusal) => Ok(Found::Refused(refusal)),
        Seen::Unknown => Ok(Found::Unknown),
        Seen::Number(number) => {
            match placed_number(alloc, world, Code::L26, place, place, kind.ty, number) {
                Ok(placed) => Ok(found_expr(placed)),
                Err(error) => Err(error),
            }
        }
        Seen::Typed(own, x) => {
            if own == kind.ty && world.is_one(kind.subtype, x.subtype) {
                Ok(Found::Is(x))
            } else {
                Ok(Found::Refused(Refusal {
                    code: Code::L26,
                    place,
                }))
            }
        }
    }
}

fn branch_read(
    alloc: Global,
    scope: &Scope,
    kind: Common,
    branch: ReadBranch,
) -> Result<Found<Expr>, Starved>
    ensures { IfOk result (λ x. x ≡ branch_read (scope_of scope.now) (common kind) branch) }
{
    let ReadBranch { place, seen } = branch;
    branch_by(alloc, scope, kind, place, seen)
}

/// An arm of its two parts.
fn arm_of(condition: Found<Expr>, gives: Found<Expr>) -> Found<Arm<Expr>>
    ensures { result ≡ both (λ x y. record { condition = x; gives = y }) condition gives }
{
    match condition {
        Found::Refused(refusal) => match gives {
            Found::Refused(other) => Found::Refused(first_of_two(refusal, other)),
            Found::Unknown | Found::Is(_) => Found::Refused(refusal),
        },
        Found::Unknown => match gives {
            Found::Refused(refusal) => Found::Refused(refusal),
            Found::Unknown | Found::Is(_) => Found::Unknown,
        },
        Found::Is(condition) => match gives {
            Found::Refused(refusal) => Found::Refused(refusal),
            Found::Unknown => Found::Unknown,
            Found::Is(gives) => Found::Is(Arm { condition, gives }),
        },
    }
}

fn arm_read(
    alloc: Global,
    scope: &Scope,
    kind: Common,
    arm: ReadArm,
) -> Result<Found<Arm<Expr>>, Starved>
    ensures { IfOk result (λ a. a ≡ arm_read (scope_of scope.now) (common kind) arm) }
{
    let ReadArm { condition, gives } = arm;
    match branch_read(alloc, scope, kind, gives) {
        Ok(gives) => Ok(arm_of(condition, gives)),
        Err(error) => Err(error),
    }
}

/// What is found of the arms so far, with one more.
fn more(
    alloc: Global,
    scope: &Scope,
    kind: Common,
    done: Found<Items<Arm<Expr>>>,
    arm: ReadArm,
) -> Result<Found<Items<Arm<Expr>>>, Starved>
    ensures { IfOk result (λ f. f ≡ both (λ xs x. xs ++ (x ∷ [])) done (arm_read (scope_of scope.now) (common kind) arm)) }
{
    match arm_read(alloc, scope, kind, arm) {
        Ok(arm) => added(done, arm),
        Err(error) => Err(error),
    }
}

/// The arms from the last to the first.
#[tactic(auto, using(crate::proofs::Lasts::turn_last, crate::proofs::Lasts::none_left))]
fn turned(alloc: Global, mut arms: Items<ReadArm>) -> Result<Items<ReadArm>, Starved>
    ensures { IfOk result (λ t. t ≡ reverse arms) }
{
    let mut turned = Items::new(alloc);
    while let Some(arm) = arms.pop() {
        turned.push(arm)?;
    }
    Ok(turned)
}

/// The arms of the common type, of arms from the last to the first.
#[tactic(auto, using(crate::proofs::Lasts::last_first))]
fn from_last(
    alloc: Global,
    scope: &Scope,
    kind: Common,
    mut arms: Items<ReadArm>,
) -> Result<Found<Items<Arm<Expr>>>, Starved>
    ensures { IfOk result (λ f. f ≡ arms_read (scope_of scope.now) (common kind) (Is []) (reverse arms)) }
{
    let mut done = Found::Is(Items::new(alloc));
    while let Some(arm) = arms.pop() {
        done = more(alloc, scope, kind, done, arm)?;
    }
    Ok(done)
}

/// The arms of the common type, in order. `Err` where memory was refused.
#[tactic(auto, using(crate::proofs::Lasts::turned_twice))]
pub fn arms_read(
    alloc: Global,
    scope: &Scope,
    kind: Common,
    arms: Items<ReadArm>,
) -> Result<Found<Items<Arm<Expr>>>, Starved>
    ensures { IfOk result (λ f. f ≡ arms_read (scope_of scope.now) (common kind) (Is []) arms) }
{
    match turned(alloc, arms) {
        Ok(arms) => from_last(alloc, scope, kind, arms),
        Err(error) => Err(error),
    }
}

/// What is given where no condition is True: without `else` it is True. `Err` where memory was refused.
pub fn else_read(
    alloc: Global,
    scope: &Scope,
    place: Place,
    kind: Common,
    otherwise: Option<ReadBranch>,
) -> Result<Found<Expr>, Starved>
    ensures { IfOk result (λ x. x ≡ else_read (scope_of scope.now) place (common kind) otherwise) }
{
    match otherwise {
        Some(branch) => branch_read(alloc, scope, kind, branch),
        None => match made(alloc, place, BOOLEAN, ExprNode::Static(Value::Bool(true))) {
            Ok(x) => Ok(Found::Is(x)),
            Err(error) => Err(error),
        },
    }
}
