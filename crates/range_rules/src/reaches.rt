//! What ranges reach over (Ada RM 3.5).

ghost use Rattle.std.specs.Prelude.{◌≡◌, IfOk};
ghost use Rattle.reading_scope.specs.Scopes.{scope_of};
ghost use Rattle.type_base.specs.declared.seen.Demand.TheVariants as demand;
ghost use Rattle.type_base.specs.Demands.{agree, operand};
ghost use Rattle.typing_rules.specs.Fits.{both};
ghost use Rattle.typing_rules.specs.Ranges.{bounds_reach, lone_reach, no_range};
ghost use Rattle.typing_rules.specs.Values.{value_of};
ghost use Rattle.range_rules.specs.Places.{numbers_placed, range_of, reach_placed};

use ada_values::Place;
use front_codes::first_of_two;
use name_values::value_of;
use reading_scope::Scope;
use std::alloc::Global;
use type_base::{Code, Demand, Seen, Starved, World, agree, operand, placed_number};
use typed_units::Expr;
use typing_rules::{Between, Found, Prefix, Reach};
use value_rules::{bounds_reach, found_expr, no_range, subtype_reach};

fn value_reach(
    alloc: Global,
    scope: &Scope,
    code: Code,
    place: Place,
    prefix: Prefix,
) -> Result<Reach, Starved>
    ensures { IfOk result (λ r. r ≡ no_range code place (value_of (scope_of scope.now) place prefix)) }
{
    match value_of(alloc, scope, place, prefix) {
        Ok(seen) => Ok(no_range(code, place, seen)),
        Err(error) => Err(error),
    }
}

/// What one expression reaches over where it stands for a range, by a rule: a subtype's name, or `'Range`. The rule is broken
/// where it is something else. `Err` where memory was refused.
pub fn lone_reach(
    alloc: Global,
    scope: &Scope,
    code: Code,
    place: Place,
    prefix: Prefix,
) -> Result<Reach, Starved>
    ensures { IfOk result (λ r. r ≡ lone_reach (scope_of scope.now) code place prefix) }
{
    match prefix {
        Prefix::Subtype(subtype) => {
            subtype_reach(alloc, code, place, subtype, scope.world().form(subtype))
        }
        Prefix::Range(range) => Ok(Reach::Between(range)),
        other => value_reach(alloc, scope, code, place, other),
    }
}

/// What two bounds reach over, which by a rule are of one integer or enumeration type; each bound with its place. `Err` where
/// memory was refused.
pub fn two_reach(
    alloc: Global,
    scope: &Scope,
    code: Code,
    low: Place,
    high: Place,
    first: Seen,
    last: Seen,
) -> Result<Reach, Starved>
    ensures { IfOk result (λ r. r ≡ bounds_reach (agree (scope_of scope.now).world code low high (operand (scope_of scope.now).world demand.Ordered code low first) (operand (scope_of scope.now).world demand.Ordered code high last))) }
{
    let world = scope.world();
    let first = operand(world, Demand::Ordered, code, low, first);
    let last = operand(world, Demand::Ordered, code, high, last);
    match agree(alloc, world, code, low, high, first, last) {
        Ok(bounds) => Ok(bounds_reach(bounds)),
        Err(error) => Err(error),
    }
}

/// A range of a type by its two bounds.
fn between(ty: u32, low: Found<Expr>, high: Found<Expr>) -> Found<Between>
    ensures { result ≡ both (range_of ty) low high }
{
    match low {
        Found::Refused(refusal) => match high {
            Found::Refused(other) => Found::Refused(first_of_two(refusal, other)),
            Found::Unknown | Found::Is(_) => Found::Refused(refusal),
        },
        Found::Unknown => match high {
            Found::Refused(refusal) => Found::Refused(refusal),
            Found::Unknown | Found::Is(_) => Found::Unknown,
        },
        Found::Is(low) => match high {
            Found::Refused(refusal) => Found::Refused(refusal),
            Found::Unknown => Found::Unknown,
            Found::Is(high) => Found::Is(Between {
                subtype: ty,
                low,
                high,
            }),
        },
    }
}

/// A range by two numbers at these places, which take a type.
fn universal(
    alloc: Global,
    world: &World,
    code: Code,
    ty: u32,
    low: Place,
    high: Place,
    first: i128,
    last: i128,
) -> Result<Found<Between>, Starved>
    ensures { IfOk result (λ b. b ≡ numbers_placed world.now code ty low high first last) }
{
    let first = placed_number(alloc, world, code, low, low, ty, first)?;
    let first = found_expr(first);
    match placed_number(alloc, world, code, high, high, ty, last) {
        Ok(last) => Ok(between(ty, first, found_expr(last))),
        Err(error) => Err(error),
    }
}

/// The bounds at two places, of which universal ones take a type, by a rule that is broken where that is no integer type.
/// `Err` where memory was refused.
pub fn reach_in(
    alloc: Global,
    scope: &Scope,
    code: Code,
    ty: u32,
    low: Place,
    high: Place,
    reach: Reach,
) -> Result<Found<Between>, Starved>
    ensures { IfOk result (λ b. b ≡ reach_placed (scope_of scope.now) code ty low high reach) }
{
    match reach {
        Reach::Refused(refusal) => Ok(Found::Refused(refusal)),
        Reach::Unknown => Ok(Found::Unknown),
        Reach::Between(range) => Ok(Found::Is(range)),
        Reach::Numbers(first, last) => {
            universal(alloc, scope.world(), code, ty, low, high, first, last)
        }
    }
}
