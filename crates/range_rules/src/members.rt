//! Membership tests (Ada RM 4.5.2).

ghost use Rattle.std.specs.Prelude.{◌≡◌, IfOk};
ghost use Rattle.reading_scope.specs.Scopes.{scope_of};
ghost use Rattle.typing_rules.specs.Ranges.{reach_seen, same_truth};
ghost use Rattle.range_rules.specs.Places.{member_placed, number_placed, typed_placed};

use crate::reaches::reach_in;
use ada_values::Place;
use expression_rules::static_truth;
use name_values::{refused_beside, type_of};
use reading_scope::Scope;
use std::alloc::Global;
use type_base::{Code, Seen, Starved, placed_number, refused};
use typed_units::Expr;
use typing_rules::{Between, Found, Reach};
use value_rules::{member_number, member_of};

fn same_truth(left: bool, right: bool) -> bool
    ensures { result ≡ same_truth left right }
{
    if left { right } else { !right }
}

/// What is seen of a range alone: whether it is refused.
fn reach_seen(reach: Reach) -> Seen
    ensures { result ≡ reach_seen reach }
{
    match reach {
        Reach::Refused(refusal) => Seen::Refused(refusal),
        Reach::Unknown | Reach::Numbers(_, _) | Reach::Between(_) => Seen::Unknown,
    }
}

/// A tested expression of a type and a range, which begins at `low`.
fn typed_member(
    alloc: Global,
    scope: &Scope,
    place: Place,
    is: bool,
    low: Place,
    ty: u32,
    x: Expr,
    range: Found<Between>,
) -> Result<Seen, Starved>
    ensures { IfOk result (λ s. s ≡ typed_placed (scope_of scope.now) place is low ty x range) }
{
    match range {
        Found::Refused(refusal) => Ok(Seen::Refused(refusal)),
        Found::Unknown => Ok(Seen::Unknown),
        Found::Is(range) => {
            if ty == type_of(scope.world(), range.subtype) {
                member_of(alloc, place, is, x, range)
            } else {
                Ok(refused(Code::L7, low))
            }
        }
    }
}

/// A tested number and a range, whose type the number takes.
fn number_member(
    alloc: Global,
    scope: &Scope,
    place: Place,
    is: bool,
    tested: Place,
    number: i128,
    reach: Reach,
) -> Result<Seen, Starved>
    ensures { IfOk result (λ s. s ≡ number_placed (scope_of scope.now) place is tested number reach) }
{
    match reach {
        Reach::Refused(refusal) => Ok(Seen::Refused(refusal)),
        Reach::Unknown => Ok(Seen::Unknown),
        Reach::Numbers(first, last) => {
            let lies = first <= number && number <= last;
            static_truth(alloc, place, same_truth(is, lies))
        }
        Reach::Between(range) => {
            let world = scope.world();
            let ty = type_of(world, range.subtype);
            match placed_number(alloc, world, Code::L7, tested, tested, ty, number) {
                Ok(seen) => member_number(alloc, place, is, range, seen),
                Err(error) => Err(error),
            }
        }
    }
}

/// A membership test, for `is` false one by `not in`, of what has been seen at `tested` and been found of an integer or
/// enumeration type, in a range with bounds at two places. L7 is broken at the range where it isn't of that type. `Err` where
/// memory was refused.
pub fn member_by(
    alloc: Global,
    scope: &Scope,
    place: Place,
    is: bool,
    tested: Place,
    low: Place,
    high: Place,
    seen: Seen,
    reach: Reach,
) -> Result<Seen, Starved>
    ensures { IfOk result (λ s. s ≡ member_placed (scope_of scope.now) place is tested low high seen reach) }
{
    match seen {
        Seen::Refused(refusal) => Ok(refused_beside(refusal, reach_seen(reach))),
        Seen::Unknown => Ok(reach_seen(reach)),
        Seen::Number(number) => number_member(alloc, scope, place, is, tested, number, reach),
        Seen::Typed(ty, x) => match reach_in(alloc, scope, Code::L7, ty, low, high, reach) {
            Ok(range) => typed_member(alloc, scope, place, is, low, ty, x, range),
            Err(error) => Err(error),
        },
    }
}
