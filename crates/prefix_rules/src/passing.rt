//! Variables, and what is passed for formals that are written (Ada RM 5.2, 6.4.1).

ghost use Rattle.std.specs.Prelude.{◌≡◌, IfOk};
ghost use Rattle.reading_scope.specs.Scopes.{scope_of};
ghost use Rattle.type_base.specs.Demands.{check_in};
ghost use Rattle.type_base.specs.Lookups.{type_at};
ghost use Rattle.typing_rules.specs.Calls.{check_between, not_a_variable, passed, passed_as, same_type, variable, writable};
ghost use Rattle.typing_rules.specs.Values.{value_of};

use crate::items::includes;
use ada_values::Place;
use name_values::value_of;
use reading_scope::Scope;
use std::alloc::Global;
use type_base::{Access, Code, Refusal, Seen, Starved};
use typed_units::{Actual, Bounds, Expr, Mode};
use typing_rules::{Found, Part, Prefix};
use value_rules::takes;

fn writable(access: Access) -> bool
    ensures { result ≡ writable access }
{
    match access {
        Access::Variable => true,
        Access::Constant | Access::InParameter | Access::LoopParameter => false,
    }
}

fn not_a_variable(code: Code, place: Place, seen: Seen) -> Found<Part>
    ensures { result ≡ not_a_variable code place seen }
{
    match seen {
        Seen::Refused(refusal) => Found::Refused(refusal),
        Seen::Unknown => Found::Unknown,
        Seen::Number(_) => Found::Refused(Refusal { code, place }),
        Seen::Typed(_, x) => {
            drop(x);
            Found::Refused(Refusal { code, place })
        }
    }
}

/// A name that is a value, where a rule wants a variable.
fn value_passed(
    alloc: Global,
    scope: &Scope,
    code: Code,
    place: Place,
    prefix: Prefix,
) -> Result<Found<Part>, Starved>
    ensures { IfOk result (λ f. f ≡ not_a_variable code place (value_of (scope_of scope.now) place prefix)) }
{
    match value_of(alloc, scope, place, prefix) {
        Ok(seen) => Ok(not_a_variable(code, place, seen)),
        Err(error) => Err(error),
    }
}

/// The variable that a name at a place is; by a rule it is one. `Err` where memory was refused.
pub fn variable(
    alloc: Global,
    scope: &Scope,
    code: Code,
    place: Place,
    prefix: Prefix,
) -> Result<Found<Part>, Starved>
    ensures { IfOk result (λ f. f ≡ variable (scope_of scope.now) code place prefix) }
{
    match prefix {
        Prefix::Part(part) => {
            if writable(part.access) {
                Ok(Found::Is(part))
            } else {
                drop(part);
                Ok(Found::Refused(Refusal { code, place }))
            }
        }
        other => value_passed(alloc, scope, code, place, other),
    }
}

fn check_in(bounds: Option<Bounds>, known: Option<Bounds>) -> Option<Bounds>
    ensures { result ≡ check_in bounds known }
{
    match bounds {
        None => None,
        Some(bounds) => {
            if includes(bounds, known) {
                None
            } else {
                Some(bounds)
            }
        }
    }
}

/// The bounds of the check of a value of the latter subtype that is to be of the former.
fn check_between(scope: &Scope, target: u32, own: u32) -> Option<Bounds>
    ensures { result ≡ check_between (scope_of scope.now) target own }
{
    let world = scope.world();
    check_in(world.bounds(target), world.bounds(own))
}

fn passed(scope: &Scope, mode: Mode, formal: u32, part: Part) -> Actual<Expr>
    ensures { result ≡ passed (scope_of scope.now) mode formal part }
{
    let back = check_between(scope, part.subtype, formal);
    let there = check_between(scope, formal, part.subtype);
    let Part {
        access: _,
        whole: _,
        subtype: _,
        target,
    } = part;
    match mode {
        Mode::Out => Actual::Out(target, back),
        Mode::In | Mode::InOut => Actual::InOut(target, there, back),
    }
}

fn same_type(left: Option<u32>, right: Option<u32>) -> bool
    ensures { result ≡ same_type left right }
{
    match left {
        Some(left) => match right {
            Some(right) => left == right,
            None => false,
        },
        None => false,
    }
}

/// What is passed for a formal that is written, of this subtype: a variable of its type, and of its subtype where that is a
/// constrained array; `Refused` by L11 where it isn't.
pub fn passed_as(
    scope: &Scope,
    place: Place,
    mode: Mode,
    formal: u32,
    part: Part,
) -> Found<Actual<Expr>>
    ensures { result ≡ passed_as (scope_of scope.now) place mode formal (type_at (scope_of scope.now).world formal) part }
{
    let world = scope.world();
    let ty = world.type_of(formal);
    if ty.is_none() {
        drop(part);
        return Found::Unknown;
    }
    if same_type(ty, world.type_of(part.subtype)) && takes(world, false, formal, part.subtype) {
        Found::Is(passed(scope, mode, formal, part))
    } else {
        drop(part);
        Found::Refused(Refusal {
            code: Code::L11,
            place,
        })
    }
}
