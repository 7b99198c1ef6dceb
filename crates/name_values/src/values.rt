//! The value that a name is.

ghost use Rattle.std.specs.Prelude.{◌≡◌, IfOk};
ghost use Rattle.reading_scope.specs.Scopes.{scope_of};
ghost use Rattle.type_base.specs.Faults.{fault_of};
ghost use Rattle.type_base.specs.declared.seen.Seen.TheVariants as seen;
ghost use Rattle.typing_rules.specs.Lookups.{type_of};
ghost use Rattle.typing_rules.specs.Values.{call_value, part_value, prefix_fault, routine_value, value_of};

use crate::found::{found_fault, no_arguments, no_function};
use crate::lookups::{formals_of, seen_as, type_of};
use crate::steps::part_value;
use ada_values::Place;
use reading_scope::Scope;
use sqlite_items::Items;
use std::alloc::Global;
use type_base::{Code, Refusal, Routine, Seen, Starved, World, refused};
use typed_units::{Argument, Expr, ExprNode};
use typing_rules::{Found, Part, Prefix};

/// The value of a call of a function with this result subtype; a procedure's has none (L12). `Err` where memory was refused.
pub fn call_value(
    alloc: Global,
    scope: &Scope,
    place: Place,
    routine: u32,
    gives: Option<u32>,
    arguments: Found<Items<Argument<Expr>>>,
) -> Result<Seen, Starved>
    ensures { IfOk result (λ s. s ≡ call_value (scope_of scope.now) place routine gives arguments) }
{
    match gives {
        Some(subtype) => match arguments {
            Found::Refused(refusal) => Ok(Seen::Refused(refusal)),
            Found::Unknown => Ok(Seen::Unknown),
            Found::Is(arguments) => {
                let node = ExprNode::Call(place, routine, arguments);
                seen_as(alloc, scope, place, subtype, node)
            }
        },
        None => Ok(no_function(place, arguments)),
    }
}

fn routine_value(
    alloc: Global,
    scope: &Scope,
    place: Place,
    number: u32,
    routine: Option<Routine>,
) -> Result<Seen, Starved>
    ensures { IfOk result (λ s. s ≡ routine_value (scope_of scope.now) place number routine) }
{
    match routine {
        Some(routine) => {
            let arguments = no_arguments(alloc, place, formals_of(scope.world(), routine));
            call_value(alloc, scope, place, number, routine.result, arguments)
        }
        None => Ok(Seen::Unknown),
    }
}

fn typed_part(alloc: Global, world: &World, part: Part) -> Result<Seen, Starved>
    ensures { IfOk result (λ s. s ≡ seen.Typed (type_of world.now part.subtype) (part_value world.now part)) }
{
    let ty = type_of(world, part.subtype);
    match part_value(alloc, world, part) {
        Ok(x) => Ok(Seen::Typed(ty, x)),
        Err(error) => Err(error),
    }
}

/// The value that a name at a place is. A package, a subtype and a procedure are none (L12), nor is a range (L19) or an
/// attribute without its argument (L10). `Err` where memory was refused.
pub fn value_of(alloc: Global, scope: &Scope, place: Place, prefix: Prefix) -> Result<Seen, Starved>
    ensures { IfOk result (λ s. s ≡ value_of (scope_of scope.now) place prefix) }
{
    match prefix {
        Prefix::Package | Prefix::Subtype(_) => Ok(refused(Code::L12, place)),
        Prefix::Routine(number) => {
            let routine = scope.world().routine(number);
            routine_value(alloc, scope, place, number, routine)
        }
        Prefix::Called(_, arguments) => Ok(no_function(place, arguments)),
        Prefix::Mapping(_, _, _) => Ok(refused(Code::L10, place)),
        Prefix::Range(range) => {
            drop(range);
            Ok(refused(Code::L19, place))
        }
        Prefix::Constant(ty, x) => Ok(Seen::Typed(ty, x)),
        Prefix::Part(part) => typed_part(alloc, scope.world(), part),
        Prefix::Value(seen) => Ok(seen),
    }
}

fn fault_of(seen: &Seen) -> Option<Refusal>
    ensures { result ≡ fault_of seen.now }
{
    match seen {
        Seen::Refused(refusal) => Some(*refusal),
        _ => None,
    }
}

/// What is refused in a name so far.
pub fn prefix_fault(prefix: &Prefix) -> Option<Refusal>
    ensures { result ≡ prefix_fault prefix.now }
{
    match prefix {
        Prefix::Value(seen) => fault_of(seen),
        Prefix::Called(_, arguments) => found_fault(arguments),
        _ => None,
    }
}
