//! Values that are to be of a type.

ghost use Rattle.std.specs.Prelude.{◌≡◌, IfOk};
ghost use Rattle.reading_scope.specs.Scopes.{scope_of};
ghost use Rattle.typing_rules.specs.Names.{of_type, typed_as};

use ada_values::Place;
use reading_scope::Scope;
use std::alloc::Global;
use type_base::{Code, Seen, Starved, placed_number, refused};

/// An expression at a place that by a rule is of a type; a number takes the type. It is `Refused` by L29 where it is a number
/// outside the type's base range. `Err` where memory was refused.
pub fn typed_as(
    alloc: Global,
    scope: &Scope,
    code: Code,
    ty: u32,
    place: Place,
    seen: Seen,
) -> Result<Seen, Starved>
    ensures { IfOk result (λ s. s ≡ typed_as (scope_of scope.now) code ty place seen) }
{
    match seen {
        Seen::Refused(refusal) => Ok(Seen::Refused(refusal)),
        Seen::Unknown => Ok(Seen::Unknown),
        Seen::Number(number) => {
            placed_number(alloc, scope.world(), code, place, place, ty, number)
        }
        Seen::Typed(own, x) => {
            if ty == own {
                Ok(Seen::Typed(ty, x))
            } else {
                drop(x);
                Ok(refused(code, place))
            }
        }
    }
}

/// An expression at a place that by a rule is of the type of a subtype; a number takes that type. Where the world
/// doesn't have the subtype it is `Unknown`, but for what is refused in it. `Err` where memory was refused.
pub fn of_type(
    alloc: Global,
    scope: &Scope,
    code: Code,
    subtype: u32,
    place: Place,
    seen: Seen,
) -> Result<Seen, Starved>
    ensures { IfOk result (λ s. s ≡ of_type (scope_of scope.now) code subtype place seen) }
{
    match scope.world().type_of(subtype) {
        Some(ty) => typed_as(alloc, scope, code, ty, place, seen),
        None => match seen {
            Seen::Refused(refusal) => Ok(Seen::Refused(refusal)),
            Seen::Unknown | Seen::Number(_) => Ok(Seen::Unknown),
            Seen::Typed(_, x) => {
                drop(x);
                Ok(Seen::Unknown)
            }
        },
    }
}
