//! What statements ask of names and ranges.

ghost use Rattle.std.specs.Prelude.{◌≡◌, IfOk};
ghost use Rattle.reading_scope.specs.Scopes.{scope_of};
ghost use Rattle.syntax_view.specs.View.{expr, name_of, range_of};
ghost use Rattle.front_codes.specs.declared.codes.Code.TheVariants as code';
ghost use Rattle.type_base.specs.Demands.{broken};
ghost use Rattle.type_base.specs.Lookups.{routine_at};
ghost use Rattle.typing_rules.specs.declared.prefix.Found.TheVariants as found';
ghost use Rattle.typing_rules.specs.Fits as fits;
ghost use Rattle.typing_rules.specs.Reading as reading;
ghost use Rattle.typing_rules.specs.Values as values;

use crate::Starved;
use crate::walk::{name_seen, range_found};
use ada_syntax::{Expr as Tree, Name, Range};
use ada_values::Place;
use front_codes::{Code, Refusal};
use name_values::{formals_of, no_arguments, value_of};
use prefix_rules::variable;
use reading_scope::Scope;
use sqlite_items::Items;
use std::alloc::Global;
use type_base::{Seen, Want};
use typed_units::{Argument, Expr};
use typing_rules::{Between, Call, Found, Part, Prefix};

/// The variable that the target of an assignment is; by L8 it is one. `Err` where memory was refused.
pub fn target_seen(alloc: Global, scope: &Scope, name: &Name<Tree>) -> Result<Found<Part>, Starved>
    ensures { IfOk result (λ f. f ≡ reading.target_seen (scope_of scope.now) (name_of expr name.now)) }
{
    let prefix = name_seen(alloc, scope, Want::Free, name)?;
    variable(alloc, scope, Code::L8, scope.place(name.span.from), prefix)
}

/// The range of a loop or a quantified expression, by a rule. `Err` where memory was refused.
pub fn range_seen(
    alloc: Global,
    scope: &Scope,
    code: Code,
    range: &Range<Tree>,
) -> Result<Found<Between>, Starved>
    ensures { IfOk result (λ b. b ≡ reading.range_seen (scope_of scope.now) code (range_of expr range.now)) }
{
    range_found(alloc, scope, code, range)
}

fn call_made(number: u32, arguments: Found<Items<Argument<Expr>>>) -> Found<Call>
    ensures { result ≡ fits.with_found (reading.call_made number) arguments }
{
    match arguments {
        Found::Refused(refusal) => Found::Refused(refusal),
        Found::Unknown => Found::Unknown,
        Found::Is(arguments) => Found::Is(Call {
            routine: number,
            arguments,
        }),
    }
}

fn no_procedure(place: Place) -> Found<Call>
    ensures { result ≡ found'.Refused (broken code'.L12 place) }
{
    Found::Refused(Refusal {
        code: Code::L12,
        place,
    })
}

fn lone_call(alloc: Global, scope: &Scope, place: Place, number: u32) -> Found<Call>
    ensures { result ≡ reading.lone_call (scope_of scope.now) place number (routine_at (scope_of scope.now).world number) }
{
    match scope.world().routine(number) {
        None => Found::Unknown,
        Some(routine) => match routine.result {
            None => {
                let formals = formals_of(scope.world(), routine);
                call_made(number, no_arguments(alloc, place, formals))
            }
            Some(_) => no_procedure(place),
        },
    }
}

fn no_call(place: Place, seen: Seen) -> Found<Call>
    ensures { result ≡ reading.no_call place seen }
{
    match seen {
        Seen::Refused(refusal) => Found::Refused(refusal),
        Seen::Unknown => Found::Unknown,
        Seen::Number(_) => no_procedure(place),
        Seen::Typed(_, x) => {
            drop(x);
            no_procedure(place)
        }
    }
}

fn value_called(
    alloc: Global,
    scope: &Scope,
    place: Place,
    prefix: Prefix,
) -> Result<Found<Call>, Starved>
    ensures { IfOk result (λ f. f ≡ reading.no_call place (values.value_of (scope_of scope.now) place prefix)) }
{
    let value = value_of(alloc, scope, place, prefix)?;
    Ok(no_call(place, value))
}

fn called(
    alloc: Global,
    scope: &Scope,
    place: Place,
    prefix: Prefix,
) -> Result<Found<Call>, Starved>
    ensures { IfOk result (λ f. f ≡ reading.called (scope_of scope.now) place prefix) }
{
    match prefix {
        Prefix::Called(number, arguments) => Ok(call_made(number, arguments)),
        Prefix::Routine(number) => Ok(lone_call(alloc, scope, place, number)),
        Prefix::Package => value_called(alloc, scope, place, Prefix::Package),
        Prefix::Subtype(subtype) => value_called(alloc, scope, place, Prefix::Subtype(subtype)),
        Prefix::Mapping(mapping, tick, subtype) => {
            value_called(alloc, scope, place, Prefix::Mapping(mapping, tick, subtype))
        }
        Prefix::Range(range) => value_called(alloc, scope, place, Prefix::Range(range)),
        Prefix::Constant(ty, x) => value_called(alloc, scope, place, Prefix::Constant(ty, x)),
        Prefix::Part(part) => value_called(alloc, scope, place, Prefix::Part(part)),
        Prefix::Value(seen) => value_called(alloc, scope, place, Prefix::Value(seen)),
    }
}

/// The call that a name as a statement is; by L12 it is a procedure's. `Err` where memory was refused.
pub fn call_seen(alloc: Global, scope: &Scope, name: &Name<Tree>) -> Result<Found<Call>, Starved>
    ensures { IfOk result (λ f. f ≡ reading.call_seen (scope_of scope.now) (name_of expr name.now)) }
{
    let prefix = name_seen(alloc, scope, Want::Free, name)?;
    called(alloc, scope, scope.place(name.span.from), prefix)
}
