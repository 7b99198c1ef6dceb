//! The values of objects at package level, which are static or aggregates of static values.

ghost use Rattle.std.specs.Prelude.{◌≡◌, Some, IfOk};
ghost use Rattle.std.specs.Option.{option_map};
ghost use Rattle.program_scope.specs.Homes.{home_of};
ghost use Rattle.reading_scope.specs.Scopes.{scope_of};
ghost use Rattle.statement_typing.specs.Files.{scope};
ghost use Rattle.statement_typing.specs.Objects.{settled_value};
ghost use Rattle.syntax_view.specs.View.{expr};
ghost use Rattle.type_base.specs.declared.seen.Moment.TheVariants.{Elsewhere};
ghost use Rattle.typing_rules.specs.Fits.{found_then, with_found};

use crate::numbers::place_of;
use ada_syntax::Expr as Tree;
use ada_values::Value;
use program_scope::Home;
use reading_scope::Scope;
use static_values::settled;
use std::alloc::Global;
use type_base::{Moment, Starved, World};
use typed_units::{Expr, Fitted};
use typing_rules::Found;

fn in_option(found: Found<Value>) -> Found<Option<Value>>
    ensures { result ≡ with_found Some found }
{
    match found {
        Found::Is(value) => Found::Is(Some(value)),
        Found::Unknown => Found::Unknown,
        Found::Refused(refusal) => Found::Refused(refusal),
    }
}

/// The value itself of what is fitted into a subtype.
fn settled_value(
    alloc: Global,
    scope: &Scope,
    value: &Option<Tree>,
    fitted: &Option<Fitted<Expr>>,
) -> Result<Found<Option<Value>>, Starved>
    ensures { IfOk result (λ f. f ≡ settled_value (scope_of scope.now) (option_map expr value.now) fitted.now) }
{
    match value {
        None => Ok(Found::Is(None)),
        Some(e) => match fitted {
            None => Ok(Found::Is(None)),
            Some(fitted) => match settled(alloc, place_of(scope, e), fitted) {
                Ok(found) => Ok(in_option(found)),
                Err(error) => Err(error),
            },
        },
    }
}

fn settled_where(
    alloc: Global,
    scope: &Scope,
    value: &Option<Tree>,
    found: &Found<Option<Fitted<Expr>>>,
) -> Result<Found<Option<Value>>, Starved>
    ensures { IfOk result (λ f. f ≡ found_then found.now (settled_value (scope_of scope.now) (option_map expr value.now))) }
{
    match found {
        Found::Refused(refusal) => Ok(Found::Refused(*refusal)),
        Found::Unknown => Ok(Found::Unknown),
        Found::Is(fitted) => settled_value(alloc, scope, value, fitted),
    }
}

/// The value itself of an object at package level, whose value in its subtype was found; L27 is broken where it isn't static and no
/// aggregate of static values. `Err` where memory was refused, as it is for an aggregate of 2^32 components or more.
pub fn found_settled(
    alloc: Global,
    home: &Home,
    world: &World,
    value: &Option<Tree>,
    found: &Found<Option<Fitted<Expr>>>,
) -> Result<Found<Option<Value>>, Starved>
    ensures { IfOk result (λ f. f ≡ found_then found.now (settled_value (scope (home_of home.now) Elsewhere world.now) (option_map expr value.now))) }
{
    settled_where(alloc, &home.scope(Moment::Elsewhere, world), value, found)
}
