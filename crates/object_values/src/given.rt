//! The values of constants, and the initial values of variables (Ada RM 3.3.1).

ghost use Rattle.std.specs.Prelude.{◌≡◌, Some, IfOk};
ghost use Rattle.std.specs.Option.{option_map};
ghost use Rattle.program_scope.specs.Homes.{home_of};
ghost use Rattle.reading_scope.specs.Scopes.{scope_of};
ghost use Rattle.statement_typing.specs.Files.{scope};
ghost use Rattle.statement_typing.specs.Objects.{given, initial, wanted};
ghost use Rattle.syntax_view.specs.View.{expr};
ghost use Rattle.type_base.specs.declared.seen.Moment.TheVariants.{Elsewhere};
ghost use Rattle.typing_rules.specs.Fits.{both, with_found};

use crate::numbers::place_of;
use ada_syntax::Expr as Tree;
use ada_values::Place;
use expression_reader::seen;
use program_scope::Home;
use reading_scope::Scope;
use statement_rules::{with_refused, with_unknown};
use statement_typing::Noted;
use std::alloc::Global;
use type_base::{Code, Moment, Refusal, Starved, Want, World};
use typed_units::{Expr, Fitted};
use typing_rules::Found;
use value_rules::fit;

/// What the value of an object is read for, whose subtype is this or has this number.
fn wanted(found: &Found<Noted>, subtype: u32) -> Want
    ensures { result ≡ wanted found.now subtype }
{
    match found {
        Found::Is(_) => Want::Subtype(subtype),
        Found::Unknown | Found::Refused(_) => Want::Unknown,
    }
}

/// A value that is to be of the subtype of a number.
fn given(
    alloc: Global,
    scope: &Scope,
    want: Want,
    subtype: u32,
    e: &Tree,
) -> Result<Found<Fitted<Expr>>, Starved>
    ensures { IfOk result (λ f. f ≡ given (scope_of scope.now) want subtype (expr e.now)) }
{
    let seen = seen(alloc, scope, want, e)?;
    fit(
        alloc,
        scope.world(),
        Code::L8,
        true,
        subtype,
        place_of(scope, e),
        seen,
    )
}

fn in_option(found: Found<Fitted<Expr>>) -> Found<Option<Fitted<Expr>>>
    ensures { result ≡ with_found Some found }
{
    match found {
        Found::Is(value) => Found::Is(Some(value)),
        Found::Unknown => Found::Unknown,
        Found::Refused(refusal) => Found::Refused(refusal),
    }
}

/// The value of a constant, or the initial value of a variable, which may be left out.
fn initial(
    alloc: Global,
    scope: &Scope,
    place: Place,
    constant: bool,
    want: Want,
    subtype: u32,
    value: &Option<Tree>,
) -> Result<Found<Option<Fitted<Expr>>>, Starved>
    ensures { IfOk result (λ f. f ≡ initial (scope_of scope.now) place constant want subtype (option_map expr value.now)) }
{
    match value {
        Some(e) => Ok(in_option(given(alloc, scope, want, subtype, e)?)),
        None => {
            if constant {
                Ok(Found::Refused(Refusal {
                    code: Code::L27,
                    place,
                }))
            } else {
                Ok(Found::Is(None))
            }
        }
    }
}

/// A value beside its subtype, of which nothing but its refusal is told.
#[tactic(auto, using(crate::proofs::Same::same_found))]
fn beside(found: &Found<Noted>, value: Found<Option<Fitted<Expr>>>) -> Found<Option<Fitted<Expr>>>
    ensures { result ≡ both (λ m f. f) found.now value }
{
    match found {
        Found::Is(_) => value,
        Found::Unknown => with_unknown(value),
        Found::Refused(refusal) => with_refused(*refusal, value),
    }
}

/// The value of an object that is declared at `place`, beside its subtype, which was found and has this number: for a variable it
/// may be left out. `Err` where memory was refused.
pub fn object_value(
    alloc: Global,
    home: &Home,
    world: &World,
    place: Place,
    constant: bool,
    value: &Option<Tree>,
    found: &Found<Noted>,
    subtype: u32,
) -> Result<Found<Option<Fitted<Expr>>>, Starved>
    ensures { IfOk result (λ f. f ≡ both (λ m f. f) found.now (initial (scope (home_of home.now) Elsewhere world.now) place constant (wanted found.now subtype) subtype (option_map expr value.now))) }
{
    let scope = home.scope(Moment::Elsewhere, world);
    let want = wanted(found, subtype);
    match initial(alloc, &scope, place, constant, want, subtype, value) {
        Ok(value) => Ok(beside(found, value)),
        Err(error) => Err(error),
    }
}
