//! The values of named numbers (Ada RM 3.3.2).

ghost use Rattle.std.specs.Prelude.{◌≡◌, IfOk};
ghost use Rattle.front_codes.specs.declared.codes.Code.TheVariants.{L27};
ghost use Rattle.program_scope.specs.Homes.{home_of};
ghost use Rattle.reading_scope.specs.Scopes.{scope_of};
ghost use Rattle.statement_typing.specs.Asked.{place_of};
ghost use Rattle.statement_typing.specs.Files.{scope};
ghost use Rattle.statement_typing.specs.Objects.{named_number};
ghost use Rattle.statement_typing.specs.Subtypes.{is_of_integers, part, static_number};
ghost use Rattle.syntax_view.specs.View.{expr};
ghost use Rattle.type_base.specs.declared.seen.Moment.TheVariants.{Elsewhere};
ghost use Rattle.type_base.specs.declared.seen.Want.TheVariants.{Free};

use ada_syntax::Expr as Tree;
use ada_values::Place;
use expression_reader::seen;
use expression_rules::number_in;
use program_scope::Home;
use reading_scope::Scope;
use std::alloc::Global;
use type_base::{Code, Form, Moment, Refusal, Seen, Starved, Want, World};
use typing_rules::Found;

/// The place where an expression begins.
pub(crate) fn place_of(scope: &Scope, e: &Tree) -> Place
    ensures { result ≡ place_of (scope_of scope.now) (expr e.now) }
{
    scope.place(e.span.from)
}

fn is_of_integers(form: Option<Form>) -> bool
    ensures { result ≡ is_of_integers form }
{
    match form {
        None => false,
        Some(form) => form.is_integer(),
    }
}

/// The number that an expression at a place is; L27 is broken where it isn't static.
fn static_number(place: Place, number: Option<i128>) -> Found<i128>
    ensures { result ≡ static_number L27 place number }
{
    match number {
        Some(number) => Found::Is(number),
        None => Found::Refused(Refusal {
            code: Code::L27,
            place,
        }),
    }
}

/// The static integer of any type that is seen at a place; L27 is broken where it isn't static, L8 where it is no integer.
fn named_number(world: &World, place: Place, seen: &Seen) -> Found<i128>
    ensures { result ≡ named_number world.now place seen.now }
{
    match seen {
        Seen::Refused(refusal) => Found::Refused(*refusal),
        Seen::Unknown => Found::Unknown,
        Seen::Number(number) => Found::Is(*number),
        Seen::Typed(ty, x) => {
            if is_of_integers(world.form(*ty)) {
                static_number(place, number_in(x))
            } else {
                Found::Refused(Refusal {
                    code: Code::L8,
                    place,
                })
            }
        }
    }
}

fn number_seen(alloc: Global, scope: &Scope, e: &Tree) -> Result<Found<i128>, Starved>
    ensures { IfOk result (λ f. f ≡ part (scope_of scope.now) Free (expr e.now) (named_number (scope_of scope.now).world (place_of (scope_of scope.now) (expr e.now)))) }
{
    let seen = seen(alloc, scope, Want::Free, e)?;
    let found = named_number(scope.world(), place_of(scope, e), &seen);
    drop(seen);
    Ok(found)
}

/// The value of a named number. `Err` where memory was refused.
pub fn number_read(
    alloc: Global,
    home: &Home,
    world: &World,
    e: &Tree,
) -> Result<Found<i128>, Starved>
    ensures { IfOk result (λ f. f ≡ part (scope (home_of home.now) Elsewhere world.now) Free (expr e.now) (named_number world.now (place_of (scope (home_of home.now) Elsewhere world.now) (expr e.now)))) }
{
    number_seen(alloc, &home.scope(Moment::Elsewhere, world), e)
}
