//! Static numbers (Ada RM 3.5, 3.5.4, 4.9).

ghost use Rattle.std.specs.Prelude.{◌≡◌};
ghost use Rattle.statement_typing.specs.Subtypes.{integer_number, is_of_integers, static_in, static_number, value_of_type};
ghost use Rattle.static_rules.specs.Statics.{number_placed};

use ada_values::Place;
use expression_rules::number_in;
use type_base::{Code, Form, Refusal, Seen, World};
use typed_units::Expr;
use typing_rules::Found;

/// The number that an expression at a place is; the rule is broken where it isn't static.
pub fn static_number(code: Code, place: Place, number: Option<i128>) -> Found<i128>
    ensures { result ≡ static_number code place number }
{
    match number {
        None => Found::Refused(Refusal { code, place }),
        Some(number) => Found::Is(number),
    }
}

/// The number or position that an expression at a place is; the rule is broken where it isn't static.
pub fn static_in(code: Code, place: Place, x: &Expr) -> Found<i128>
    ensures { result ≡ static_in code place x.now }
{
    static_number(code, place, number_in(x))
}

fn is_of_integers(form: Option<Form>) -> bool
    ensures { result ≡ is_of_integers form }
{
    match form {
        None => false,
        Some(form) => form.is_integer(),
    }
}

/// The static number of any integer type that is seen at a place; L20 is broken where it is something else.
pub fn integer_number(world: &World, place: Place, seen: &Seen) -> Found<i128>
    ensures { result ≡ integer_number world.now place seen.now }
{
    match seen {
        Seen::Refused(refusal) => Found::Refused(*refusal),
        Seen::Unknown => Found::Unknown,
        Seen::Number(number) => Found::Is(*number),
        Seen::Typed(ty, x) => {
            if is_of_integers(world.form(*ty)) {
                static_in(Code::L20, place, x)
            } else {
                Found::Refused(Refusal {
                    code: Code::L20,
                    place,
                })
            }
        }
    }
}

/// A number at a place, which is to be of a type of this form.
fn number_placed(code: Code, place: Place, number: i128, form: Option<Form>) -> Found<i128>
    ensures { result ≡ number_placed code place number form }
{
    match form {
        None => Found::Unknown,
        Some(Form::Number(discrete, scalar)) => {
            if !discrete.is_whole() {
                Found::Refused(Refusal { code, place })
            } else if scalar.base_lo <= number && number <= scalar.base_hi {
                Found::Is(number)
            } else {
                Found::Refused(Refusal {
                    code: Code::L29,
                    place,
                })
            }
        }
        Some(_) => Found::Refused(Refusal { code, place }),
    }
}

/// The static value of the type of a number that is seen at a place; the rule is broken where it is something else, and L29
/// where it is a number that the type's base range doesn't have.
pub fn value_of_type(world: &World, code: Code, ty: u32, place: Place, seen: &Seen) -> Found<i128>
    ensures { result ≡ value_of_type world.now code ty place seen.now }
{
    match seen {
        Seen::Refused(refusal) => Found::Refused(*refusal),
        Seen::Unknown => Found::Unknown,
        Seen::Number(number) => number_placed(code, place, *number, world.form(ty)),
        Seen::Typed(other, x) => {
            if ty == *other {
                static_in(code, place, x)
            } else {
                Found::Refused(Refusal { code, place })
            }
        }
    }
}
