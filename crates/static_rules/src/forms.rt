//! The forms of types (Ada RM 3.4, 3.5.1, 3.5.4).

ghost use Rattle.std.specs.Prelude.{◌≡◌, ◌&&◌, pos};
ghost use Rattle.ada_values.specs.Scalars.{IsBetween, within};
ghost use Rattle.static_rules.specs.Statics.{base_range, modular_read};
ghost use Rattle.statement_typing.specs.Types.{derived_form, modular_scalar, modulus, positions, signed_scalar};
ghost use Rattle.statement_typing.specs.declared.parts.Definition.TheVariants.{Integer};
ghost use Rattle.type_base.specs.declared.world.Discrete.TheVariants as discrete;

use crate::numbers::integer_number;
use ada_values::{Place, Scalar};
use statement_typing::Definition;
use type_base::{Code, Discrete, Form, Refusal, Seen, World};
use typed_units::Bounds;
use typing_rules::Found;

/// Whether a base range has a number.
fn has_number(base: Bounds, number: i128) -> bool
    ensures { result ≡ within base.first base.last number }
{
    base.first <= number && number <= base.last
}

/// Whether a base range has these bounds.
fn has(base: Bounds, bounds: Bounds) -> bool
    ensures { result ≡ (within base.first base.last bounds.first && within base.first base.last bounds.last) }
{
    has_number(base, bounds.first) && has_number(base, bounds.last)
}

/// The smallest base range of 8, 16, 32 or 64 bits that has these bounds; that of 64 bits where none does.
fn base_range(bounds: Bounds) -> Bounds
    ensures { result ≡ base_range bounds }
{
    let byte = Bounds {
        first: -128,
        last: 127,
    };
    let short = Bounds {
        first: -32_768,
        last: 32_767,
    };
    let word = Bounds {
        first: -2_147_483_648,
        last: 2_147_483_647,
    };
    if has(byte, bounds) {
        byte
    } else if has(short, bounds) {
        short
    } else if has(word, bounds) {
        word
    } else {
        Bounds {
            first: -9_223_372_036_854_775_808,
            last: 9_223_372_036_854_775_807,
        }
    }
}

/// The first subtype of a signed integer type with these bounds.
pub fn signed_scalar(bounds: Bounds) -> Scalar
    ensures { result ≡ signed_scalar bounds }
{
    let base = base_range(bounds);
    Scalar {
        lo: bounds.first,
        hi: bounds.last,
        base_lo: base.first,
        base_hi: base.last,
        modulus: None,
    }
}

/// The modulus of a type that is seen at a place, from 2 to 2 ** 32; L20 is broken by another.
pub fn modulus(world: &World, place: Place, seen: &Seen) -> Found<i128>
    ensures { result ≡ modulus world.now place seen.now }
{
    match integer_number(world, place, seen) {
        Found::Refused(refusal) => Found::Refused(refusal),
        Found::Unknown => Found::Unknown,
        Found::Is(number) => {
            if 2 <= number && number <= 4_294_967_296 {
                Found::Is(number)
            } else {
                Found::Refused(Refusal {
                    code: Code::L20,
                    place,
                })
            }
        }
    }
}

/// A modular type, by its modulus.
fn modular_type(modulus: i128) -> Definition
    requires { IsBetween (pos 2) (pos 4294967296) modulus }
    ensures { result ≡ Integer discrete.Modular (modular_scalar modulus) }
{
    let last = modulus - 1;
    Definition::Integer(
        Discrete::Modular,
        Scalar {
            lo: 0,
            hi: last,
            base_lo: 0,
            base_hi: last,
            modulus: Some(modulus),
        },
    )
}

/// The modular type whose modulus is seen at a place, from 2 to 2 ** 32; L20 is broken by another.
pub fn modular_form(world: &World, place: Place, seen: &Seen) -> Found<Definition>
    ensures { result ≡ modular_read world.now place seen.now }
{
    match modulus(world, place, seen) {
        Found::Refused(refusal) => Found::Refused(refusal),
        Found::Unknown => Found::Unknown,
        Found::Is(number) => Found::Is(modular_type(number)),
    }
}

/// The form of an enumeration type with so many literals.
pub fn positions(count: usize) -> Form
    ensures { result ≡ positions count }
{
    let last = if count == 0 { 0 } else { count - 1 };
    let last = last as i128;
    Form::Number(
        Discrete::Enumeration,
        Scalar {
            lo: 0,
            hi: last,
            base_lo: 0,
            base_hi: last,
            modulus: None,
        },
    )
}

/// The type that is derived from one of this form: nothing is derived from Boolean, which is L20 at the place.
pub fn derived_form(place: Place, form: Form) -> Found<Definition>
    ensures { result ≡ derived_form place form }
{
    match form {
        Form::Number(discrete, scalar) => Found::Is(Definition::Integer(discrete, scalar)),
        Form::Truth => Found::Refused(Refusal {
            code: Code::L20,
            place,
        }),
        Form::Array { .. } | Form::Record { .. } => Found::Is(Definition::Single(form)),
    }
}
