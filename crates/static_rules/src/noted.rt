//! Subtypes that indications give.

ghost use Rattle.std.specs.Prelude.{◌≡◌};
ghost use Rattle.static_rules.specs.Statics.{bounded, narrowed};
ghost use Rattle.statement_typing.specs.Routines.{named_subtype};
ghost use Rattle.statement_typing.specs.Subtypes.{is_constrained, noted_form, noted_subtype, whole_of};
ghost use Rattle.typing_rules.specs.Fits.{with_found};

use ada_values::{Place, Scalar};
use statement_typing::Noted;
use type_base::{Code, Discrete, Form, Refusal, Subtype, World};
use typed_units::Bounds;
use typing_rules::Found;

/// The subtype that an indication gives; none where it is one by number that the world doesn't have.
pub fn noted_subtype(world: &World, noted: Noted) -> Option<Subtype>
    ensures { result ≡ noted_subtype world.now noted }
{
    match noted {
        Noted::Known(number) => world.subtype(number),
        Noted::New(subtype) => Some(subtype),
    }
}

fn noted_form(world: &World, noted: Noted) -> Option<Form>
    ensures { result ≡ noted_form world.now noted }
{
    match noted_subtype(world, noted) {
        Some(subtype) => Some(subtype.form),
        None => None,
    }
}

/// Whether objects and parts may have a subtype of this form: it is no unconstrained array's.
pub fn is_constrained(form: Option<Form>) -> bool
    ensures { result ≡ is_constrained form }
{
    match form {
        None => true,
        Some(form) => form.is_comparable(),
    }
}

/// A subtype that an object or a part is to have; the rule is broken at a place where it is an unconstrained array's.
pub fn whole_of(world: &World, code: Code, place: Place, noted: Noted) -> Found<Noted>
    ensures { result ≡ whole_of world.now code place noted }
{
    if is_constrained(noted_form(world, noted)) {
        Found::Is(noted)
    } else {
        Found::Refused(Refusal { code, place })
    }
}

/// The number of a subtype that is to have a name; L27 is broken at a place where it has a constraint of its own.
pub fn named_subtype(place: Place, noted: Noted) -> Found<u32>
    ensures { result ≡ named_subtype place noted }
{
    match noted {
        Noted::Known(number) => Found::Is(number),
        Noted::New(_) => Found::Refused(Refusal {
            code: Code::L27,
            place,
        }),
    }
}

/// A subtype of numbers or positions with the bounds of a constraint.
pub fn narrowed(ty: u32, discrete: Discrete, scalar: Scalar, bounds: Found<Bounds>) -> Found<Noted>
    ensures { result ≡ with_found (narrowed ty discrete scalar) bounds }
{
    match bounds {
        Found::Refused(refusal) => Found::Refused(refusal),
        Found::Unknown => Found::Unknown,
        Found::Is(bounds) => {
            let scalar = Scalar {
                lo: bounds.first,
                hi: bounds.last,
                base_lo: scalar.base_lo,
                base_hi: scalar.base_hi,
                modulus: scalar.modulus,
            };
            Found::Is(Noted::New(Subtype {
                of: ty,
                form: Form::Number(discrete, scalar),
            }))
        }
    }
}

/// A subtype of an array type with the bounds of a constraint.
pub fn bounded(ty: u32, index: u32, item: u32, bounds: Found<Bounds>) -> Found<Noted>
    ensures { result ≡ with_found (bounded ty index item) bounds }
{
    match bounds {
        Found::Refused(refusal) => Found::Refused(refusal),
        Found::Unknown => Found::Unknown,
        Found::Is(bounds) => {
            let form = Form::Array {
                index,
                bounds: Some(bounds),
                item,
            };
            Found::Is(Noted::New(Subtype { of: ty, form }))
        }
    }
}
