//! Which parameter a name is, and where a name stands that is none.

ghost use Rattle.std.specs.Prelude.{◌≡◌, ◌^◌, ◌<◌, length};
ghost use Rattle.first_form.specs.Form.{IsForm};
ghost use Rattle.first_form.specs.Places.{first_unknown, is_unknown, position_of, unknown_in};

use crate::form::{Assertion, FirstForm, Operand};
use crate::names::same_name;
use ada_values::{NameList, NameText, Place};

/// The place from 0 of the parameter of this name, without regard to case.
pub fn position_of(params: &NameList, name: &NameText) -> Option<u32>
    requires { length params.now < 2 ^ 32 }
    ensures { result ≡ position_of params.now name.now }
{
    for (i, param) in params.as_slice().iter().enumerate() {
        if same_name(param.as_bytes(), name.as_bytes()) {
            return Some(i as u32);
        }
    }
    None
}

/// Whether an operand is a name and no parameter.
fn is_unknown(params: &NameList, operand: &Operand) -> bool
    requires { length params.now < 2 ^ 32 }
    ensures { result ≡ is_unknown params.now operand.now }
{
    match operand {
        Operand::Number(_) => false,
        Operand::Name(name) => position_of(params, name).is_none(),
    }
}

/// The place of an assertion's first operand that is a name and no parameter.
fn unknown_in(params: &NameList, assertion: &Assertion) -> Option<Place>
    requires { length params.now < 2 ^ 32 }
    ensures { result ≡ unknown_in params.now assertion.now }
{
    if is_unknown(params, &assertion.left.operand) {
        return Some(assertion.left.place);
    }
    if is_unknown(params, &assertion.right.operand) {
        return Some(assertion.right.place);
    }
    None
}

/// The line and the column, both from 1, of the first operand in the order of the text that is a name and no parameter.
pub fn first_unknown(form: &FirstForm) -> Option<(u32, u32)>
    requires { IsForm form.now }
    ensures { result ≡ first_unknown form.now }
{
    for assertion in form.assertions.as_slice() {
        if let Some(place) = unknown_in(&form.params, assertion) {
            return Some((place.line, place.column));
        }
    }
    None
}
