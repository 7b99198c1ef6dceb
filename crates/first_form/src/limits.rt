//! The limits that a form keeps.

ghost use Rattle.std.specs.Prelude.{◌≡◌};
ghost use Rattle.std.specs.List.{list_all};
ghost use Rattle.first_form.specs.Names.{is_name};
ghost use Rattle.first_form.specs.Form.{are_assertions, are_params, is_assertion, is_form, is_operand};

use crate::form::{Assertion, FirstForm, Operand};
use crate::names::{are_different, is_name, same_name};
use ada_values::{INTEGER_LAST, NameText};

/// The most parameters.
const MOST_PARAMS: usize = 8;

/// The most assertions.
const MOST_ASSERTIONS: usize = 500;

/// Whether an operand is a number of Integer, or a name that isn't the procedure's.
fn is_operand(name: &[u8], operand: &Operand) -> bool
    ensures { result ≡ is_operand name.now operand.now }
{
    match operand {
        Operand::Number(number) => i128::from(*number) <= INTEGER_LAST,
        Operand::Name(other) => is_name(other.as_bytes()) && !same_name(other.as_bytes(), name),
    }
}

/// Whether both operands of an assertion are such.
fn is_assertion(name: &[u8], assertion: &Assertion) -> bool
    ensures { result ≡ is_assertion name.now assertion.now }
{
    is_operand(name, &assertion.left.operand) && is_operand(name, &assertion.right.operand)
}

/// Whether all are names that a file may declare.
fn are_names(names: &[NameText]) -> bool
    ensures { result ≡ list_all is_name names.now }
{
    names.iter().all(|name| is_name(name.as_bytes()))
}

/// Whether the parameters are 1 to 8 names that differ.
fn are_params(params: &[NameText]) -> bool
    ensures { result ≡ are_params params.now }
{
    !params.is_empty() && params.len() <= MOST_PARAMS && are_names(params) && are_different(params)
}

/// Whether all assertions have such operands.
fn have_operands(name: &[u8], assertions: &[Assertion]) -> bool
    ensures { result ≡ list_all (is_assertion name.now) assertions.now }
{
    assertions
        .iter()
        .all(|assertion| is_assertion(name, assertion))
}

/// Whether there are 1 to 500 assertions, all with such operands.
fn are_assertions(name: &[u8], assertions: &[Assertion]) -> bool
    ensures { result ≡ are_assertions name.now assertions.now }
{
    !assertions.is_empty() && assertions.len() <= MOST_ASSERTIONS && have_operands(name, assertions)
}

/// Whether the form keeps its limits: it has 1 to 8 parameters that differ and 1 to 500 assertions, in any case of
/// letters no name is predefined or longer than 100 bytes, numbers are at most `Integer'Last`, and no operand is the
/// procedure's name.
pub fn is_form(form: &FirstForm) -> bool
    ensures { result ≡ is_form form.now }
{
    is_name(form.name.as_bytes())
        && are_params(form.params.as_slice())
        && are_assertions(form.name.as_bytes(), form.assertions.as_slice())
}
