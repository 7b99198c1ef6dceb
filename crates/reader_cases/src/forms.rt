//! Which texts have a form, and what it holds.

ghost use Rattle.std.specs.Prelude.{◌<◌, ◌^◌, length};

use ada_values::Place;
use case_lines::push_shown;
use first_form::{Assertion, FirstForm, FormFault, Operand, Placed, form_of};
use spark_reader::read;
use std::alloc::{AllocError, Global};

fn push_operand(out: &mut String, placed: &Placed) -> Result<(), AllocError> {
    match &placed.operand {
        Operand::Name(name) => push_shown(out, name.as_bytes())?,
        Operand::Number(number) => write!(out, "{number}")?,
    }
    push_place(out, placed.place)
}

fn push_place(out: &mut String, place: Place) -> Result<(), AllocError> {
    let (file, line, column) = (place.file, place.line, place.column);
    write!(out, " {file}:{line}:{column}")
}

fn push_assertion(out: &mut String, assertion: &Assertion) -> Result<(), AllocError> {
    out.push(';')?;
    push_place(out, assertion.place)?;
    out.push(' ')?;
    push_operand(out, &assertion.left)?;
    let relation = assertion.relation;
    write!(out, " {relation:?} ")?;
    push_operand(out, &assertion.right)
}

fn push_whole(out: &mut String, form: &FirstForm) -> Result<(), AllocError> {
    push_shown(out, form.name.as_bytes())?;
    for param in form.params.as_slice() {
        out.push(' ')?;
        push_shown(out, param.as_bytes())?;
    }
    for assertion in form.assertions.as_slice() {
        push_assertion(out, assertion)?;
    }
    Ok(())
}

/// The form of a text: its name, its parameters, and each assertion with the file, the line and the column of its pragma
/// and of its operands; or that it has none.
pub fn push_form(alloc: Global, out: &mut String, text: &[u8]) -> Result<(), AllocError>
    requires { length text.now < 2 ^ 31 }
{
    let Ok(unit) = read(alloc, text) else {
        return out.push_str("no tree");
    };
    match form_of(alloc, text, &unit) {
        Ok(form) => push_whole(out, &form),
        Err(FormFault::NotBuilt) => out.push_str("no form"),
        Err(FormFault::Starved) => out.push_str("Starved"),
    }
}
