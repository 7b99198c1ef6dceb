//! Linear forms.

use crate::kind::NumbersKind;
use case_parts::{CaseFault, number_of, push, push_number, push_term_text, term_of};
use linear_forms::{
    FormFault, LinearForm, Part, add_scaled, floor_quotient, form_of, gcd, tighten,
};
use logic_terms::Term;
use std::alloc::Global;

/// Adds a coefficient, `*` and a variable.
fn push_part(alloc: Global, line: &mut String, part: &Part) -> Result<(), CaseFault> {
    push(line, " ")?;
    push_number(line, part.coefficient)?;
    push(line, "*")?;
    push_term_text(alloc, line, &part.variable)
}

/// Adds a constant and the parts.
fn push_form(alloc: Global, line: &mut String, form: &LinearForm) -> Result<(), CaseFault> {
    push_number(line, form.constant)?;
    for part in form.parts.as_slice() {
        push_part(alloc, line, part)?;
    }
    Ok(())
}

/// Adds a form, if there is one.
fn push_made(
    alloc: Global,
    line: &mut String,
    made: Result<LinearForm, FormFault>,
) -> Result<(), CaseFault> {
    match made {
        Ok(form) => push_form(alloc, line, &form),
        Err(FormFault::Wide) => push(line, "wide"),
        Err(FormFault::Starved) => Err(CaseFault::Starved),
    }
}

/// `form t`
pub fn form(alloc: Global, line: &mut String, t: &Term) -> Result<(), CaseFault> {
    push_made(alloc, line, form_of(alloc, t))
}

/// The form of a term; a term without one is no case.
fn form_of_case(alloc: Global, t: &Term) -> Result<LinearForm, CaseFault> {
    match form_of(alloc, t) {
        Ok(form) => Ok(form),
        Err(FormFault::Wide) => Err(CaseFault::BadCase),
        Err(FormFault::Starved) => Err(CaseFault::Starved),
    }
}

/// The form of the term that a word is.
pub fn form_at(alloc: Global, word: &[u8]) -> Result<LinearForm, CaseFault> {
    let t = term_of(alloc, word)?;
    form_of_case(alloc, t.get())
}

/// `tighten t`
pub fn tightened(alloc: Global, line: &mut String, t: &Term) -> Result<(), CaseFault> {
    let form = form_of_case(alloc, t)?;
    match tighten(alloc, &form) {
        Ok(tight) => push_form(alloc, line, &tight),
        Err(_) => Err(CaseFault::Starved),
    }
}

/// `add_scaled t m u n`
pub fn scaled_sum(
    alloc: Global,
    line: &mut String,
    first: &[u8],
    by_first: &[u8],
    second: &[u8],
    by_second: &[u8],
) -> Result<(), CaseFault> {
    let m = number_of(alloc, by_first)?;
    let n = number_of(alloc, by_second)?;
    let f = form_at(alloc, first)?;
    let g = form_at(alloc, second)?;
    push_made(alloc, line, add_scaled(alloc, &f, m, &g, n))
}

/// `gcd a b`, `floor a b`
pub fn of_numbers(
    alloc: Global,
    line: &mut String,
    kind: NumbersKind,
    a: &[u8],
    b: &[u8],
) -> Result<(), CaseFault> {
    let a = number_of(alloc, a)?;
    let b = number_of(alloc, b)?;
    match kind {
        NumbersKind::Divisor => {
            let divisor = gcd(a.unsigned_abs(), b.unsigned_abs());
            Ok(write!(line, "{divisor}")?)
        }
        NumbersKind::Floor if b > 0 => push_number(line, floor_quotient(a, b.unsigned_abs())),
        NumbersKind::Floor => Err(CaseFault::BadCase),
    }
}
