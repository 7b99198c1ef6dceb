//! Forms that a case writes out, and the rows that they have.

use crate::fault::{CaseFault, made, small_number};
use crate::shown::{name_of, names, split};
use ada_values::{NameList, NameText, Place};
use case_lines::named;
use first_form::{
    Assertion, AssertionList, FirstForm, Operand, Placed, first_unknown, is_form, position_of,
};
use form_prover::{Row, rows_of};
use sqlite_items::Items;
use std::alloc::{AllocError, Global};
use typed_units::Relation;

/// The column of a pragma, of its left operand, and of its right one.
const COLUMNS: [u32; 3] = [4, 20, 30];

fn place(line: u32, column: u32) -> Place {
    Place {
        file: 0,
        line,
        column,
    }
}

const RELATIONS: [(&str, Relation); 6] = [
    ("=", Relation::Equal),
    ("/=", Relation::Differs),
    ("<", Relation::Less),
    ("<=", Relation::AtMost),
    (">", Relation::Greater),
    (">=", Relation::AtLeast),
];

/// A number, or else a name.
fn operand(alloc: Global, word: &[u8]) -> Result<Operand, CaseFault> {
    match small_number(word) {
        Ok(number) => Ok(Operand::Number(number)),
        Err(_) => Ok(Operand::Name(name_of(alloc, word)?)),
    }
}

fn placed(alloc: Global, place: Place, word: &[u8]) -> Result<Placed, CaseFault> {
    let operand = operand(alloc, word)?;
    Ok(Placed { place, operand })
}

/// An assertion by four words: its line, an operand, a relation and an operand.
fn assertion(alloc: Global, words: &[Vec<u8>]) -> Result<Assertion, CaseFault> {
    let [line, left, sign, right] = words else {
        return Err(CaseFault::BadCase);
    };
    let line = small_number(line.as_slice())?;
    let Some(relation) = named(&RELATIONS, sign.as_slice()) else {
        return Err(CaseFault::BadCase);
    };
    let left = placed(alloc, place(line, COLUMNS[1]), left.as_slice())?;
    match placed(alloc, place(line, COLUMNS[2]), right.as_slice()) {
        Ok(right) => Ok(Assertion {
            place: place(line, COLUMNS[0]),
            left,
            relation,
            right,
        }),
        Err(fault) => {
            drop(left);
            Err(fault)
        }
    }
}

fn push_assertion(
    alloc: Global,
    assertions: &mut AssertionList,
    words: &[Vec<u8>],
) -> Result<(), CaseFault> {
    made(assertions.push(assertion(alloc, words)?))
}

/// Assertions by four words each.
fn assertions(alloc: Global, text: &[u8]) -> Result<AssertionList, CaseFault> {
    let words = split(alloc, text)?;
    let mut assertions = Items::new(alloc);
    for words in words.as_slice().chunks(4) {
        push_assertion(alloc, &mut assertions, words)?;
    }
    Ok(assertions)
}

/// The form of three words: a name, parameters and assertions.
fn form(alloc: Global, words: &[Vec<u8>]) -> Result<FirstForm, CaseFault> {
    let [name, params, shown] = words else {
        return Err(CaseFault::BadCase);
    };
    let name = name_of(alloc, name.as_slice())?;
    let params = names(alloc, params.as_slice())?;
    match assertions(alloc, shown.as_slice()) {
        Ok(assertions) => Ok(FirstForm {
            name,
            params,
            assertions,
        }),
        Err(fault) => {
            drop(name);
            drop(params);
            Err(fault)
        }
    }
}

/// The line and the column of the first unknown name of a form that keeps the limits.
fn push_unknown(out: &mut String, form: &FirstForm) -> Result<(), AllocError> {
    if !is_form(form) {
        return out.push_str("no form");
    }
    match first_unknown(form) {
        Some((line, column)) => write!(out, "form, unknown name at {line}:{column}"),
        None => out.push_str("form"),
    }
}

/// Whether a form keeps the limits, and the line and the column of its first unknown name.
pub fn push_limits(alloc: Global, out: &mut String, words: &[Vec<u8>]) -> Result<(), CaseFault> {
    match form(alloc, words) {
        Ok(form) => made(push_unknown(out, &form)),
        Err(fault) => Err(fault),
    }
}

/// The most parameters of a form.
const MOST_PARAMS: usize = 8;

fn push_number(out: &mut String, params: &NameList, name: &NameText) -> Result<(), AllocError> {
    if params.len() > MOST_PARAMS {
        return out.push_str("no such case");
    }
    match position_of(params, name) {
        Some(number) => write!(out, "{number}"),
        None => out.push_str("none"),
    }
}

/// The number from 0 of the parameter of a name.
pub fn push_position(alloc: Global, out: &mut String, words: &[Vec<u8>]) -> Result<(), CaseFault> {
    let [name, params] = words else {
        return Err(CaseFault::BadCase);
    };
    let name = name_of(alloc, name.as_slice())?;
    match names(alloc, params.as_slice()) {
        Ok(params) => made(push_number(out, &params, &name)),
        Err(fault) => Err(fault),
    }
}

fn push_row(out: &mut String, row: &Row) -> Result<(), AllocError> {
    let kind = row.site.kind;
    let (file, line, column) = (
        row.site.place.file,
        row.site.place.line,
        row.site.place.column,
    );
    let verdict = if row.proved { "proved" } else { "unproved" };
    write!(out, "{file}:{line}:{column} {kind:?} {verdict}; ")
}

fn push_list(out: &mut String, rows: &[Row]) -> Result<(), AllocError> {
    for row in rows {
        push_row(out, row)?;
    }
    out.push_str("end")
}

/// The rows of a form that keeps the limits.
fn push_rows_of(alloc: Global, out: &mut String, form: &FirstForm) -> Result<(), AllocError> {
    if !is_form(form) {
        return out.push_str("no form");
    }
    match rows_of(alloc, form) {
        Ok(rows) => push_list(out, rows.as_slice()),
        Err(_) => out.push_str("no memory"),
    }
}

/// The rows of a form.
pub fn push_rows(alloc: Global, out: &mut String, words: &[Vec<u8>]) -> Result<(), CaseFault> {
    match form(alloc, words) {
        Ok(form) => made(push_rows_of(alloc, out, &form)),
        Err(fault) => Err(fault),
    }
}
