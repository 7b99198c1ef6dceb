//! Reports of rows that a case writes out.

use crate::fault::{CaseFault, made, small_number};
use crate::shown::{name_of, push_quoted, split};
use ada_values::Place;
use case_lines::named;
use gnat_report::{Row, RowList, RowStatus, report_text};
use std::alloc::Global;
use typed_units::{CheckKind, SiteKey};

const KINDS: [(&str, CheckKind); 11] = [
    ("Overflow", CheckKind::Overflow),
    ("Range", CheckKind::Range),
    ("Index", CheckKind::Index),
    ("Division", CheckKind::Division),
    ("Pre", CheckKind::Pre),
    ("Post", CheckKind::Post),
    ("Assert", CheckKind::Assert),
    ("Assume", CheckKind::Assume),
    ("InvFirst", CheckKind::InvFirst),
    ("InvKept", CheckKind::InvKept),
    ("Variant", CheckKind::Variant),
];

const STATUSES: [(&str, RowStatus); 3] = [
    ("Proved", RowStatus::Proved),
    ("Assumed", RowStatus::Assumed),
    ("Unproved", RowStatus::Unproved),
];

/// The site of a row by three words: its line, its column and the kind of its check.
fn key(line: &[u8], column: &[u8], check: &[u8]) -> Result<SiteKey, CaseFault> {
    let line = small_number(line)?;
    let column = small_number(column)?;
    let Some(kind) = named(&KINDS, check) else {
        return Err(CaseFault::BadCase);
    };
    let place = Place {
        file: 0,
        line,
        column,
    };
    Ok(SiteKey { place, kind })
}

/// A row by five words: its file, its line, its column, the kind of its check and its status.
fn row(alloc: Global, words: &[Vec<u8>]) -> Result<Row, CaseFault> {
    let [name, line, column, check, verdict] = words else {
        return Err(CaseFault::BadCase);
    };
    let key = key(line.as_slice(), column.as_slice(), check.as_slice())?;
    let Some(status) = named(&STATUSES, verdict.as_slice()) else {
        return Err(CaseFault::BadCase);
    };
    let name = name_of(alloc, name.as_slice())?;
    Ok(Row { name, key, status })
}

fn push_row(alloc: Global, rows: &mut RowList, words: &[Vec<u8>]) -> Result<(), CaseFault> {
    made(rows.push(row(alloc, words)?))
}

fn rows(alloc: Global, text: &[u8]) -> Result<RowList, CaseFault> {
    let words = split(alloc, text)?;
    let mut rows = RowList::new(alloc);
    for words in words.as_slice().chunks(5) {
        push_row(alloc, &mut rows, words)?;
    }
    Ok(rows)
}

/// The text of the report of some rows.
pub fn push_report(alloc: Global, out: &mut String, words: &[Vec<u8>]) -> Result<(), CaseFault> {
    let [shown] = words else {
        return Err(CaseFault::BadCase);
    };
    let rows = rows(alloc, shown.as_slice())?;
    match report_text(alloc, &rows) {
        Ok(text) => made(push_quoted(out, text.as_slice())),
        Err(_) => Err(CaseFault::Starved),
    }
}
