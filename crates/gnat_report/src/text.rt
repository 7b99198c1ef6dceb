//! The text of a report.

ghost use Rattle.std.specs.Prelude.{◌≡◌, ◌++◌, IfOk, OnOk};
ghost use Rattle.std.specs.Fmt.{decimal};
ghost use Rattle.gnat_report.specs.Reading.{HavePlaces, IsPlace};
ghost use Rattle.gnat_report.specs.Text.{line_text, outcome_of, outcome_text, place_text, report_text_of, severity_of, words_of};

use crate::rows::{Row, RowList, RowStatus};
use ada_values::{ByteList, Place, Starved};
use std::alloc::Global;
use typed_units::CheckKind;

/// The words for a kind of check.
fn words(kind: CheckKind) -> &'static str
    ensures { result.now ≡ words_of kind }
{
    match kind {
        CheckKind::Overflow => "overflow check",
        CheckKind::Range => "range check",
        CheckKind::Index => "index check",
        CheckKind::Division => "division check",
        CheckKind::Pre => "precondition",
        CheckKind::Post => "postcondition",
        CheckKind::Assert => "assertion",
        CheckKind::Assume => "assumption",
        CheckKind::InvFirst => "loop invariant initialization",
        CheckKind::InvKept => "loop invariant preservation",
        CheckKind::Variant => "loop variant",
    }
}

/// The severity of a row.
fn severity(status: RowStatus) -> &'static str
    ensures { result.now ≡ severity_of status }
{
    match status {
        RowStatus::Proved => "info",
        RowStatus::Assumed => "info",
        RowStatus::Unproved => "medium",
    }
}

/// What a row says of its site.
fn outcome(status: RowStatus) -> &'static str
    ensures { result.now ≡ outcome_of status }
{
    match status {
        RowStatus::Proved => "proved",
        RowStatus::Assumed => "assumed",
        RowStatus::Unproved => "might fail (no counterexample)",
    }
}

/// Adds a number in decimal digits.
fn push_number(alloc: Global, text: &mut Vec<u8>, number: u32) -> Result<(), Starved>
    ensures { OnOk result (text.new.items ≡ text.old.items ++ decimal number) }
{
    let digits = format!(in alloc; "{number}")?;
    text.extend_from_slice(digits.as_bytes())
}

/// Adds a place without its file: `:LINE:COLUMN: `. An error comes where memory is refused.
pub fn push_place(alloc: Global, text: &mut Vec<u8>, place: Place) -> Result<(), Starved>
    ensures text { OnOk result (text.new.items ≡ text.old.items ++ place_text place) }
    ensures place { IsPlace place }
{
    text.extend_from_slice(b":")?;
    push_number(alloc, text, place.line)?;
    text.extend_from_slice(b":")?;
    push_number(alloc, text, place.column)?;
    text.extend_from_slice(b": ")
}

/// Adds what a row says of a site of this kind.
fn push_outcome(text: &mut Vec<u8>, kind: CheckKind, status: RowStatus) -> Result<(), Starved>
    ensures { OnOk result (text.new.items ≡ text.old.items ++ outcome_text kind status) }
{
    text.extend_from_slice(severity(status).as_bytes())?;
    text.extend_from_slice(b": ")?;
    text.extend_from_slice(words(kind).as_bytes())?;
    text.extend_from_slice(b" ")?;
    text.extend_from_slice(outcome(status).as_bytes())
}

/// Adds the line of a row, with its end.
fn push_row(alloc: Global, text: &mut Vec<u8>, row: &Row) -> Result<(), Starved>
    ensures text { OnOk result (text.new.items ≡ text.old.items ++ line_text row.now) }
    ensures place { OnOk result (IsPlace row.now.key.place) }
{
    text.extend_from_slice(row.name.as_bytes())?;
    push_place(alloc, text, row.key.place)?;
    push_outcome(text, row.key.kind, row.status)?;
    text.extend_from_slice(b"\n")
}

/// The text of a report: a line for each row, in their order. Where it is answered, the places of the rows are known to
/// lie in the range of their type, as `lines_read_back` wants them. An error comes where memory is refused.
pub fn report_text(alloc: Global, rows: &RowList) -> Result<ByteList, Starved>
    ensures text { IfOk result (λ text. text ≡ report_text_of rows.now) }
    ensures places { OnOk result (HavePlaces rows.now) }
{
    let mut text = Vec::new(alloc);
    for row in rows.as_slice() {
        push_row(alloc, &mut text, row)?;
    }
    Ok(ByteList::from_vec(text))
}
