//! The report on a file.

ghost use Rattle.std.specs.Prelude.{◌≡◌, IfOk, map};
ghost use Rattle.std.specs.List.{list_all};
ghost use Rattle.first_form.specs.Form.{IsForm};
ghost use Rattle.gnatprove_core.specs.Answers.{row_in, status_of, row_status, Reports};

use crate::answer::Answer;
use crate::status::Status;
use ada_values::{NameText, Starved};
use first_form::FirstForm;
use form_prover::{RowList, rows_of};
use gnat_report::{Row, RowStatus, report_text};
use sqlite_items::Items;
use std::alloc::Global;

/// The status of a row.
fn row_status(proved: bool) -> RowStatus
    ensures { result ≡ row_status proved }
{
    if proved {
        RowStatus::Proved
    } else {
        RowStatus::Unproved
    }
}

/// The rows with the file's name.
fn named(alloc: Global, name: &NameText, rows: &RowList) -> Result<gnat_report::RowList, Starved>
    ensures { IfOk result (λ named. named ≡ map (row_in name.now) rows.now) }
{
    let mut named = Items::new(alloc);
    for row in rows.as_slice() {
        named.push(Row {
            name: name.copy(alloc)?,
            key: row.site,
            status: row_status(row.proved),
        })?;
    }
    Ok(named)
}

/// Whether every row is proved.
#[tactic(auto, using(std::proofs::lemmas::List::Folds::list_all_at, std::proofs::lemmas::List::Folds::list_all_more))]
fn are_proved(rows: &RowList) -> bool
    ensures { result ≡ list_all (λ r. r.proved) rows.now }
{
    for row in rows.as_slice() {
        if !row.proved {
            return false;
        }
    }
    true
}

/// `Proved` where every row is, else `Unproved`.
fn status_of(rows: &RowList) -> Status
    ensures { result ≡ status_of rows.now }
{
    if are_proved(rows) {
        Status::Proved
    } else {
        Status::Unproved
    }
}

/// The report on a form.
pub fn report(alloc: Global, name: &NameText, form: &FirstForm) -> Result<Answer, Starved>
    requires { IsForm form.now }
    ensures { IfOk result (λ answer. Reports name.now form.now answer.status answer.text) }
{
    let rows = rows_of(alloc, form)?;
    let status = status_of(&rows);
    let named = named(alloc, name, &rows)?;
    let text = report_text(alloc, &named)?;
    Ok(Answer { status, text })
}
