//! The rows of a file of the first form.

ghost use Rattle.std.specs.Prelude.{◌≡◌, map, IfOk};
ghost use Rattle.first_form.specs.Form.{IsForm};
ghost use Rattle.form_prover.specs.Program.{procedure_of, program_of};
ghost use Rattle.form_prover.specs.Formulas.{all_proved, row_among};
ghost use Rattle.form_prover.specs.Rows.{one_worker};

use crate::verdicts::{Verdict, verdicts_of};
use ada_values::Starved;
use first_form::FirstForm;
use sqlite_items::Items;
use std::alloc::Global;
use typed_units::{SiteKey, same_site};

/// A site, and whether all its goals are proved.
#[derive(Clone, Copy, Debug, PartialEq, Eq)]
pub struct Row {
    pub site: SiteKey,
    pub proved: bool,
}

/// Rows in the order of their sites.
pub type RowList = Items<Row>;

/// Whether each goal of a site is proved.
fn all_proved(site: SiteKey, mut verdicts: &[Verdict]) -> bool
    ensures { result ≡ all_proved site verdicts.entry.now }
{
    while let [verdict, rest @ ..] = verdicts {
        if same_site(verdict.site, site) && !verdict.proved {
            return false;
        }
        verdicts = rest;
    }
    true
}

/// A row for each verdict's site.
fn rows_among(alloc: Global, verdicts: &[Verdict]) -> Result<RowList, Starved>
    ensures { IfOk result (λ rows. rows ≡ map (row_among verdicts.now) verdicts.now) }
{
    let mut rows = Items::new(alloc);
    for verdict in verdicts {
        rows.push(Row {
            site: verdict.site,
            proved: all_proved(verdict.site, verdicts),
        })?;
    }
    Ok(rows)
}

/// The rows of the procedure: one for each assertion, in order. A row is proved where every goal of its site is.
pub fn rows_of(alloc: Global, form: &FirstForm) -> Result<RowList, Starved>
    requires { IsForm form.now }
    ensures { IfOk result (λ rows. rows ≡ one_worker (program_of form.now) (procedure_of form.now)) }
{
    let verdicts = verdicts_of(alloc, form)?;
    rows_among(alloc, verdicts.as_slice())
}
