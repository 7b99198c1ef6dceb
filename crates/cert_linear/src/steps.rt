//! Steps over linear forms.

ghost use Rattle.std.specs.Prelude.{map};
ghost use Rattle.linear_forms.specs.View.{linear};
ghost use Rattle.cert_lines.specs.View.{step};
ghost use Rattle.cert_rules.specs.Linear.{form_at, stepped, run_steps};
ghost use Rattle.cert_rules.specs.Judges.{Judges};
ghost use Rattle.cert_linear.specs.Here.{forms as forms_of};

use crate::forms::{FormList, form_in_line};
use cert_lines::{StepLine, StepLines};
use cert_rules::LineFault;
use linear_forms::{LinearForm, add_scaled, tighten};
use sqlite_items::at;
use std::alloc::Global;

/// The form with this number, from 0.
fn form_at(forms: &[LinearForm], number: u32) -> Result<&LinearForm, LineFault>
    ensures { Judges (λ f. linear f.now) (form_at (forms_of forms.now) number) result }
{
    match at(forms, number as usize) {
        Some(form) => Ok(form),
        None => Err(LineFault::NotAllowed),
    }
}

/// The form that a step appends. Factors are at least 1.
fn stepped(alloc: Global, forms: &[LinearForm], s: &StepLine) -> Result<LinearForm, LineFault>
    ensures { Judges linear (stepped (forms_of forms.now) (step s.now)) result }
{
    match s {
        StepLine::Add {
            first,
            by_first,
            second,
            by_second,
        } => {
            if *by_first >= 1 && *by_second >= 1 {
                let a = form_at(forms, *first)?;
                let b = form_at(forms, *second)?;
                form_in_line(add_scaled(alloc, a, *by_first, b, *by_second))
            } else {
                Err(LineFault::NotAllowed)
            }
        }
        StepLine::Tighten(number) => {
            let form = form_at(forms, *number)?;
            Ok(tighten(alloc, form)?)
        }
    }
}

/// The forms with those that the steps append.
pub fn run_steps(
    alloc: Global,
    mut forms: FormList,
    steps: &StepLines,
) -> Result<FormList, LineFault>
    ensures { Judges forms_of (run_steps (forms_of forms) (map step steps.now)) result }
{
    for s in steps.as_slice() {
        let form = stepped(alloc, forms.as_slice(), s)?;
        forms.push(form)?;
    }
    Ok(forms)
}
