//! The forms that the negations of literals say are at least 0.

ghost use Rattle.std.specs.Prelude.{Bool, map};
ghost use Rattle.logic_terms.specs.View.{term, formula};
ghost use Rattle.logic_terms.specs.Binding.{negated};
ghost use Rattle.linear_forms.specs.Form.{Form};
ghost use Rattle.linear_forms.specs.View.{linear, Makes};
ghost use Rattle.cert_rules.specs.Judged.{and_then, fitting};
ghost use Rattle.cert_rules.specs.Linear.{terms_of as terms_at, forms_of_terms, forms_of};
ghost use Rattle.cert_rules.specs.Judges.{Judges};
ghost use Rattle.cert_linear.specs.Here.{here, forms};

use crate::terms::terms_of;
use cert_rules::{LineFault, negation};
use linear_forms::{FormFault, LinearForm, form_of};
use logic_terms::{Formula, FormulaList, Goal, TermList};
use sqlite_items::Items;
use std::alloc::Global;

/// The forms of a line, in order.
pub type FormList = Items<LinearForm>;

/// A form that was made, or why the line has none.
pub fn form_in_line(made: Result<LinearForm, FormFault>) -> Result<LinearForm, LineFault>
    ensures { (f : Form) (fits : Bool) → Makes f fits made → Judges linear (fitting fits f) result }
{
    match made {
        Ok(form) => Ok(form),
        Err(FormFault::Wide) => Err(LineFault::Wide),
        Err(FormFault::Starved) => Err(LineFault::Starved),
    }
}

/// The forms of terms.
fn forms_of_terms(alloc: Global, ts: &TermList) -> Result<FormList, LineFault>
    ensures { Judges forms (forms_of_terms (map term ts.now)) result }
{
    let mut forms = Items::new(alloc);
    for t in ts.as_slice() {
        let form = form_in_line(form_of(alloc, t))?;
        forms.push(form)?;
    }
    Ok(forms)
}

/// The forms of what the negation of a literal says.
fn forms_of_literal(
    alloc: Global,
    goal: &Goal,
    fresh: u32,
    p: &Formula,
) -> Result<FormList, LineFault>
    ensures { Judges forms (and_then (terms_at (here goal.now fresh) (negated (formula p.now))) forms_of_terms) result }
{
    let negation = negation(alloc, p)?;
    let terms = terms_of(alloc, goal, fresh, negation.get())?;
    forms_of_terms(alloc, &terms)
}

/// The forms of what the negations of the literals say, in order.
pub fn forms_of(
    alloc: Global,
    goal: &Goal,
    fresh: u32,
    literals: &FormulaList,
) -> Result<FormList, LineFault>
    ensures { Judges forms (forms_of (here goal.now fresh) (map formula literals.now)) result }
{
    let mut forms = Items::new(alloc);
    for p in literals.as_slice() {
        let more = forms_of_literal(alloc, goal, fresh, p)?;
        forms.append(more)?;
    }
    Ok(forms)
}
