//! Rule C4.

ghost use Rattle.std.specs.Prelude.{List, map};
ghost use Rattle.logic_terms.specs.Node.{Node};
ghost use Rattle.logic_terms.specs.View.{formula};
ghost use Rattle.cert_lines.specs.View.{step};
ghost use Rattle.cert_rules.specs.Linear.{linear_clause};
ghost use Rattle.cert_rules.specs.Judges.{Judges};
ghost use Rattle.cert_linear.specs.Here.{context};

use crate::forms::forms_of;
use crate::refuted::refuted;
use crate::steps::run_steps;
use cert_lines::StepLines;
use cert_rules::LineFault;
use logic_terms::{FormulaList, Goal};
use std::alloc::Global;

/// Whether a clause of these literals follows by the steps from the linear forms of the literals' negations, under `fresh` new
/// symbols. The clause is the literals, which are to be closed and well sorted.
///
/// `NotAllowed` where a literal has no form, a factor is below 1, a step names no form, or what the steps come to is no negative
/// constant; `Wide` where a number on the way to a form leaves 128 bits; whichever comes first.
#[tactic(auto, using(crate::proofs::Clause::fault_of_forms, crate::proofs::Clause::fault_of_steps, crate::proofs::Clause::is_refuted, crate::proofs::Clause::is_not_refuted))]
pub fn linear_line(
    alloc: Global,
    goal: &Goal,
    fresh: u32,
    literals: &FormulaList,
    steps: &StepLines,
) -> Result<(), LineFault>
    ensures { (earlier : List (List Node)) → Judges (λ _. map formula literals.now) (linear_clause (context goal.now fresh earlier) (map formula literals.now) (map step steps.now)) result }
{
    let start = forms_of(alloc, goal, fresh, literals)?;
    let forms = run_steps(alloc, start, steps)?;
    if refuted(steps, forms.as_slice()) {
        Ok(())
    } else {
        Err(LineFault::NotAllowed)
    }
}
