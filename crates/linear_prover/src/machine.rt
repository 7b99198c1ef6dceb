//! The machine's state, and how forms are appended.

ghost use Rattle.std.specs.Prelude.{◌≡◌, IfOk, OnOk, map};
ghost use Rattle.linear_forms.specs.View.{linear};
ghost use Rattle.cert_lines.specs.View.{step};
ghost use Rattle.linear_prover.specs.Machine.{next, with_line, repeats as is_repeat, placed, appended};
ghost use Rattle.linear_prover.specs.View.{made_of, state, Runs};

use crate::answer::LinearAnswer;
use crate::forms::same_form;
use crate::lines::{lines, next_number};
use cert_lines::StepLine;
use linear_forms::{LinearForm, tighten};
use logic_terms::{Starved, Term};
use std::alloc::Global;

/// A form with its number: the inputs have the first numbers, and each step makes the next.
#[derive(Drop)]
pub struct MadeForm {
    pub form: LinearForm,
    pub number: u32,
}

/// A variable that was eliminated, with the forms that had it.
#[derive(Drop)]
pub struct SetAside {
    pub variable: Term,
    pub forms: Vec<MadeForm>,
}

/// The machine.
#[derive(Drop)]
pub struct LinearMachine {
    /// How many inputs there were.
    pub inputs: usize,
    /// The forms that stand.
    pub standing: Vec<MadeForm>,
    /// The steps made.
    pub steps: Vec<StepLine>,
    /// The variables left.
    pub left: Vec<Term>,
    /// The variables eliminated, the last one first.
    pub eliminated: Vec<SetAside>,
    /// The steps that may still be taken.
    pub budget: u64,
}

/// Whether a form is one of those that stand.
fn repeats(f: &LinearForm, standing: &[MadeForm]) -> bool
    ensures { result ≡ is_repeat (linear f.now) (map made_of standing.now) }
{
    for x in standing {
        if same_form(f, &x.form) {
            return true;
        }
    }
    false
}

impl LinearMachine {
    /// Notes a step, whose form has the number in the answer.
    pub fn note(&mut self, line: StepLine) -> Result<u32, Starved>
        ensures number { IfOk result (λ n. n ≡ next (state self.old)) }
        ensures noted { OnOk result (state self.new ≡ with_line (step line) (state self.old)) }
    {
        let number = next_number(self.inputs, self.steps.len())?;
        self.steps.push(line)?;
        Ok(number)
    }

    /// Lets a form stand, unless it is a constant or repeats one.
    fn place(&mut self, alloc: Global, x: MadeForm) -> Result<Option<LinearAnswer>, Starved>
        ensures { Runs (placed (made_of x) (state self.old)) self.new result }
    {
        if x.form.parts.is_empty() {
            if x.form.constant < 0 {
                let found = lines(alloc, self.inputs, x.number, self.steps.as_slice())?;
                return Ok(Some(LinearAnswer::Refuted(found)));
            }
            return Ok(None);
        }
        if repeats(&x.form, self.standing.as_slice()) {
            return Ok(None);
        }
        self.standing.push(x)?;
        Ok(None)
    }

    /// Appends a form of this number, tightened.
    pub fn append(
        &mut self,
        alloc: Global,
        f: &LinearForm,
        number: u32,
    ) -> Result<Option<LinearAnswer>, Starved>
        ensures { Runs (appended (linear f.now) number (state self.old)) self.new result }
    {
        let form = tighten(alloc, f)?;
        if same_form(&form, f) {
            return self.place(alloc, MadeForm { form, number });
        }
        let number = self.note(StepLine::Tighten(number))?;
        self.place(alloc, MadeForm { form, number })
    }
}
