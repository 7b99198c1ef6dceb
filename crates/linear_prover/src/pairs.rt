//! Pairs of a positive and a negative form.

ghost use Rattle.logic_terms.specs.View.{term};
ghost use Rattle.linear_prover.specs.Machine.{each};
ghost use Rattle.linear_prover.specs.Elimination.{summed, paired};
ghost use Rattle.linear_prover.specs.View.{made_of, state, Runs};

use crate::answer::LinearAnswer;
use crate::factor::factor;
use crate::machine::{LinearMachine, MadeForm};
use cert_lines::StepLine;
use linear_forms::{FormFault, add_scaled};
use logic_terms::{Starved, Term};
use std::alloc::Global;

impl LinearMachine {
    /// Appends `m` times a form plus `n` times another.
    fn sum(
        &mut self,
        alloc: Global,
        m: i128,
        x: &MadeForm,
        n: i128,
        y: &MadeForm,
    ) -> Result<Option<LinearAnswer>, Starved>
        ensures { Runs (summed m (made_of x.now) n (made_of y.now) (state self.old)) self.new result }
    {
        let made = match add_scaled(alloc, &x.form, m, &y.form, n) {
            Ok(form) => form,
            Err(FormFault::Wide) => return Ok(Some(LinearAnswer::WideForm)),
            Err(FormFault::Starved) => return Err(Starved),
        };
        let line = StepLine::Add {
            first: x.number,
            by_first: m,
            second: y.number,
            by_second: n,
        };
        let number = self.note(line)?;
        self.append(alloc, &made, number)
    }

    /// Takes the step for a pair.
    fn pair(
        &mut self,
        alloc: Global,
        v: &Term,
        x: &MadeForm,
        y: &MadeForm,
    ) -> Result<Option<LinearAnswer>, Starved>
        ensures { Runs (paired (term v.now) (made_of x.now) (made_of y.now) (state self.old)) self.new result }
    {
        if self.budget == 0 {
            return Ok(Some(LinearAnswer::StepsOut));
        }
        self.budget -= 1;
        let Some(m) = factor(v, &x.form, &y.form) else {
            return Ok(Some(LinearAnswer::WideForm));
        };
        let Some(n) = factor(v, &y.form, &x.form) else {
            return Ok(Some(LinearAnswer::WideForm));
        };
        self.sum(alloc, m, x, n, y)
    }

    /// Takes the steps for a positive form with each negative one.
    fn pair_with(
        &mut self,
        alloc: Global,
        v: &Term,
        x: &MadeForm,
        negative: &[MadeForm],
    ) -> Result<Option<LinearAnswer>, Starved>
        ensures { Runs (each (λ y. paired (term v.now) (made_of x.now) (made_of y)) negative.now (state self.old)) self.new result }
    {
        for y in negative {
            if let Some(answer) = self.pair(alloc, v, x, y)? {
                return Ok(Some(answer));
            }
        }
        Ok(None)
    }

    /// Takes the steps for each pair, positive forms in the outer order.
    pub fn pair_all(
        &mut self,
        alloc: Global,
        v: &Term,
        positive: &[MadeForm],
        negative: &[MadeForm],
    ) -> Result<Option<LinearAnswer>, Starved>
        ensures { Runs (each (λ x. each (λ y. paired (term v.now) (made_of x) (made_of y)) negative.now) positive.now (state self.old)) self.new result }
    {
        for x in positive {
            if let Some(answer) = self.pair_with(alloc, v, x, negative)? {
                return Ok(Some(answer));
            }
        }
        Ok(None)
    }
}
