//! The machine as a whole.

ghost use Rattle.std.specs.Prelude.{◌≡◌, IfOk, OnErr, map};
ghost use Rattle.linear_forms.specs.View.{linear};
ghost use Rattle.linear_prover.specs.Machine.{and_then};
ghost use Rattle.linear_prover.specs.Elimination.{rounds};
ghost use Rattle.linear_prover.specs.Decided.{decided, numbered_from, at_start, entered, decide_of};
ghost use Rattle.linear_prover.specs.View.{answer, state, Runs};

use crate::answer::{FormList, LinearAnswer};
use crate::forms::variables_of;
use crate::lines::next_number;
use crate::machine::LinearMachine;
use crate::values::choose;
use linear_forms::LinearForm;
use logic_terms::Starved;
use std::alloc::Global;

/// The machine before its first form.
fn start(alloc: Global, forms: &[LinearForm], budget: u64) -> Result<LinearMachine, Starved>
    ensures { IfOk result (λ m. state m ≡ at_start (map linear forms.now) budget) }
{
    Ok(LinearMachine {
        inputs: forms.len(),
        standing: Vec::new(alloc),
        steps: Vec::new(alloc),
        left: variables_of(alloc, forms)?,
        eliminated: Vec::new(alloc),
        budget,
    })
}

impl LinearMachine {
    /// Appends the inputs.
    fn enter(
        &mut self,
        alloc: Global,
        forms: &[LinearForm],
    ) -> Result<Option<LinearAnswer>, Starved>
        ensures { Runs (entered (numbered_from 0 (map linear forms.now)) (state self.old)) self.new result }
    {
        for (i, f) in forms.iter().enumerate() {
            let number = next_number(i, 0)?;
            if let Some(answer) = self.append(alloc, f, number)? {
                return Ok(Some(answer));
            }
        }
        Ok(None)
    }

    /// Appends the inputs and eliminates their variables.
    fn run(
        &mut self,
        alloc: Global,
        forms: &[LinearForm],
        count: usize,
    ) -> Result<Option<LinearAnswer>, Starved>
        ensures { Runs (and_then (entered (numbered_from 0 (map linear forms.now)) (state self.old)) (rounds count)) self.new result }
    {
        if let Some(answer) = self.enter(alloc, forms)? {
            return Ok(Some(answer));
        }
        self.eliminate_all(alloc, count)
    }
}

/// Decides whether forms can all be at least 0, by elimination of their variables.
///
/// Each form is tightened as it is appended: a negative constant ends with `Refuted`, other constants and exact repeats of a
/// form that stands are dropped. Each pair of a positive and a negative form takes one step of the budget, which is what is left
/// in the end; where it is 0, the answer is `StepsOut`. Then values are chosen. `Starved` leaves the budget as it is.
///
/// What the answers say of the forms is in `laws_of_points` and `laws_of_refutations`. The values of a `Point` are right of
/// forms as `form_of` makes them: with their variables in the order of their texts, each once, and no coefficient 0.
pub fn decide(alloc: Global, forms: &FormList, budget: &mut u64) -> Result<LinearAnswer, Starved>
    ensures found { IfOk result (λ a. decide_of (map linear forms.now) budget.old ≡ decided (answer a) budget.new) }
    ensures starved { OnErr result (budget.new ≡ budget.old) }
{
    let variables = variables_of(alloc, forms.as_slice())?;
    let mut machine = start(alloc, forms.as_slice(), *budget)?;
    let answer = match machine.run(alloc, forms.as_slice(), variables.len())? {
        Some(answer) => answer,
        None => choose(alloc, variables.as_slice(), machine.eliminated.as_slice())?,
    };
    *budget = machine.budget;
    Ok(answer)
}
