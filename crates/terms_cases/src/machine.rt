//! The linear machine.

use crate::forms::form_at;
use case_parts::{CaseFault, number_of, push, push_number};
use cert_lines::StepLine;
use linear_prover::{FormList, LinearAnswer, decide};
use sqlite_items::Items;
use std::alloc::{AllocError, Global};

/// The forms of the terms that the words are.
fn forms_at(alloc: Global, words: &[Vec<u8>]) -> Result<FormList, CaseFault> {
    let mut forms = Items::new(alloc);
    for word in words {
        let form = form_at(alloc, word.as_slice())?;
        forms.push(form)?;
    }
    Ok(forms)
}

/// Adds a step as a line of a certificate has it.
fn push_step(line: &mut String, step: &StepLine) -> Result<(), AllocError> {
    match step {
        StepLine::Tighten(number) => write!(line, " t {number}"),
        StepLine::Add {
            first,
            by_first,
            second,
            by_second,
        } => write!(line, " + {first} {by_first} {second} {by_second}"),
    }
}

fn push_steps(line: &mut String, steps: &[StepLine]) -> Result<(), CaseFault> {
    push(line, "refuted")?;
    for step in steps {
        push_step(line, step)?;
    }
    Ok(())
}

fn push_point(line: &mut String, numbers: &[i128]) -> Result<(), CaseFault> {
    push(line, "point")?;
    for number in numbers {
        push(line, " ")?;
        push_number(line, *number)?;
    }
    Ok(())
}

fn push_answer(line: &mut String, answer: &LinearAnswer) -> Result<(), CaseFault> {
    match answer {
        LinearAnswer::Refuted(steps) => push_steps(line, steps.as_slice()),
        LinearAnswer::Point(numbers) => push_point(line, numbers.as_slice()),
        LinearAnswer::Gap => push(line, "gap"),
        LinearAnswer::WideForm => push(line, "wide"),
        LinearAnswer::StepsOut => push(line, "steps out"),
    }
}

fn push_decision(
    alloc: Global,
    line: &mut String,
    forms: &FormList,
    budget: u64,
) -> Result<(), CaseFault> {
    let mut left = budget;
    match decide(alloc, forms, &mut left) {
        Err(_) => Err(CaseFault::Starved),
        Ok(answer) => {
            push_answer(line, &answer)?;
            Ok(write!(line, ", {left} left")?)
        }
    }
}

/// `decide BUDGET t ..`
pub fn decided(alloc: Global, line: &mut String, words: &[Vec<u8>]) -> Result<(), CaseFault> {
    match words {
        [budget, terms @ ..] => {
            let Ok(budget) = u64::try_from(number_of(alloc, budget.as_slice())?) else {
                return Err(CaseFault::BadCase);
            };
            let forms = forms_at(alloc, terms)?;
            push_decision(alloc, line, &forms, budget)
        }
        [] => Err(CaseFault::BadCase),
    }
}
