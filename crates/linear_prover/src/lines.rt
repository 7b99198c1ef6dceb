//! The lines of a refutation.

ghost use Rattle.std.specs.Prelude.{◌≡◌, ◌+◌, ◌^◌, ◌<◌, IfOk, map, length, count_by, nat_lt};
ghost use Rattle.cert_lines.specs.View.{step};
ghost use Rattle.linear_prover.specs.Lines.{uses as uses_form, is_used as is_used_in, with_needed, needed as needed_for, renumbered, line as line_of, lines_of, lines as lines_for};
ghost use Rattle.linear_prover.specs.LineView.{numbered_step};

use cert_lines::{StepLine, StepLines};
use logic_terms::Starved;
use sqlite_items::Items;
use std::alloc::Global;

/// A step with the number of the form that it made.
#[derive(Clone, Copy)]
pub struct NumberedStep {
    number: usize,
    step: StepLine,
}

/// Forms have numbers below twice this one.
const LIMIT: usize = 0x8000_0000;

/// The number of the form after this many inputs and steps.
pub fn next_number(inputs: usize, steps: usize) -> Result<u32, Starved>
    ensures { IfOk result (λ n. n ≡ inputs + steps) }
{
    if inputs < LIMIT && steps < LIMIT {
        Ok((inputs + steps) as u32)
    } else {
        Err(Starved)
    }
}

/// Whether a step uses a form.
fn uses(line: StepLine, number: usize) -> bool
    ensures { result ≡ uses_form number (step line) }
{
    match line {
        StepLine::Add { first, second, .. } => first as usize == number
            || second as usize == number,
        StepLine::Tighten(form) => form as usize == number,
    }
}

/// Whether one of the steps uses a form.
fn is_used(number: usize, steps: &[NumberedStep]) -> bool
    ensures { result ≡ is_used_in number (map numbered_step steps.now) }
{
    for x in steps {
        if uses(x.step, number) {
            return true;
        }
    }
    false
}

/// Adds a step where a form needs it.
fn keep(
    found: &mut Vec<NumberedStep>,
    last: usize,
    number: usize,
    line: StepLine,
) -> Result<(), Starved>
    ensures { IfOk result (λ _. map numbered_step found.new.items ≡ with_needed last number (step line) (map numbered_step found.old.items)) }
{
    if number == last || is_used(number, found.as_slice()) {
        found.push(NumberedStep { number, step: line })?;
        return Ok(());
    }
    Ok(())
}

/// The steps that a form needs, the latest first.
fn needed(
    alloc: Global,
    last: usize,
    inputs: usize,
    steps: &[StepLine],
) -> Result<Vec<NumberedStep>, Starved>
    requires { inputs + length steps.now < 2 ^ 64 }
    ensures { IfOk result (λ ns. map numbered_step ns.items ≡ needed_for last inputs (map step steps.now)) }
{
    let mut found = Vec::new(alloc);
    for i in (0..steps.len()).rev() {
        keep(&mut found, last, inputs + i, steps[i])?;
    }
    Ok(found)
}

/// How many of the steps made forms before this one.
fn count_before(number: usize, steps: &[NumberedStep]) -> usize
    ensures { result ≡ count_by (λ x. nat_lt x.number number) steps.now }
{
    steps.iter().filter(|x| x.number < number).count()
}

/// The new number of a form.
fn renumber(inputs: usize, steps: &[NumberedStep], number: u32) -> Result<u32, Starved>
    ensures { IfOk result (λ n. n ≡ renumbered inputs (map numbered_step steps.now) number) }
{
    if (number as usize) < inputs {
        return Ok(number);
    }
    next_number(inputs, count_before(number as usize, steps))
}

/// A step with its new numbers.
fn line(inputs: usize, steps: &[NumberedStep], old: StepLine) -> Result<StepLine, Starved>
    ensures { IfOk result (λ l. step l ≡ line_of inputs (map numbered_step steps.now) (step old)) }
{
    match old {
        StepLine::Add {
            first,
            by_first,
            second,
            by_second,
        } => Ok(StepLine::Add {
            first: renumber(inputs, steps, first)?,
            by_first,
            second: renumber(inputs, steps, second)?,
            by_second,
        }),
        StepLine::Tighten(form) => Ok(StepLine::Tighten(renumber(inputs, steps, form)?)),
    }
}

/// The steps with their new numbers.
fn renumber_all(alloc: Global, inputs: usize, steps: &[NumberedStep]) -> Result<StepLines, Starved>
    ensures { IfOk result (λ ls. map step ls ≡ lines_of inputs (map numbered_step steps.now)) }
{
    let mut made = Items::new(alloc);
    for x in steps {
        made.push(line(inputs, steps, x.step)?)?;
    }
    Ok(made)
}

/// The lines for a form: the steps that it needs, in the order in which they were made, with new numbers.
pub fn lines(
    alloc: Global,
    inputs: usize,
    last: u32,
    steps: &[StepLine],
) -> Result<StepLines, Starved>
    ensures { IfOk result (λ ls. map step ls ≡ lines_for inputs last (map step steps.now)) }
{
    if inputs >= LIMIT || steps.len() >= LIMIT {
        return Err(Starved);
    }
    let mut found = needed(alloc, last as usize, inputs, steps)?;
    found.reverse();
    renumber_all(alloc, inputs, found.as_slice())
}
