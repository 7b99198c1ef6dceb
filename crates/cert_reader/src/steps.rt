//! The steps over linear forms at the end of a line.

ghost use Rattle.std.specs.Prelude.{◌≡◌, ◌+◌, ◌<◌, ◌≤◌, ◌∷◌, ◌++◌, length, drop, map, codes, IfOk, IfErr};
ghost use Rattle.cert_lines.specs.View.{step as step_of};
ghost use Rattle.term_reader.specs.Bytes.{first};
ghost use Rattle.logic_text.specs.Certs.{scaled_text, step_text, steps_text};
ghost use Rattle.term_reader.specs.Phases.{IsUpTo, IsBadAt};
ghost use Rattle.cert_reader.specs.Phases.{Phase, index, whole, steps as steps_phase, ended, Has};

use crate::numbers::{read_index, read_spaced_whole};
use cert_lines::{StepLine, StepLines};
use sqlite_items::Items;
use std::alloc::Global;
use term_reader::{ReadFault, byte_at};

/// The number of a form and what it is multiplied by, and the place after them.
#[derive(Clone, Copy)]
struct Scaled {
    form: u32,
    by: i128,
    to: usize,
}

/// Reads the number of a form and what it is multiplied by.
fn read_scaled(bytes: &[u8], at: usize) -> Result<Scaled, ReadFault>
    requires { at ≤ length bytes.now }
    ensures before { IfOk result (λ r. at < r.to) }
    ensures inside { IfOk result (λ r. r.to ≤ length bytes.now) }
    ensures text { IfOk result (λ r. drop at bytes.now ≡ scaled_text r.form r.by ++ drop r.to bytes.now) }
    ensures on { IfOk result (λ r. (p : Phase) → IsUpTo (Has (index (whole p))) (drop at bytes.now) (Has p) (drop r.to bytes.now)) }
    ensures fault { IfErr result (λ f. (p : Phase) → IsBadAt (Has (index (whole p))) bytes.now at f) }
{
    match read_index(bytes, at) {
        Err(fault) => Err(fault),
        Ok(form) => match read_spaced_whole(bytes, form.to) {
            Err(fault) => Err(fault),
            Ok(by) => Ok(Scaled {
                form: form.value,
                by: by.value,
                to: by.to,
            }),
        },
    }
}

/// A step that is read, and the place after it.
#[derive(Clone, Copy)]
struct StepRead {
    step: StepLine,
    to: usize,
}

/// Reads a sum at its space.
fn read_sum(bytes: &[u8], at: usize) -> Result<StepRead, ReadFault>
    requires place { at + 2 ≤ length bytes.now }
    requires mark { drop at bytes.now ≡ codes " +" ++ drop (at + 2) bytes.now }
    ensures before { IfOk result (λ r. at < r.to) }
    ensures inside { IfOk result (λ r. r.to ≤ length bytes.now) }
    ensures text { IfOk result (λ r. drop at bytes.now ≡ step_text (step_of r.step) ++ drop r.to bytes.now) }
    ensures on { IfOk result (λ r. IsUpTo (Has steps_phase) (drop at bytes.now) (Has steps_phase) (drop r.to bytes.now)) }
    ensures fault { IfErr result (λ f. IsBadAt (Has steps_phase) bytes.now at f) }
{
    match read_scaled(bytes, at + 2) {
        Err(fault) => Err(fault),
        Ok(first) => match read_scaled(bytes, first.to) {
            Err(fault) => Err(fault),
            Ok(second) => Ok(StepRead {
                step: StepLine::Add {
                    first: first.form,
                    by_first: first.by,
                    second: second.form,
                    by_second: second.by,
                },
                to: second.to,
            }),
        },
    }
}

/// Reads a step that tightens at its space.
fn read_tightened(bytes: &[u8], at: usize) -> Result<StepRead, ReadFault>
    requires place { at + 2 ≤ length bytes.now }
    requires mark { drop at bytes.now ≡ codes " t" ++ drop (at + 2) bytes.now }
    ensures before { IfOk result (λ r. at < r.to) }
    ensures inside { IfOk result (λ r. r.to ≤ length bytes.now) }
    ensures text { IfOk result (λ r. drop at bytes.now ≡ step_text (step_of r.step) ++ drop r.to bytes.now) }
    ensures on { IfOk result (λ r. IsUpTo (Has steps_phase) (drop at bytes.now) (Has steps_phase) (drop r.to bytes.now)) }
    ensures fault { IfErr result (λ f. IsBadAt (Has steps_phase) bytes.now at f) }
{
    match read_index(bytes, at + 2) {
        Err(fault) => Err(fault),
        Ok(form) => Ok(StepRead {
            step: StepLine::Tighten(form.value),
            to: form.to,
        }),
    }
}

/// Reads a step at its space.
fn read_step(bytes: &[u8], at: usize) -> Result<StepRead, ReadFault>
    requires place { at < length bytes.now }
    requires space { drop at bytes.now ≡ 32 ∷ drop (at + 1) bytes.now }
    ensures before { IfOk result (λ r. at < r.to) }
    ensures inside { IfOk result (λ r. r.to ≤ length bytes.now) }
    ensures text { IfOk result (λ r. drop at bytes.now ≡ step_text (step_of r.step) ++ drop r.to bytes.now) }
    ensures on { IfOk result (λ r. IsUpTo (Has steps_phase) (drop at bytes.now) (Has steps_phase) (drop r.to bytes.now)) }
    ensures fault { IfErr result (λ f. IsBadAt (Has steps_phase) bytes.now at f) }
{
    let byte = byte_at(bytes, at + 1);
    if byte == 43 {
        read_sum(bytes, at)
    } else if byte == 116 {
        read_tightened(bytes, at)
    } else {
        Err(ReadFault::BadText(at + 1))
    }
}

/// Steps that are read, and the place after them.
#[derive(Drop)]
pub struct Steps {
    pub steps: StepLines,
    pub to: usize,
}

/// Reads steps up to the end of the line.
pub fn read_steps(alloc: Global, bytes: &[u8], at: usize) -> Result<Steps, ReadFault>
    requires { at ≤ length bytes.now }
    ensures before { IfOk result (λ r. at ≤ r.to) }
    ensures inside { IfOk result (λ r. r.to ≤ length bytes.now) }
    ensures text { IfOk result (λ r. drop at bytes.now ≡ steps_text (map step_of r.steps) ++ drop r.to bytes.now) }
    ensures on { IfOk result (λ r. IsUpTo (Has steps_phase) (drop at bytes.now) (Has ended) (drop r.to bytes.now)) }
    ensures fault { IfErr result (λ f. IsBadAt (Has steps_phase) bytes.now at f) }
{
    let mut steps = Items::new(alloc);
    let mut to = at;
    while byte_at(bytes, to) == 32 {
        match read_step(bytes, to) {
            Err(fault) => return Err(fault),
            Ok(read) => match steps.push(read.step) {
                Err(_) => return Err(ReadFault::Starved),
                Ok(()) => to = read.to,
            },
        }
    }
    Ok(Steps { steps, to })
}
