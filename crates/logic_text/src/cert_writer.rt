//! The text of a certificate.

ghost use Rattle.std.specs.Prelude.{◌≡◌, ◌++◌, OnOk, IfOk, map};
ghost use Rattle.logic_terms.specs.View.{term, formula};
ghost use Rattle.cert_lines.specs.View.{step as step_of, line as line_of, lines as lines_of};
ghost use Rattle.logic_text.specs.Fits.{AreLines};
ghost use Rattle.logic_text.specs.Goals.{line_end};
ghost use Rattle.logic_text.specs.Certs.{spaced_number, spaced_node, nodes_text, numbers_text, literals_text, scaled_text, step_text, steps_text, line_text, lines_text, cert_bytes};

use crate::fits::cert_fits;
use crate::parts::{push_spaced_number, push_spaced_whole};
use ada_values::ByteList;
use cert_lines::{Cert, CertLine, CertLines, HintList, StepLine, StepLines};
use logic_terms::{Formula, FormulaList, Starved, Term, push_spaced_formula, push_spaced_term};
use sqlite_items::Items;
use std::alloc::Global;

/// Adds formulas, each with a space before it.
fn push_formulas(alloc: Global, text: &mut Vec<u8>, formulas: &FormulaList) -> Result<(), Starved>
    ensures { OnOk result (text.new.items ≡ text.old.items ++ nodes_text (map formula formulas.now)) }
{
    for p in formulas.as_slice() {
        push_spaced_formula(alloc, text, p)?;
    }
    Ok(())
}

/// Adds the number of literals and the literals.
fn push_literals(alloc: Global, text: &mut Vec<u8>, literals: &FormulaList) -> Result<(), Starved>
    ensures { OnOk result (text.new.items ≡ text.old.items ++ literals_text (map formula literals.now)) }
{
    push_spaced_number(alloc, text, literals.len() as u64)?;
    push_formulas(alloc, text, literals)
}

/// Adds numbers, each with a space before it.
fn push_hints(alloc: Global, text: &mut Vec<u8>, hints: &HintList) -> Result<(), Starved>
    ensures { OnOk result (text.new.items ≡ text.old.items ++ numbers_text hints.now) }
{
    for hint in hints.as_slice() {
        push_spaced_number(alloc, text, *hint as u64)?;
    }
    Ok(())
}

/// Adds the number of a form and what it is multiplied by.
fn push_scaled(alloc: Global, text: &mut Vec<u8>, form: u32, by: i128) -> Result<(), Starved>
    ensures { OnOk result (text.new.items ≡ text.old.items ++ scaled_text form by) }
{
    push_spaced_number(alloc, text, form as u64)?;
    push_spaced_whole(alloc, text, by)
}

/// Adds a step.
fn push_step(alloc: Global, text: &mut Vec<u8>, step: StepLine) -> Result<(), Starved>
    ensures { OnOk result (text.new.items ≡ text.old.items ++ step_text (step_of step)) }
{
    match step {
        StepLine::Add {
            first,
            by_first,
            second,
            by_second,
        } => {
            text.extend_from_slice(b" +")?;
            push_scaled(alloc, text, first, by_first)?;
            push_scaled(alloc, text, second, by_second)
        }
        StepLine::Tighten(form) => {
            text.extend_from_slice(b" t")?;
            push_spaced_number(alloc, text, form as u64)
        }
    }
}

/// Adds steps.
fn push_steps(alloc: Global, text: &mut Vec<u8>, steps: &StepLines) -> Result<(), Starved>
    ensures { OnOk result (text.new.items ≡ text.old.items ++ steps_text (map step_of steps.now)) }
{
    for step in steps.as_slice() {
        push_step(alloc, text, *step)?;
    }
    Ok(())
}

/// Adds a word, a number and a term.
fn push_about(
    alloc: Global,
    text: &mut Vec<u8>,
    word: &str,
    k: u32,
    t: &Term,
) -> Result<(), Starved>
    ensures { OnOk result (text.new.items ≡ text.old.items ++ (word.now ++ (spaced_number k ++ spaced_node (term t.now)))) }
{
    text.extend_from_slice(word.as_bytes())?;
    push_spaced_number(alloc, text, k as u64)?;
    push_spaced_term(alloc, text, t)
}

/// Adds a word, a number and a formula.
fn push_of(
    alloc: Global,
    text: &mut Vec<u8>,
    word: &str,
    k: u32,
    p: &Formula,
) -> Result<(), Starved>
    ensures { OnOk result (text.new.items ≡ text.old.items ++ (word.now ++ (spaced_number k ++ spaced_node (formula p.now)))) }
{
    text.extend_from_slice(word.as_bytes())?;
    push_spaced_number(alloc, text, k as u64)?;
    push_spaced_formula(alloc, text, p)
}

/// Adds a word and two terms.
fn push_pair(
    alloc: Global,
    text: &mut Vec<u8>,
    word: &str,
    a: &Term,
    b: &Term,
) -> Result<(), Starved>
    ensures { OnOk result (text.new.items ≡ text.old.items ++ (word.now ++ (spaced_node (term a.now) ++ spaced_node (term b.now)))) }
{
    text.extend_from_slice(word.as_bytes())?;
    push_spaced_term(alloc, text, a)?;
    push_spaced_term(alloc, text, b)
}

/// Adds a line without its end.
fn push_line(alloc: Global, text: &mut Vec<u8>, line: &CertLine) -> Result<(), Starved>
    ensures { OnOk result (text.new.items ≡ text.old.items ++ line_text (line_of line.now)) }
{
    match line {
        CertLine::Given(k) => {
            text.extend_from_slice(b"given")?;
            push_spaced_number(alloc, text, *k as u64)
        }
        CertLine::Open { part, formula } => push_of(alloc, text, "open", *part, formula.get()),
        CertLine::Case { part, term } => push_about(alloc, text, "case", *part, term.get()),
        CertLine::Rup { literals, hints } => {
            text.extend_from_slice(b"rup")?;
            push_literals(alloc, text, literals)?;
            push_hints(alloc, text, hints)
        }
        CertLine::Lin { literals, steps } => {
            text.extend_from_slice(b"lin")?;
            push_literals(alloc, text, literals)?;
            push_steps(alloc, text, steps)
        }
        CertLine::Tri { left, right } => push_pair(alloc, text, "tri", left.get(), right.get()),
        CertLine::Ins { at, formula } => {
            text.extend_from_slice(b"ins")?;
            push_spaced_term(alloc, text, at.get())?;
            push_spaced_formula(alloc, text, formula.get())
        }
        CertLine::New { symbol, formula } => push_of(alloc, text, "new", *symbol, formula.get()),
        CertLine::Arr { part, term } => push_about(alloc, text, "arr", *part, term.get()),
        CertLine::Ext { left, right } => push_pair(alloc, text, "ext", left.get(), right.get()),
        CertLine::Fld { part, term } => push_about(alloc, text, "fld", *part, term.get()),
        CertLine::Mul { left, right } => push_pair(alloc, text, "mul", left.get(), right.get()),
        _ => push_other(alloc, text, line),
    }
}

/// Adds a line `same`, `div` or `calc` without its end; no other line comes here.
fn push_other(alloc: Global, text: &mut Vec<u8>, line: &CertLine) -> Result<(), Starved>
    ensures { OnOk result (text.new.items ≡ text.old.items ++ line_text (line_of line.now)) }
{
    match line {
        CertLine::Same {
            direction,
            occurrence,
            equation,
            literal,
        } => {
            text.extend_from_slice(b"same")?;
            push_spaced_number(alloc, text, *direction as u64)?;
            push_spaced_number(alloc, text, *occurrence as u64)?;
            push_spaced_formula(alloc, text, equation.get())?;
            push_spaced_formula(alloc, text, literal.get())
        }
        CertLine::Div {
            part,
            dividend,
            divisor,
        } => {
            push_about(alloc, text, "div", *part, dividend.get())?;
            push_spaced_whole(alloc, text, *divisor)
        }
        CertLine::Calc(formula) => {
            text.extend_from_slice(b"calc")?;
            push_spaced_formula(alloc, text, formula.get())
        }
        _ => Err(Starved),
    }
}

/// Adds a line with its end.
fn push_ended(alloc: Global, text: &mut Vec<u8>, line: &CertLine) -> Result<(), Starved>
    ensures { OnOk result (text.new.items ≡ text.old.items ++ (line_text (line_of line.now) ++ line_end)) }
{
    push_line(alloc, text, line)?;
    text.extend_from_slice(b"\n")
}

/// Adds lines with their ends.
fn push_lines(alloc: Global, text: &mut Vec<u8>, lines: &CertLines) -> Result<(), Starved>
    ensures { OnOk result (text.new.items ≡ text.old.items ++ lines_text (map line_of lines.now)) }
{
    for line in lines.as_slice() {
        push_ended(alloc, text, line)?;
    }
    Ok(())
}

/// The text of a certificate. Its numbers fit, so it is read back, but for want of memory and texts that are too long. To
/// show this, the call first goes through all lines of the certificate, in time linear in their size.
pub fn cert_text(alloc: Global, c: &Cert) -> Result<ByteList, Starved>
    ensures text { IfOk result (λ text. text ≡ cert_bytes (lines_of c.now)) }
    ensures fits { IfOk result (λ _. AreLines (lines_of c.now)) }
{
    cert_fits(c);
    let mut text = Vec::new(alloc);
    text.extend_from_slice(b"cert 1\n")?;
    push_lines(alloc, &mut text, &c.lines)?;
    text.extend_from_slice(b"end\n")?;
    Ok(Items::from_vec(text))
}
