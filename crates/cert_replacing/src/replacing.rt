//! Equals for equals at one occurrence of a term.

ghost use Rattle.std.specs.Prelude.{◌≡◌, ◌∷◌, [], IfOk};
ghost use Rattle.logic_terms.specs.Binding.{negated};
ghost use Rattle.logic_terms.specs.View.{formula, term};
ghost use Rattle.cert_rules.specs.Judged.{and_then, yields};
ghost use Rattle.cert_rules.specs.Replacing.{directed, replaced, replacement as replacement_of, replacing_clause};
ghost use Rattle.cert_rules.specs.Judges.{Judges, clause};

use crate::swapping::replace_in;
use cert_rules::{LineFault, clause_of_three, negation};
use logic_terms::{Formula, FormulaList, Starved, Term};
use sqlite_items::Boxed;
use std::alloc::Global;

/// That the literal follows in its changed form where the equation holds.
fn changed_clause(
    alloc: Global,
    equation: &Formula,
    literal: &Formula,
    changed: Boxed<Formula>,
) -> Result<FormulaList, LineFault>
    ensures { Judges clause (yields (negated (formula equation.now) ∷ negated (formula literal.now) ∷ formula changed ∷ [])) result }
{
    Ok(clause_of_three(
        alloc,
        negation(alloc, equation)?,
        negation(alloc, literal)?,
        changed,
    )?)
}

/// From `x` to `y` at an occurrence in the literal.
fn replaced_by(
    alloc: Global,
    x: &Term,
    y: &Term,
    occurrence: u32,
    equation: &Formula,
    literal: &Formula,
) -> Result<FormulaList, LineFault>
    ensures { Judges clause (replacing_clause (formula equation.now) (formula literal.now) (replaced (term x.now) (term y.now) (formula literal.now) occurrence)) result }
{
    match replace_in(alloc, x, y, literal, occurrence)? {
        Some(changed) => changed_clause(alloc, equation, literal, changed),
        None => Err(LineFault::NotAllowed),
    }
}

/// From the left side to the right at direction 0, the other way at 1.
fn directed_by(
    alloc: Global,
    x: &Term,
    y: &Term,
    direction: u32,
    occurrence: u32,
    equation: &Formula,
    literal: &Formula,
) -> Result<FormulaList, LineFault>
    ensures { Judges clause (and_then (directed direction (term x.now, term y.now)) (λ t. replacing_clause (formula equation.now) (formula literal.now) (replaced t.0 t.1 (formula literal.now) occurrence))) result }
{
    match direction {
        0 => replaced_by(alloc, x, y, occurrence, equation, literal),
        1 => replaced_by(alloc, y, x, occurrence, equation, literal),
        _ => Err(LineFault::NotAllowed),
    }
}

/// What an equation says of a literal where one side is replaced by the other at one occurrence, which are numbered from 0 in
/// the order of the text. At direction 0 the left side is replaced by the right, at 1 the right by the left. `NotAllowed` at
/// another direction, where the formula is no equation and where there are not so many occurrences.
pub fn replacement(
    alloc: Global,
    direction: u32,
    occurrence: u32,
    equation: &Formula,
    literal: &Formula,
) -> Result<FormulaList, LineFault>
    ensures { Judges clause (replacement_of direction occurrence (formula equation.now) (formula literal.now)) result }
{
    match equation {
        Formula::Eq(x, y) => directed_by(
            alloc,
            x.get(),
            y.get(),
            direction,
            occurrence,
            equation,
            literal,
        ),
        Formula::Iff(p, q) => match p.get() {
            Formula::Tru(x) => match q.get() {
                Formula::Tru(y) => directed_by(
                    alloc,
                    x.get(),
                    y.get(),
                    direction,
                    occurrence,
                    equation,
                    literal,
                ),
                _ => Err(LineFault::NotAllowed),
            },
            _ => Err(LineFault::NotAllowed),
        },
        _ => Err(LineFault::NotAllowed),
    }
}
