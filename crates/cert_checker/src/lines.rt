//! The lines of each rule, where their terms and formulas are closed and well sorted.

#![tactic(auto, using(crate::proofs::Allowed::fault_when, crate::proofs::Allowed::judged_when, crate::proofs::Allowed::judged_of_kind))]

ghost use Rattle.std.specs.Prelude.{◌≡◌, ◌==◌, IfOk, List, map};
ghost use Rattle.logic_terms.specs.View.{term, formula};
ghost use Rattle.cert_lines.specs.Line.{opening, choice, propagation, linear, trichotomy, instance, witness, replacing, array_fact, extensionality, field_fact, division, product, computing};
ghost use Rattle.cert_lines.specs.View.{step};
ghost use Rattle.logic_terms.specs.Node.{Node};
ghost use Rattle.cert_sorts.specs.Found.{found};
ghost use Rattle.cert_rules.specs.Compound.{extensional as extensional_by};
ghost use Rattle.cert_rules.specs.Context.{all_formulas, next_symbol};
ghost use Rattle.cert_rules.specs.Judged.{yields};
ghost use Rattle.cert_rules.specs.Rules.{judge, of_arrays};
ghost use Rattle.cert_rules.specs.Judges.{Judges, clause};
ghost use Rattle.cert_linear.specs.Here.{context, here};
ghost use Rattle.cert_store.specs.Store.{clauses};

use cert_arrays::{array_clause, extensional};
use cert_clauses::{
    compared, computed, field_clause, instance_of, multiplied, opened, sides, witness_of,
};
use cert_division::division_fact;
use cert_linear::linear_line;
use cert_lines::{HintList, StepLines};
use cert_replacing::replacement;
use cert_rules::LineFault;
use cert_sorts::{FoundSort, is_formula, is_number, sort_of};
use cert_store::ClauseStore;
use logic_terms::{
    Formula, FormulaList, Goal, Sort, Starved, Term, copy_formulas, is_constant, same_sort,
};
use std::alloc::Global;

/// A line by C2 of a connective.
pub fn opening(
    alloc: Global,
    goal: &Goal,
    fresh: u32,
    part: u32,
    p: &Formula,
) -> Result<FormulaList, LineFault>
    ensures { Judges clause (judge (here goal.now fresh) (opening part (formula p.now))) result }
{
    if is_formula(alloc, goal, fresh, p)? {
        opened(alloc, p, part)
    } else {
        Err(LineFault::NotAllowed)
    }
}

/// A line by C2 of a choice.
pub fn choice(
    alloc: Global,
    goal: &Goal,
    fresh: u32,
    part: u32,
    t: &Term,
) -> Result<FormulaList, LineFault>
    ensures { Judges clause (judge (here goal.now fresh) (choice part (term t.now))) result }
{
    match sort_of(alloc, goal, fresh, t)? {
        Some(sort) => sides(alloc, sort.get(), t, part),
        None => Err(LineFault::NotAllowed),
    }
}

/// Whether the formulas are closed and well sorted.
fn are_formulas(alloc: Global, goal: &Goal, fresh: u32, ps: &FormulaList) -> Result<bool, Starved>
    ensures { IfOk result (λ r. r ≡ all_formulas (here goal.now fresh) (map formula ps.now)) }
{
    for p in ps.as_slice() {
        if !is_formula(alloc, goal, fresh, p)? {
            return Ok(false);
        }
    }
    Ok(true)
}

/// A line by C3.
pub fn propagation(
    alloc: Global,
    goal: &Goal,
    fresh: u32,
    store: &ClauseStore,
    literals: &FormulaList,
    hints: &HintList,
) -> Result<FormulaList, LineFault>
    ensures { Judges clause (judge (context goal.now fresh (clauses store.now)) (propagation (map formula literals.now) hints.now)) result }
{
    if are_formulas(alloc, goal, fresh, literals)? && store.follows(alloc, literals, hints)? {
        Ok(copy_formulas(alloc, literals)?)
    } else {
        Err(LineFault::NotAllowed)
    }
}

/// A line by C4.
pub fn linear(
    alloc: Global,
    goal: &Goal,
    fresh: u32,
    literals: &FormulaList,
    steps: &StepLines,
) -> Result<FormulaList, LineFault>
    ensures { (earlier : List (List Node)) → Judges clause (judge (context goal.now fresh earlier) (linear (map formula literals.now) (map step steps.now))) result }
{
    if are_formulas(alloc, goal, fresh, literals)? {
        linear_line(alloc, goal, fresh, literals, steps)?;
        Ok(copy_formulas(alloc, literals)?)
    } else {
        Err(LineFault::NotAllowed)
    }
}

/// A line by C5.
pub fn trichotomy(
    alloc: Global,
    goal: &Goal,
    fresh: u32,
    a: &Term,
    b: &Term,
) -> Result<FormulaList, LineFault>
    ensures { Judges clause (judge (here goal.now fresh) (trichotomy (term a.now) (term b.now))) result }
{
    if is_number(alloc, goal, fresh, a)? && is_number(alloc, goal, fresh, b)? {
        Ok(compared(alloc, a, b)?)
    } else {
        Err(LineFault::NotAllowed)
    }
}

/// A line by C6.
pub fn instance(
    alloc: Global,
    goal: &Goal,
    fresh: u32,
    t: &Term,
    q: &Formula,
) -> Result<FormulaList, LineFault>
    ensures { Judges clause (judge (here goal.now fresh) (instance (term t.now) (formula q.now))) result }
{
    if is_number(alloc, goal, fresh, t)? && is_formula(alloc, goal, fresh, q)? {
        instance_of(alloc, t, q)
    } else {
        Err(LineFault::NotAllowed)
    }
}

/// Whether the symbol is the next new one.
fn is_next(goal: &Goal, fresh: u32, symbol: u32) -> bool
    ensures { result ≡ (symbol == next_symbol (here goal.now fresh)) }
{
    let symbol = symbol as usize;
    let own = goal.symbols.len();
    if symbol < own {
        return false;
    }
    symbol - own == fresh as usize
}

/// A line by C7.
pub fn witness(
    alloc: Global,
    goal: &Goal,
    fresh: u32,
    symbol: u32,
    q: &Formula,
) -> Result<FormulaList, LineFault>
    ensures { Judges clause (judge (here goal.now fresh) (witness symbol (formula q.now))) result }
{
    if is_next(goal, fresh, symbol) && is_formula(alloc, goal, fresh, q)? {
        witness_of(alloc, symbol, q)
    } else {
        Err(LineFault::NotAllowed)
    }
}

/// A line by C8.
pub fn replacing(
    alloc: Global,
    goal: &Goal,
    fresh: u32,
    direction: u32,
    occurrence: u32,
    equation: &Formula,
    literal: &Formula,
) -> Result<FormulaList, LineFault>
    ensures { Judges clause (judge (here goal.now fresh) (replacing direction occurrence (formula equation.now) (formula literal.now))) result }
{
    if is_formula(alloc, goal, fresh, equation)? && is_formula(alloc, goal, fresh, literal)? {
        replacement(alloc, direction, occurrence, equation, literal)
    } else {
        Err(LineFault::NotAllowed)
    }
}

/// A line by C9.
pub fn array_fact(
    alloc: Global,
    goal: &Goal,
    fresh: u32,
    part: u32,
    t: &Term,
) -> Result<FormulaList, LineFault>
    ensures { Judges clause (judge (here goal.now fresh) (array_fact part (term t.now))) result }
{
    match sort_of(alloc, goal, fresh, t)? {
        Some(sort) => array_clause(alloc, sort.get(), t, part),
        None => Err(LineFault::NotAllowed),
    }
}

/// A line by C10 of terms of these sorts.
fn extensionality_at(
    alloc: Global,
    first: &FoundSort,
    second: &FoundSort,
    a: &Term,
    b: &Term,
) -> Result<FormulaList, LineFault>
    ensures { Judges clause (of_arrays (found first.now) (found second.now) (λ k. yields (extensional_by k (term a.now) (term b.now)))) result }
{
    match (first, second) {
        (Some(first), Some(second)) => match (first.get(), second.get()) {
            (Sort::Array(j), Sort::Array(k)) => {
                if same_sort(j.get(), k.get()) {
                    Ok(extensional(alloc, j.get(), a, b)?)
                } else {
                    Err(LineFault::NotAllowed)
                }
            }
            _ => Err(LineFault::NotAllowed),
        },
        _ => Err(LineFault::NotAllowed),
    }
}

/// A line by C10.
pub fn extensionality(
    alloc: Global,
    goal: &Goal,
    fresh: u32,
    a: &Term,
    b: &Term,
) -> Result<FormulaList, LineFault>
    ensures { Judges clause (judge (here goal.now fresh) (extensionality (term a.now) (term b.now))) result }
{
    let first = sort_of(alloc, goal, fresh, a)?;
    let second = sort_of(alloc, goal, fresh, b)?;
    extensionality_at(alloc, &first, &second, a, b)
}

/// A line by C11.
pub fn field_fact(
    alloc: Global,
    goal: &Goal,
    fresh: u32,
    part: u32,
    t: &Term,
) -> Result<FormulaList, LineFault>
    ensures { Judges clause (judge (here goal.now fresh) (field_fact part (term t.now))) result }
{
    match sort_of(alloc, goal, fresh, t)? {
        Some(sort) => field_clause(alloc, sort.get(), t, part),
        None => Err(LineFault::NotAllowed),
    }
}

/// A line by C12.
pub fn division(
    alloc: Global,
    goal: &Goal,
    fresh: u32,
    part: u32,
    a: &Term,
    d: i128,
) -> Result<FormulaList, LineFault>
    ensures { Judges clause (judge (here goal.now fresh) (division part (term a.now) d)) result }
{
    if is_number(alloc, goal, fresh, a)? && d != 0 {
        division_fact(alloc, a, d, part)
    } else {
        Err(LineFault::NotAllowed)
    }
}

/// A line by C13.
pub fn product(
    alloc: Global,
    goal: &Goal,
    fresh: u32,
    a: &Term,
    b: &Term,
) -> Result<FormulaList, LineFault>
    ensures { Judges clause (judge (here goal.now fresh) (product (term a.now) (term b.now))) result }
{
    if is_number(alloc, goal, fresh, a)? && is_number(alloc, goal, fresh, b)? {
        Ok(multiplied(alloc, a, b)?)
    } else {
        Err(LineFault::NotAllowed)
    }
}

/// A line by C14.
pub fn computing(
    alloc: Global,
    goal: &Goal,
    fresh: u32,
    p: &Formula,
) -> Result<FormulaList, LineFault>
    ensures { Judges clause (judge (here goal.now fresh) (computing (formula p.now))) result }
{
    if is_formula(alloc, goal, fresh, p)? && is_constant(p) {
        computed(alloc, p)
    } else {
        Err(LineFault::NotAllowed)
    }
}
