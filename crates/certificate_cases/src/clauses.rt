//! The clauses of rules.

use crate::texts::cert_of_line;
use case_parts::{CaseFault, push, push_formula_text};
use cert_arrays::{array_clause, extensional};
use cert_clauses::{
    compared, computed, field_clause, hypothesis, instance_of, multiplied, opened, sides,
    witness_of,
};
use cert_division::division_fact;
use cert_lines::{Cert, CertLine};
use cert_replacing::replacement;
use cert_rules::LineFault;
use cert_sorts::sort_of;
use logic_terms::{Formula, FormulaList, Goal, Sort, Term, is_constant};
use sqlite_items::Boxed;
use std::alloc::Global;

type Clause = Result<FormulaList, LineFault>;

/// The sort of a term.
fn sorted(alloc: Global, goal: &Goal, t: &Term) -> Result<Boxed<Sort>, LineFault> {
    match sort_of(alloc, goal, 0, t)? {
        Some(sort) => Ok(sort),
        None => Err(LineFault::NotAllowed),
    }
}

fn choice(alloc: Global, goal: &Goal, t: &Term, part: u32) -> Clause {
    let sort = sorted(alloc, goal, t)?;
    sides(alloc, sort.get(), t, part)
}

fn of_array(alloc: Global, goal: &Goal, t: &Term, part: u32) -> Clause {
    let sort = sorted(alloc, goal, t)?;
    array_clause(alloc, sort.get(), t, part)
}

fn of_record(alloc: Global, goal: &Goal, t: &Term, part: u32) -> Clause {
    let sort = sorted(alloc, goal, t)?;
    field_clause(alloc, sort.get(), t, part)
}

fn of_arrays(alloc: Global, goal: &Goal, a: &Term, b: &Term) -> Clause {
    let sort = sorted(alloc, goal, a)?;
    match sort.get() {
        Sort::Array(item) => Ok(extensional(alloc, item.get(), a, b)?),
        _ => Err(LineFault::NotAllowed),
    }
}

fn calculated(alloc: Global, p: &Formula) -> Clause {
    if is_constant(p) {
        computed(alloc, p)
    } else {
        Err(LineFault::NotAllowed)
    }
}

/// The clause of a line of a connective, a quantifier or numbers; of another, that of a term.
fn clause_of(alloc: Global, goal: &Goal, line: &CertLine) -> Clause {
    match line {
        CertLine::Given(k) => hypothesis(alloc, goal, *k),
        CertLine::Open { part, formula } => opened(alloc, formula.get(), *part),
        CertLine::Tri { left, right } => Ok(compared(alloc, left.get(), right.get())?),
        CertLine::Ins { at, formula } => instance_of(alloc, at.get(), formula.get()),
        CertLine::New { symbol, formula } => witness_of(alloc, *symbol, formula.get()),
        CertLine::Same {
            direction,
            occurrence,
            equation,
            literal,
        } => replacement(
            alloc,
            *direction,
            *occurrence,
            equation.get(),
            literal.get(),
        ),
        CertLine::Div {
            part,
            dividend,
            divisor,
        } => division_fact(alloc, dividend.get(), *divisor, *part),
        CertLine::Mul { left, right } => Ok(multiplied(alloc, left.get(), right.get())?),
        CertLine::Calc(formula) => calculated(alloc, formula.get()),
        CertLine::Case { part, term } => choice(alloc, goal, term.get(), *part),
        CertLine::Arr { part, term } => of_array(alloc, goal, term.get(), *part),
        CertLine::Ext { left, right } => of_arrays(alloc, goal, left.get(), right.get()),
        CertLine::Fld { part, term } => of_record(alloc, goal, term.get(), *part),
        CertLine::Rup { .. } | CertLine::Lin { .. } => Err(LineFault::NotAllowed),
    }
}

/// Adds the literals, separated by commas.
fn push_clause(alloc: Global, line: &mut String, clause: &FormulaList) -> Result<(), CaseFault> {
    let mut separator = "";
    for literal in clause.as_slice() {
        push(line, separator)?;
        push_formula_text(alloc, line, literal)?;
        separator = ", ";
    }
    Ok(())
}

fn push_made(alloc: Global, line: &mut String, made: Clause) -> Result<(), CaseFault> {
    match made {
        Ok(clause) => push_clause(alloc, line, &clause),
        Err(LineFault::NotAllowed) => push(line, "not allowed"),
        Err(LineFault::Wide) => push(line, "wide"),
        Err(LineFault::Starved) => Err(CaseFault::Starved),
    }
}

fn push_first(alloc: Global, line: &mut String, goal: &Goal, cert: &Cert) -> Result<(), CaseFault> {
    match cert.lines.as_slice() {
        [first] => push_made(alloc, line, clause_of(alloc, goal, first)),
        _ => Err(CaseFault::BadCase),
    }
}

/// `clause LINE`
pub fn made(alloc: Global, line: &mut String, goal: &Goal, word: &[u8]) -> Result<(), CaseFault> {
    let cert = cert_of_line(alloc, word)?;
    push_first(alloc, line, goal, &cert)
}
