//! What is told and made of a term, a formula or a sort.

use crate::forms;
use crate::kind::{FormulaKind, TermKind};
use case_parts::{
    CaseFault, count_of, formula_of, push, push_formula_text, push_term_text, push_text, push_told,
    term_of,
};
use logic_terms::{
    Formula, Sort, Term, is_constant, names_nothing, negate, put_in, same_formula, same_sort,
    same_term,
};
use logic_truth::{TruthFault, truth};
use sqlite_items::Boxed;
use std::alloc::{AllocError, Global};
use term_reader::push_sort;

/// Adds whether a copy is the same.
fn push_same(line: &mut String, same: bool) -> Result<(), CaseFault> {
    push(line, if same { " is the same" } else { " is another" })
}

/// `copy_term t`
fn copied(alloc: Global, line: &mut String, t: &Term) -> Result<(), CaseFault> {
    match t.copy(alloc) {
        Err(_) => Err(CaseFault::Starved),
        Ok(copy) => {
            let same = same_term(t, &copy);
            let made = push_term_text(alloc, line, &copy);
            drop(copy);
            made?;
            push_same(line, same)
        }
    }
}

/// A case of a term.
pub fn of_term(
    alloc: Global,
    line: &mut String,
    kind: TermKind,
    t: &Term,
) -> Result<(), CaseFault> {
    match kind {
        TermKind::Text => push_term_text(alloc, line, t),
        TermKind::Copy => copied(alloc, line, t),
        TermKind::Form => forms::form(alloc, line, t),
        TermKind::Tighten => forms::tightened(alloc, line, t),
    }
}

/// `copy_formula F`
fn copied_formula(alloc: Global, line: &mut String, p: &Formula) -> Result<(), CaseFault> {
    match p.copy(alloc) {
        Err(_) => Err(CaseFault::Starved),
        Ok(copy) => {
            let same = same_formula(p, &copy);
            let made = push_formula_text(alloc, line, &copy);
            drop(copy);
            made?;
            push_same(line, same)
        }
    }
}

/// `truth F`
fn computed(alloc: Global, line: &mut String, p: &Formula) -> Result<(), CaseFault> {
    if !is_constant(p) {
        return push(line, "not constant");
    }
    match truth(alloc, p) {
        Ok(told) => push_told(line, told),
        Err(TruthFault::Wide) => push(line, "wide"),
        Err(TruthFault::TooLong) => push(line, "too long"),
        Err(TruthFault::Starved) => Err(CaseFault::Starved),
    }
}

/// `negate F`
fn negated(alloc: Global, line: &mut String, p: &Formula) -> Result<(), CaseFault> {
    match negate(alloc, p) {
        Ok(negation) => push_formula_text(alloc, line, &negation),
        Err(_) => Err(CaseFault::Starved),
    }
}

/// A case of a formula.
pub fn of_formula(
    alloc: Global,
    line: &mut String,
    kind: FormulaKind,
    p: &Formula,
) -> Result<(), CaseFault> {
    match kind {
        FormulaKind::Text => push_formula_text(alloc, line, p),
        FormulaKind::Copy => copied_formula(alloc, line, p),
        FormulaKind::Constant => push_told(line, is_constant(p)),
        FormulaKind::Nameless => push_told(line, names_nothing(p)),
        FormulaKind::Truth => computed(alloc, line, p),
        FormulaKind::Negate => negated(alloc, line, p),
    }
}

/// `sort S`
pub fn push_sort_text(alloc: Global, line: &mut String, sort: &Sort) -> Result<(), CaseFault> {
    let mut bytes = Vec::new(alloc);
    match push_sort(&mut bytes, sort) {
        Ok(()) => push_text(line, bytes.as_slice()),
        Err(_) => Err(CaseFault::Starved),
    }
}

/// `copy_sort S`
pub fn copied_sort(alloc: Global, line: &mut String, sort: &Sort) -> Result<(), CaseFault> {
    match sort.copy(alloc) {
        Err(_) => Err(CaseFault::Starved),
        Ok(copy) => {
            let same = same_sort(sort, &copy);
            let made = push_sort_text(alloc, line, &copy);
            drop(copy);
            made?;
            push_same(line, same)
        }
    }
}

/// A formula within so many times `(and _ T)`.
fn under(alloc: Global, levels: u32, p: Boxed<Formula>) -> Result<Boxed<Formula>, AllocError> {
    let mut p = p;
    for _ in 0..levels {
        let truth = Boxed::new(alloc, Formula::True)?;
        p = Boxed::new(alloc, Formula::And(p, truth))?;
    }
    Ok(p)
}

/// The formula that a word is, under other levels.
fn formula_under(alloc: Global, levels: &[u8], word: &[u8]) -> Result<Boxed<Formula>, CaseFault> {
    let levels = count_of(alloc, levels)?;
    let p = formula_of(alloc, word)?;
    match under(alloc, levels, p) {
        Ok(p) => Ok(p),
        Err(_) => Err(CaseFault::NotRead),
    }
}

/// `negate_under N F`
pub fn negated_under(
    alloc: Global,
    line: &mut String,
    levels: &[u8],
    word: &[u8],
) -> Result<(), CaseFault> {
    let p = formula_under(alloc, levels, word)?;
    negated(alloc, line, p.get())
}

fn push_put(alloc: Global, line: &mut String, p: &Formula, t: &Term) -> Result<(), CaseFault> {
    match put_in(alloc, p, t) {
        Ok(made) => push_formula_text(alloc, line, &made),
        Err(_) => Err(CaseFault::Starved),
    }
}

/// `put F t`
pub fn put(alloc: Global, line: &mut String, word: &[u8], by: &[u8]) -> Result<(), CaseFault> {
    let p = formula_of(alloc, word)?;
    let t = term_of(alloc, by)?;
    push_put(alloc, line, p.get(), t.get())
}

/// `put_under N F t`
pub fn put_under(
    alloc: Global,
    line: &mut String,
    levels: &[u8],
    word: &[u8],
    by: &[u8],
) -> Result<(), CaseFault> {
    let p = formula_under(alloc, levels, word)?;
    let t = term_of(alloc, by)?;
    push_put(alloc, line, p.get(), t.get())
}
