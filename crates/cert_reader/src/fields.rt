//! The parts of a line together.

ghost use Rattle.std.specs.Prelude.{◌≡◌, ◌<◌, ◌≤◌, ◌++◌, length, drop, IfOk, IfErr};
ghost use Rattle.logic_terms.specs.View.{term as term_of, formula as formula_of};
ghost use Rattle.logic_text.specs.Certs.{spaced_number, spaced_node};
ghost use Rattle.term_reader.specs.Phases.{IsUpTo, IsBadAt};
ghost use Rattle.cert_reader.specs.Phases.{Phase, index, term, formula, Has};

use crate::nodes::{read_spaced_formula, read_spaced_term};
use crate::numbers::read_index;
use logic_terms::{Formula, Term};
use sqlite_items::Boxed;
use std::alloc::Global;
use term_reader::ReadFault;

/// A number and a term, and the place after them.
#[derive(Drop)]
pub struct IndexTerm {
    pub index: u32,
    pub term: Boxed<Term>,
    pub to: usize,
}

/// Reads a number and a term.
pub fn read_index_term(alloc: Global, bytes: &[u8], at: usize) -> Result<IndexTerm, ReadFault>
    requires { at ≤ length bytes.now }
    ensures before { IfOk result (λ r. at < r.to) }
    ensures inside { IfOk result (λ r. r.to ≤ length bytes.now) }
    ensures text { IfOk result (λ r. drop at bytes.now ≡ spaced_number r.index ++ (spaced_node (term_of r.term) ++ drop r.to bytes.now)) }
    ensures on { IfOk result (λ r. (p : Phase) → IsUpTo (Has (index (term p))) (drop at bytes.now) (Has p) (drop r.to bytes.now)) }
    ensures fault { IfErr result (λ f. (p : Phase) → IsBadAt (Has (index (term p))) bytes.now at f) }
{
    match read_index(bytes, at) {
        Err(fault) => Err(fault),
        Ok(index) => match read_spaced_term(alloc, bytes, index.to) {
            Err(fault) => Err(fault),
            Ok(read) => Ok(IndexTerm {
                index: index.value,
                term: read.term,
                to: read.to,
            }),
        },
    }
}

/// A number and a formula, and the place after them.
#[derive(Drop)]
pub struct IndexFormula {
    pub index: u32,
    pub formula: Boxed<Formula>,
    pub to: usize,
}

/// Reads a number and a formula.
pub fn read_index_formula(alloc: Global, bytes: &[u8], at: usize) -> Result<IndexFormula, ReadFault>
    requires { at ≤ length bytes.now }
    ensures before { IfOk result (λ r. at < r.to) }
    ensures inside { IfOk result (λ r. r.to ≤ length bytes.now) }
    ensures text { IfOk result (λ r. drop at bytes.now ≡ spaced_number r.index ++ (spaced_node (formula_of r.formula) ++ drop r.to bytes.now)) }
    ensures on { IfOk result (λ r. (p : Phase) → IsUpTo (Has (index (formula p))) (drop at bytes.now) (Has p) (drop r.to bytes.now)) }
    ensures fault { IfErr result (λ f. (p : Phase) → IsBadAt (Has (index (formula p))) bytes.now at f) }
{
    match read_index(bytes, at) {
        Err(fault) => Err(fault),
        Ok(index) => match read_spaced_formula(alloc, bytes, index.to) {
            Err(fault) => Err(fault),
            Ok(read) => Ok(IndexFormula {
                index: index.value,
                formula: read.formula,
                to: read.to,
            }),
        },
    }
}

/// Two terms, and the place after them.
#[derive(Drop)]
pub struct TermTerm {
    pub left: Boxed<Term>,
    pub right: Boxed<Term>,
    pub to: usize,
}

/// Reads two terms.
pub fn read_terms(alloc: Global, bytes: &[u8], at: usize) -> Result<TermTerm, ReadFault>
    requires { at ≤ length bytes.now }
    ensures before { IfOk result (λ r. at < r.to) }
    ensures inside { IfOk result (λ r. r.to ≤ length bytes.now) }
    ensures text { IfOk result (λ r. drop at bytes.now ≡ spaced_node (term_of r.left) ++ (spaced_node (term_of r.right) ++ drop r.to bytes.now)) }
    ensures on { IfOk result (λ r. (p : Phase) → IsUpTo (Has (term (term p))) (drop at bytes.now) (Has p) (drop r.to bytes.now)) }
    ensures fault { IfErr result (λ f. (p : Phase) → IsBadAt (Has (term (term p))) bytes.now at f) }
{
    match read_spaced_term(alloc, bytes, at) {
        Err(fault) => Err(fault),
        Ok(left) => match read_spaced_term(alloc, bytes, left.to) {
            Err(fault) => Err(fault),
            Ok(right) => Ok(TermTerm {
                left: left.term,
                right: right.term,
                to: right.to,
            }),
        },
    }
}

/// A term and a formula, and the place after them.
#[derive(Drop)]
pub struct TermFormula {
    pub term: Boxed<Term>,
    pub formula: Boxed<Formula>,
    pub to: usize,
}

/// Reads a term and a formula.
pub fn read_term_formula(alloc: Global, bytes: &[u8], at: usize) -> Result<TermFormula, ReadFault>
    requires { at ≤ length bytes.now }
    ensures before { IfOk result (λ r. at < r.to) }
    ensures inside { IfOk result (λ r. r.to ≤ length bytes.now) }
    ensures text { IfOk result (λ r. drop at bytes.now ≡ spaced_node (term_of r.term) ++ (spaced_node (formula_of r.formula) ++ drop r.to bytes.now)) }
    ensures on { IfOk result (λ r. (p : Phase) → IsUpTo (Has (term (formula p))) (drop at bytes.now) (Has p) (drop r.to bytes.now)) }
    ensures fault { IfErr result (λ f. (p : Phase) → IsBadAt (Has (term (formula p))) bytes.now at f) }
{
    match read_spaced_term(alloc, bytes, at) {
        Err(fault) => Err(fault),
        Ok(term) => match read_spaced_formula(alloc, bytes, term.to) {
            Err(fault) => Err(fault),
            Ok(read) => Ok(TermFormula {
                term: term.term,
                formula: read.formula,
                to: read.to,
            }),
        },
    }
}
