//! Terms, formulas and sorts at a place of a text.

ghost use Rattle.std.specs.Prelude.{◌≤◌, length, IfOk, IfErr};
ghost use Rattle.logic_terms.specs.Sorts.{sort as kind_of};
ghost use Rattle.logic_terms.specs.View.{term as term_of, formula as formula_of};
ghost use Rattle.term_reader.specs.Reads.{IsRead, IsReadFault};
ghost use Rattle.term_reader.specs.Trees.{of_kind, of_node};
ghost use Rattle.term_reader.specs.declared.part.Side.{Side};

use crate::fault::ReadFault;
use crate::part::{Part, Side};
use crate::steps::{Read, read_part};
use logic_terms::{Formula, Sort, Term};
use sqlite_items::Boxed;
use std::alloc::Global;

/// A term that is read, and the place after it.
#[derive(Drop)]
pub struct TermRead {
    pub term: Boxed<Term>,
    pub to: usize,
}

/// The term at a place, with the faults of `read_part`.
pub fn read_term(alloc: Global, bytes: &[u8], at: usize) -> Result<TermRead, ReadFault>
    requires { at ≤ length bytes.now }
    ensures ok { IfOk result (λ r. IsRead Side.Term (of_node (term_of r.term)) bytes.now at r.to) }
    ensures fault { IfErr result (λ f. IsReadFault Side.Term bytes.now at f) }
{
    match read_part(alloc, bytes, at, Side::Term) {
        Err(fault) => Err(fault),
        Ok(Read { part, to }) => match part {
            Part::Term(term) => Ok(TermRead { term, to }),
            _ => Err(ReadFault::Starved),
        },
    }
}

/// A formula that is read, and the place after it.
#[derive(Drop)]
pub struct FormulaRead {
    pub formula: Boxed<Formula>,
    pub to: usize,
}

/// The formula at a place, with the faults of `read_part`.
pub fn read_formula(alloc: Global, bytes: &[u8], at: usize) -> Result<FormulaRead, ReadFault>
    requires { at ≤ length bytes.now }
    ensures ok { IfOk result (λ r. IsRead Side.Formula (of_node (formula_of r.formula)) bytes.now at r.to) }
    ensures fault { IfErr result (λ f. IsReadFault Side.Formula bytes.now at f) }
{
    match read_part(alloc, bytes, at, Side::Formula) {
        Err(fault) => Err(fault),
        Ok(Read { part, to }) => match part {
            Part::Formula(formula) => Ok(FormulaRead { formula, to }),
            _ => Err(ReadFault::Starved),
        },
    }
}

/// A sort that is read, and the place after it.
#[derive(Drop)]
pub struct SortRead {
    pub sort: Boxed<Sort>,
    pub to: usize,
}

/// The sort at a place, with the faults of `read_part`.
pub fn read_sort(alloc: Global, bytes: &[u8], at: usize) -> Result<SortRead, ReadFault>
    requires { at ≤ length bytes.now }
    ensures ok { IfOk result (λ r. IsRead Side.Sort (of_kind (kind_of r.sort)) bytes.now at r.to) }
    ensures fault { IfErr result (λ f. IsReadFault Side.Sort bytes.now at f) }
{
    match read_part(alloc, bytes, at, Side::Sort) {
        Err(fault) => Err(fault),
        Ok(Read { part, to }) => match part {
            Part::Sort(sort) => Ok(SortRead { sort, to }),
            _ => Err(ReadFault::Starved),
        },
    }
}
