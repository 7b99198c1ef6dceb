//! Literals after their number.

ghost use Rattle.std.specs.Prelude.{◌≡◌, ◌<◌, ◌≤◌, ◌++◌, length, drop, map, IfOk, IfErr};
ghost use Rattle.logic_terms.specs.View.{formula as formula_of};
ghost use Rattle.logic_text.specs.Certs.{nodes_text, literals_text};
ghost use Rattle.term_reader.specs.Phases.{IsUpTo, IsBadAt};
ghost use Rattle.cert_reader.specs.Phases.{Phase, times, counted, Has};

use crate::nodes::read_spaced_formula;
use crate::numbers::read_count;
use logic_terms::FormulaList;
use sqlite_items::Items;
use std::alloc::Global;
use term_reader::ReadFault;

/// Formulas that are read, and the place after them.
#[derive(Drop)]
pub struct Literals {
    pub literals: FormulaList,
    pub to: usize,
}

/// Reads so many formulas.
fn read_formulas(alloc: Global, bytes: &[u8], at: usize, count: u64) -> Result<Literals, ReadFault>
    requires { at ≤ length bytes.now }
    ensures before { IfOk result (λ r. at ≤ r.to) }
    ensures inside { IfOk result (λ r. r.to ≤ length bytes.now) }
    ensures number { IfOk result (λ r. length r.literals ≡ count) }
    ensures text { IfOk result (λ r. drop at bytes.now ≡ nodes_text (map formula_of r.literals) ++ drop r.to bytes.now) }
    ensures on { IfOk result (λ r. (p : Phase) → IsUpTo (Has (times count p)) (drop at bytes.now) (Has p) (drop r.to bytes.now)) }
    ensures fault { IfErr result (λ f. (p : Phase) → IsBadAt (Has (times count p)) bytes.now at f) }
{
    let mut literals = Items::new(alloc);
    let mut left = count;
    let mut to = at;
    while left > 0 {
        match read_spaced_formula(alloc, bytes, to) {
            Err(fault) => return Err(fault),
            Ok(read) => match literals.push(read.formula.into_inner()) {
                Err(_) => return Err(ReadFault::Starved),
                Ok(()) => {
                    to = read.to;
                    left -= 1;
                }
            },
        }
    }
    Ok(Literals { literals, to })
}

/// Reads the number of literals and the literals.
pub fn read_literals(alloc: Global, bytes: &[u8], at: usize) -> Result<Literals, ReadFault>
    requires { at ≤ length bytes.now }
    ensures before { IfOk result (λ r. at < r.to) }
    ensures inside { IfOk result (λ r. r.to ≤ length bytes.now) }
    ensures text { IfOk result (λ r. drop at bytes.now ≡ literals_text (map formula_of r.literals) ++ drop r.to bytes.now) }
    ensures on { IfOk result (λ r. (p : Phase) → IsUpTo (Has (counted p)) (drop at bytes.now) (Has p) (drop r.to bytes.now)) }
    ensures fault { IfErr result (λ f. (p : Phase) → IsBadAt (Has (counted p)) bytes.now at f) }
{
    match read_count(bytes, at) {
        Err(fault) => Err(fault),
        Ok(count) => match read_formulas(alloc, bytes, count.to, count.value) {
            Err(fault) => Err(fault),
            Ok(read) => Ok(read),
        },
    }
}
