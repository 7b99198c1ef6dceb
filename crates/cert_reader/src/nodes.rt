//! Terms and formulas, each with a space before it.

ghost use Rattle.std.specs.Prelude.{◌≡◌, ◌<◌, ◌≤◌, ◌++◌, length, drop, IfOk, IfErr};
ghost use Rattle.logic_terms.specs.View.{term as term_of, formula as formula_of};
ghost use Rattle.logic_text.specs.Certs.{spaced_node};
ghost use Rattle.term_reader.specs.Phases.{IsUpTo, IsBadAt};
ghost use Rattle.cert_reader.specs.Phases.{Phase, term, formula, Has};

use std::alloc::Global;
use term_reader::{FormulaRead, ReadFault, TermRead, read_formula, read_term, read_word};

/// Reads a space and a term.
pub fn read_spaced_term(alloc: Global, bytes: &[u8], at: usize) -> Result<TermRead, ReadFault>
    requires { at ≤ length bytes.now }
    ensures before { IfOk result (λ r. at < r.to) }
    ensures inside { IfOk result (λ r. r.to ≤ length bytes.now) }
    ensures text { IfOk result (λ r. drop at bytes.now ≡ spaced_node (term_of r.term) ++ drop r.to bytes.now) }
    ensures on { IfOk result (λ r. (p : Phase) → IsUpTo (Has (term p)) (drop at bytes.now) (Has p) (drop r.to bytes.now)) }
    ensures fault { IfErr result (λ f. (p : Phase) → IsBadAt (Has (term p)) bytes.now at f) }
{
    match read_word(bytes, at, b" ") {
        Err(to) => Err(ReadFault::BadText(to)),
        Ok(from) => match read_term(alloc, bytes, from) {
            Err(fault) => Err(fault),
            Ok(read) => Ok(read),
        },
    }
}

/// Reads a space and a formula.
pub fn read_spaced_formula(alloc: Global, bytes: &[u8], at: usize) -> Result<FormulaRead, ReadFault>
    requires { at ≤ length bytes.now }
    ensures before { IfOk result (λ r. at < r.to) }
    ensures inside { IfOk result (λ r. r.to ≤ length bytes.now) }
    ensures text { IfOk result (λ r. drop at bytes.now ≡ spaced_node (formula_of r.formula) ++ drop r.to bytes.now) }
    ensures on { IfOk result (λ r. (p : Phase) → IsUpTo (Has (formula p)) (drop at bytes.now) (Has p) (drop r.to bytes.now)) }
    ensures fault { IfErr result (λ f. (p : Phase) → IsBadAt (Has (formula p)) bytes.now at f) }
{
    match read_word(bytes, at, b" ") {
        Err(to) => Err(ReadFault::BadText(to)),
        Ok(from) => match read_formula(alloc, bytes, from) {
            Err(fault) => Err(fault),
            Ok(read) => Ok(read),
        },
    }
}
