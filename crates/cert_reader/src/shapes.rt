//! Lines after their words.

ghost use Rattle.std.specs.Prelude.{◌≢◌, ◌≤◌, length, IfOk, IfErr};
ghost use Rattle.term_reader.specs.Phases.{IsBadAt};
ghost use Rattle.cert_reader.specs.Entries.{IsFields};
ghost use Rattle.cert_reader.specs.Phases.{fields, Has};
ghost use Rattle.cert_reader.specs.declared.line_word.LineWord.{LineWord};

use crate::fields::{read_index_formula, read_index_term, read_term_formula, read_terms};
use crate::hints::read_hints;
use crate::line_word::LineWord;
use crate::literals::read_literals;
use crate::nodes::read_spaced_formula;
use crate::numbers::{read_index, read_spaced_whole};
use crate::steps::read_steps;
use cert_lines::CertLine;
use std::alloc::Global;
use term_reader::ReadFault;

/// A line that is read up to its end, and the place after it.
#[derive(Drop)]
pub struct LineRead {
    pub line: CertLine,
    pub to: usize,
}

/// `given K`
fn read_given(bytes: &[u8], at: usize) -> Result<LineRead, ReadFault>
    requires { at ≤ length bytes.now }
    ensures ok { IfOk result (λ r. IsFields LineWord.Given r.line bytes.now at r.to) }
    ensures fault { IfErr result (λ f. IsBadAt (Has (fields LineWord.Given)) bytes.now at f) }
{
    match read_index(bytes, at) {
        Err(fault) => Err(fault),
        Ok(read) => Ok(LineRead {
            line: CertLine::Given(read.value),
            to: read.to,
        }),
    }
}

/// `open P A`
fn read_open(alloc: Global, bytes: &[u8], at: usize) -> Result<LineRead, ReadFault>
    requires { at ≤ length bytes.now }
    ensures ok { IfOk result (λ r. IsFields LineWord.Open r.line bytes.now at r.to) }
    ensures fault { IfErr result (λ f. IsBadAt (Has (fields LineWord.Open)) bytes.now at f) }
{
    match read_index_formula(alloc, bytes, at) {
        Err(fault) => Err(fault),
        Ok(read) => Ok(LineRead {
            line: CertLine::Open {
                part: read.index,
                formula: read.formula,
            },
            to: read.to,
        }),
    }
}

/// `case P t`
fn read_case(alloc: Global, bytes: &[u8], at: usize) -> Result<LineRead, ReadFault>
    requires { at ≤ length bytes.now }
    ensures ok { IfOk result (λ r. IsFields LineWord.Case r.line bytes.now at r.to) }
    ensures fault { IfErr result (λ f. IsBadAt (Has (fields LineWord.Case)) bytes.now at f) }
{
    match read_index_term(alloc, bytes, at) {
        Err(fault) => Err(fault),
        Ok(read) => Ok(LineRead {
            line: CertLine::Case {
                part: read.index,
                term: read.term,
            },
            to: read.to,
        }),
    }
}

/// `rup N L1 .. LN K ..`
fn read_rup(alloc: Global, bytes: &[u8], at: usize) -> Result<LineRead, ReadFault>
    requires { at ≤ length bytes.now }
    ensures ok { IfOk result (λ r. IsFields LineWord.Rup r.line bytes.now at r.to) }
    ensures fault { IfErr result (λ f. IsBadAt (Has (fields LineWord.Rup)) bytes.now at f) }
{
    match read_literals(alloc, bytes, at) {
        Err(fault) => Err(fault),
        Ok(read) => match read_hints(alloc, bytes, read.to) {
            Err(fault) => Err(fault),
            Ok(end) => Ok(LineRead {
                line: CertLine::Rup {
                    literals: read.literals,
                    hints: end.hints,
                },
                to: end.to,
            }),
        },
    }
}

/// `lin N L1 .. LN STEPS`
fn read_lin(alloc: Global, bytes: &[u8], at: usize) -> Result<LineRead, ReadFault>
    requires { at ≤ length bytes.now }
    ensures ok { IfOk result (λ r. IsFields LineWord.Lin r.line bytes.now at r.to) }
    ensures fault { IfErr result (λ f. IsBadAt (Has (fields LineWord.Lin)) bytes.now at f) }
{
    match read_literals(alloc, bytes, at) {
        Err(fault) => Err(fault),
        Ok(read) => match read_steps(alloc, bytes, read.to) {
            Err(fault) => Err(fault),
            Ok(end) => Ok(LineRead {
                line: CertLine::Lin {
                    literals: read.literals,
                    steps: end.steps,
                },
                to: end.to,
            }),
        },
    }
}

/// `tri a b`
fn read_tri(alloc: Global, bytes: &[u8], at: usize) -> Result<LineRead, ReadFault>
    requires { at ≤ length bytes.now }
    ensures ok { IfOk result (λ r. IsFields LineWord.Tri r.line bytes.now at r.to) }
    ensures fault { IfErr result (λ f. IsBadAt (Has (fields LineWord.Tri)) bytes.now at f) }
{
    match read_terms(alloc, bytes, at) {
        Err(fault) => Err(fault),
        Ok(read) => Ok(LineRead {
            line: CertLine::Tri {
                left: read.left,
                right: read.right,
            },
            to: read.to,
        }),
    }
}

/// `ins t Q`
fn read_ins(alloc: Global, bytes: &[u8], at: usize) -> Result<LineRead, ReadFault>
    requires { at ≤ length bytes.now }
    ensures ok { IfOk result (λ r. IsFields LineWord.Ins r.line bytes.now at r.to) }
    ensures fault { IfErr result (λ f. IsBadAt (Has (fields LineWord.Ins)) bytes.now at f) }
{
    match read_term_formula(alloc, bytes, at) {
        Err(fault) => Err(fault),
        Ok(read) => Ok(LineRead {
            line: CertLine::Ins {
                at: read.term,
                formula: read.formula,
            },
            to: read.to,
        }),
    }
}

/// `new K Q`
fn read_new(alloc: Global, bytes: &[u8], at: usize) -> Result<LineRead, ReadFault>
    requires { at ≤ length bytes.now }
    ensures ok { IfOk result (λ r. IsFields LineWord.New r.line bytes.now at r.to) }
    ensures fault { IfErr result (λ f. IsBadAt (Has (fields LineWord.New)) bytes.now at f) }
{
    match read_index_formula(alloc, bytes, at) {
        Err(fault) => Err(fault),
        Ok(read) => Ok(LineRead {
            line: CertLine::New {
                symbol: read.index,
                formula: read.formula,
            },
            to: read.to,
        }),
    }
}

/// `same D K E L`
fn read_same(alloc: Global, bytes: &[u8], at: usize) -> Result<LineRead, ReadFault>
    requires { at ≤ length bytes.now }
    ensures ok { IfOk result (λ r. IsFields LineWord.Same r.line bytes.now at r.to) }
    ensures fault { IfErr result (λ f. IsBadAt (Has (fields LineWord.Same)) bytes.now at f) }
{
    match read_index(bytes, at) {
        Err(fault) => Err(fault),
        Ok(direction) => match read_index_formula(alloc, bytes, direction.to) {
            Err(fault) => Err(fault),
            Ok(read) => match read_spaced_formula(alloc, bytes, read.to) {
                Err(fault) => Err(fault),
                Ok(literal) => Ok(LineRead {
                    line: CertLine::Same {
                        direction: direction.value,
                        occurrence: read.index,
                        equation: read.formula,
                        literal: literal.formula,
                    },
                    to: literal.to,
                }),
            },
        },
    }
}

/// `arr P t`
fn read_arr(alloc: Global, bytes: &[u8], at: usize) -> Result<LineRead, ReadFault>
    requires { at ≤ length bytes.now }
    ensures ok { IfOk result (λ r. IsFields LineWord.Arr r.line bytes.now at r.to) }
    ensures fault { IfErr result (λ f. IsBadAt (Has (fields LineWord.Arr)) bytes.now at f) }
{
    match read_index_term(alloc, bytes, at) {
        Err(fault) => Err(fault),
        Ok(read) => Ok(LineRead {
            line: CertLine::Arr {
                part: read.index,
                term: read.term,
            },
            to: read.to,
        }),
    }
}

/// `ext a b`
fn read_ext(alloc: Global, bytes: &[u8], at: usize) -> Result<LineRead, ReadFault>
    requires { at ≤ length bytes.now }
    ensures ok { IfOk result (λ r. IsFields LineWord.Ext r.line bytes.now at r.to) }
    ensures fault { IfErr result (λ f. IsBadAt (Has (fields LineWord.Ext)) bytes.now at f) }
{
    match read_terms(alloc, bytes, at) {
        Err(fault) => Err(fault),
        Ok(read) => Ok(LineRead {
            line: CertLine::Ext {
                left: read.left,
                right: read.right,
            },
            to: read.to,
        }),
    }
}

/// `fld P t`
fn read_fld(alloc: Global, bytes: &[u8], at: usize) -> Result<LineRead, ReadFault>
    requires { at ≤ length bytes.now }
    ensures ok { IfOk result (λ r. IsFields LineWord.Fld r.line bytes.now at r.to) }
    ensures fault { IfErr result (λ f. IsBadAt (Has (fields LineWord.Fld)) bytes.now at f) }
{
    match read_index_term(alloc, bytes, at) {
        Err(fault) => Err(fault),
        Ok(read) => Ok(LineRead {
            line: CertLine::Fld {
                part: read.index,
                term: read.term,
            },
            to: read.to,
        }),
    }
}

/// `div P a d`
fn read_div(alloc: Global, bytes: &[u8], at: usize) -> Result<LineRead, ReadFault>
    requires { at ≤ length bytes.now }
    ensures ok { IfOk result (λ r. IsFields LineWord.Div r.line bytes.now at r.to) }
    ensures fault { IfErr result (λ f. IsBadAt (Has (fields LineWord.Div)) bytes.now at f) }
{
    match read_index_term(alloc, bytes, at) {
        Err(fault) => Err(fault),
        Ok(read) => match read_spaced_whole(bytes, read.to) {
            Err(fault) => Err(fault),
            Ok(divisor) => Ok(LineRead {
                line: CertLine::Div {
                    part: read.index,
                    dividend: read.term,
                    divisor: divisor.value,
                },
                to: divisor.to,
            }),
        },
    }
}

/// `mul f g`
fn read_mul(alloc: Global, bytes: &[u8], at: usize) -> Result<LineRead, ReadFault>
    requires { at ≤ length bytes.now }
    ensures ok { IfOk result (λ r. IsFields LineWord.Mul r.line bytes.now at r.to) }
    ensures fault { IfErr result (λ f. IsBadAt (Has (fields LineWord.Mul)) bytes.now at f) }
{
    match read_terms(alloc, bytes, at) {
        Err(fault) => Err(fault),
        Ok(read) => Ok(LineRead {
            line: CertLine::Mul {
                left: read.left,
                right: read.right,
            },
            to: read.to,
        }),
    }
}

/// `calc A`
fn read_calc(alloc: Global, bytes: &[u8], at: usize) -> Result<LineRead, ReadFault>
    requires { at ≤ length bytes.now }
    ensures ok { IfOk result (λ r. IsFields LineWord.Calc r.line bytes.now at r.to) }
    ensures fault { IfErr result (λ f. IsBadAt (Has (fields LineWord.Calc)) bytes.now at f) }
{
    match read_spaced_formula(alloc, bytes, at) {
        Err(fault) => Err(fault),
        Ok(read) => Ok(LineRead {
            line: CertLine::Calc(read.formula),
            to: read.to,
        }),
    }
}

/// Reads what follows the word of a line, up to the end of the line.
pub fn read_fields(
    alloc: Global,
    bytes: &[u8],
    at: usize,
    word: LineWord,
) -> Result<LineRead, ReadFault>
    requires place { at ≤ length bytes.now }
    requires line { word ≢ LineWord.End }
    ensures ok { IfOk result (λ r. IsFields word r.line bytes.now at r.to) }
    ensures fault { IfErr result (λ f. IsBadAt (Has (fields word)) bytes.now at f) }
{
    match word {
        LineWord::Given => read_given(bytes, at),
        LineWord::Open => read_open(alloc, bytes, at),
        LineWord::Case => read_case(alloc, bytes, at),
        LineWord::Rup => read_rup(alloc, bytes, at),
        LineWord::Lin => read_lin(alloc, bytes, at),
        LineWord::Tri => read_tri(alloc, bytes, at),
        LineWord::Ins => read_ins(alloc, bytes, at),
        LineWord::New => read_new(alloc, bytes, at),
        LineWord::Same => read_same(alloc, bytes, at),
        LineWord::Arr => read_arr(alloc, bytes, at),
        LineWord::Ext => read_ext(alloc, bytes, at),
        LineWord::Fld => read_fld(alloc, bytes, at),
        LineWord::Div => read_div(alloc, bytes, at),
        LineWord::Mul => read_mul(alloc, bytes, at),
        LineWord::Calc => read_calc(alloc, bytes, at),
        LineWord::End => unreachable!(),
    }
}
