//! The lines of a certificate.

ghost use Rattle.std.specs.Prelude.{◌≡◌};
ghost use Rattle.cert_lines.specs.Line.{code_of};
ghost use Rattle.cert_lines.specs.View.{line, code};

use crate::rule::Rule;
use crate::step::StepLines;
use logic_terms::{Formula, FormulaList, Term};
use sqlite_items::{Boxed, Items};

/// Numbers of earlier lines in order.
pub type HintList = Items<u32>;

/// The lines of a certificate in order.
pub type CertLines = Items<CertLine>;

/// A certificate of a goal.
pub struct Cert {
    pub lines: CertLines,
}

impl Drop for Cert {
    fn drop(self) {
        let Cert { lines } = self;
        drop(lines);
    }
}

/// A line, which yields a clause: a list of formulas of which one is true. Lines are numbered from 1. A part that its rule
/// does not have is a line that is not allowed.
pub enum CertLine {
    /// `given K`: hypothesis K, from 0, or the negated conclusion where K is their number.
    Given(u32),
    /// `open P A`: what a connective says of its parts.
    Open {
        part: u32,
        formula: Boxed<Formula>,
    },
    /// `case P t`: what a choice is on each side.
    Case {
        part: u32,
        term: Boxed<Term>,
    },
    /// `rup N L1 .. LN K ..`: follows from the lines K by propagation of unit clauses.
    Rup {
        literals: FormulaList,
        hints: HintList,
    },
    /// `lin N L1 .. LN STEPS`: follows by sums of linear forms.
    Lin {
        literals: FormulaList,
        steps: StepLines,
    },
    /// `tri a b`: of two numbers, they are equal or one is less.
    Tri {
        left: Boxed<Term>,
        right: Boxed<Term>,
    },
    /// `ins t Q`: an instance of a quantifier.
    Ins {
        at: Boxed<Term>,
        formula: Boxed<Formula>,
    },
    /// `new K Q`: a new symbol K for what a quantifier says is there.
    New {
        symbol: u32,
        formula: Boxed<Formula>,
    },
    /// `same D K E L`: equals for equals, at occurrence K, from 0, of a side of E in L.
    Same {
        direction: u32,
        occurrence: u32,
        equation: Boxed<Formula>,
        literal: Boxed<Formula>,
    },
    /// `arr P t`: what items and bounds of an array are.
    Arr {
        part: u32,
        term: Boxed<Term>,
    },
    /// `ext a b`: arrays with equal bounds and items are equal.
    Ext {
        left: Boxed<Term>,
        right: Boxed<Term>,
    },
    /// `fld P t`: what fields of a record are.
    Fld {
        part: u32,
        term: Boxed<Term>,
    },
    /// `div P a d`: what a quotient and remainders by a number are.
    Div {
        part: u32,
        dividend: Boxed<Term>,
        divisor: i128,
    },
    /// `mul f g`: the product of two numbers that are at least 0.
    Mul {
        left: Boxed<Term>,
        right: Boxed<Term>,
    },
    /// `calc A`: the truth that is computed.
    Calc(Boxed<Formula>),
}

impl Drop for CertLine {
    fn drop(self) {
        match self {
            CertLine::Given(_) => {}
            CertLine::Open { part: _, formula }
            | CertLine::New { symbol: _, formula }
            | CertLine::Calc(formula) => drop(formula),
            CertLine::Case { part: _, term }
            | CertLine::Arr { part: _, term }
            | CertLine::Fld { part: _, term }
            | CertLine::Div {
                part: _,
                dividend: term,
                divisor: _,
            } => drop(term),
            CertLine::Rup { literals, hints } => {
                drop(literals);
                drop(hints);
            }
            CertLine::Lin { literals, steps } => {
                drop(literals);
                drop(steps);
            }
            CertLine::Tri { left, right }
            | CertLine::Ext { left, right }
            | CertLine::Mul { left, right } => {
                drop(left);
                drop(right);
            }
            CertLine::Ins { at, formula } => {
                drop(at);
                drop(formula);
            }
            CertLine::Same {
                direction: _,
                occurrence: _,
                equation,
                literal,
            } => {
                drop(equation);
                drop(literal);
            }
        }
    }
}

impl CertLine {
    /// The rule of the line.
    pub fn rule(&self) -> Rule
        ensures { code result ≡ code_of (line self.now) }
    {
        match self {
            CertLine::Given(_) => Rule::C1,
            CertLine::Open { .. } | CertLine::Case { .. } => Rule::C2,
            CertLine::Rup { .. } => Rule::C3,
            CertLine::Lin { .. } => Rule::C4,
            CertLine::Tri { .. } => Rule::C5,
            CertLine::Ins { .. } => Rule::C6,
            CertLine::New { .. } => Rule::C7,
            CertLine::Same { .. } => Rule::C8,
            CertLine::Arr { .. } => Rule::C9,
            CertLine::Ext { .. } => Rule::C10,
            CertLine::Fld { .. } => Rule::C11,
            CertLine::Div { .. } => Rule::C12,
            CertLine::Mul { .. } => Rule::C13,
            CertLine::Calc(_) => Rule::C14,
        }
    }
}
