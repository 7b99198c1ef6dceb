//! Whether a line is allowed, and the clause that it yields.

ghost use Rattle.cert_lines.specs.View.{line as line_of};
ghost use Rattle.cert_rules.specs.Rules.{judge};
ghost use Rattle.cert_rules.specs.Judges.{Judges, clause};
ghost use Rattle.cert_linear.specs.Here.{context};
ghost use Rattle.cert_store.specs.Store.{clauses};

use crate::lines::{
    array_fact, choice, computing, division, extensionality, field_fact, instance, linear, opening,
    product, propagation, replacing, trichotomy, witness,
};
use cert_clauses::hypothesis;
use cert_lines::CertLine;
use cert_rules::LineFault;
use cert_store::ClauseStore;
use logic_terms::{FormulaList, Goal};
use std::alloc::Global;

/// The clause of a line after those whose clauses are stored, where `fresh` new symbols are made.
pub fn judge(
    alloc: Global,
    goal: &Goal,
    fresh: u32,
    store: &ClauseStore,
    line: &CertLine,
) -> Result<FormulaList, LineFault>
    ensures { Judges clause (judge (context goal.now fresh (clauses store.now)) (line_of line.now)) result }
{
    match line {
        CertLine::Given(k) => hypothesis(alloc, goal, *k),
        CertLine::Open { part, formula } => opening(alloc, goal, fresh, *part, formula.get()),
        CertLine::Case { part, term } => choice(alloc, goal, fresh, *part, term.get()),
        CertLine::Rup { literals, hints } => {
            propagation(alloc, goal, fresh, store, literals, hints)
        }
        CertLine::Lin { literals, steps } => linear(alloc, goal, fresh, literals, steps),
        CertLine::Tri { left, right } => trichotomy(alloc, goal, fresh, left.get(), right.get()),
        CertLine::Ins { at, formula } => instance(alloc, goal, fresh, at.get(), formula.get()),
        CertLine::New { symbol, formula } => witness(alloc, goal, fresh, *symbol, formula.get()),
        CertLine::Same {
            direction,
            occurrence,
            equation,
            literal,
        } => replacing(
            alloc,
            goal,
            fresh,
            *direction,
            *occurrence,
            equation.get(),
            literal.get(),
        ),
        CertLine::Arr { part, term } => array_fact(alloc, goal, fresh, *part, term.get()),
        CertLine::Ext { left, right } => extensionality(
            alloc,
            goal,
            fresh,
            left.get(),
            right.get(),
        ),
        CertLine::Fld { part, term } => field_fact(alloc, goal, fresh, *part, term.get()),
        CertLine::Div {
            part,
            dividend,
            divisor,
        } => division(alloc, goal, fresh, *part, dividend.get(), *divisor),
        CertLine::Mul { left, right } => product(alloc, goal, fresh, left.get(), right.get()),
        CertLine::Calc(formula) => computing(alloc, goal, fresh, formula.get()),
    }
}
