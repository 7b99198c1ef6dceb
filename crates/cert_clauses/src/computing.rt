//! The truth that is computed.

ghost use Rattle.std.specs.Prelude.{[], IsTrue};
ghost use Rattle.logic_terms.specs.Names.{is_constant};
ghost use Rattle.logic_terms.specs.Run.{most_nodes, run};
ghost use Rattle.logic_terms.specs.View.{formula};
ghost use Rattle.cert_rules.specs.Opening.{computed as computed_of};
ghost use Rattle.cert_rules.specs.Judges.{Judges, clause};

use crate::opening::one_literal;
use cert_rules::LineFault;
use logic_terms::{Formula, FormulaList};
use logic_truth::{TruthFault, truth};
use std::alloc::Global;

/// A formula without symbols, calls and free variables, or its negation, by its truth.
///
/// `Wide` where a number that is visited leaves 128 bits, `NotAllowed` where the 10001st node would be visited, whichever
/// comes first.
pub fn computed(alloc: Global, p: &Formula) -> Result<FormulaList, LineFault>
    requires { IsTrue (is_constant (formula p.now)) }
    ensures { Judges clause (computed_of (formula p.now) (run most_nodes [] (formula p.now))) result }
{
    match truth(alloc, p) {
        Ok(holds) => one_literal(alloc, p, holds),
        Err(TruthFault::Wide) => Err(LineFault::Wide),
        Err(TruthFault::TooLong) => Err(LineFault::NotAllowed),
        Err(TruthFault::Starved) => Err(LineFault::Starved),
    }
}
