//! The clauses of the earlier lines.

ghost use Rattle.std.specs.Prelude.{◌≡◌, IfOk, OnOk, OnErr, [], ◌∷◌, ◌++◌, map};
ghost use Rattle.logic_terms.specs.View.{formula};
ghost use Rattle.cert_rules.specs.Propagation.{follows};
ghost use Rattle.cert_rules.specs.Checking.{ends_empty};

use crate::assumed::negations;
use crate::propagation::propagates;
use cert_lines::HintList;
use logic_terms::{FormulaList, Starved};
use sqlite_items::Items;
use std::alloc::Global;

/// The clauses of the earlier lines, in their order.
pub struct ClauseStore {
    clauses: Items<FormulaList>,
}

impl Drop for ClauseStore {
    fn drop(self) {
        let ClauseStore { clauses } = self;
        drop(clauses);
    }
}

impl ClauseStore {
    ghost use Rattle.cert_store.specs.Store.{clauses};

    /// A store with no clauses.
    pub fn new(alloc: Global) -> ClauseStore
        ensures { clauses result ≡ [] }
    {
        ClauseStore {
            clauses: Items::new(alloc),
        }
    }

    /// Adds the clause of the next line.
    pub fn push(&mut self, clause: FormulaList) -> Result<(), Starved>
        ensures ok { OnOk result (clauses self.new ≡ clauses self.old ++ map formula clause ∷ []) }
        ensures err { OnErr result (clauses self.new ≡ clauses self.old) }
    {
        self.clauses.push(clause)
    }

    /// Whether a clause of these literals follows from the clauses of the lines that the hints name. Lines are numbered from 1.
    ///
    /// The time is that of reading the literals and those of the hinted clauses, times a logarithm.
    pub fn follows(
        &self,
        alloc: Global,
        literals: &FormulaList,
        hints: &HintList,
    ) -> Result<bool, Starved>
        ensures { IfOk result (λ r. r ≡ follows (clauses self.now) (map formula literals.now) hints.now) }
    {
        let assumed = negations(alloc, literals)?;
        propagates(alloc, self.clauses.as_slice(), assumed, hints.as_slice())
    }

    /// Whether the last clause has no literals.
    pub fn ends_empty(&self) -> bool
        ensures { result ≡ ends_empty (clauses self.now) }
    {
        match self.clauses.as_slice() {
            [.., last] => last.is_empty(),
            [] => false,
        }
    }
}
