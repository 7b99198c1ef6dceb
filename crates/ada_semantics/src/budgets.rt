//! Budgets.

ghost use Rattle.ada_semantics.specs.Budget.{ValuesTake, RunsTake, ProgramsTake, AnyDepth, MoreForCalls, MoreForRuns, OneAnswer, OneOutcome};

/// An expression takes a unit at least, where no call leaves more than it was given.
pub fn values_take()
    ensures { ValuesTake }
{}

/// Statements leave no more than they were given, where no call does.
pub fn runs_take()
    ensures { RunsTake }
{}

/// No call of a program leaves more than it was given.
pub fn programs_take()
    ensures { ProgramsTake }
{}

/// Calls may lie as deep in one another as the budget lets them.
pub fn any_depth()
    ensures { AnyDepth }
{}

/// A call that comes back, or fails, does the same with more budget, and leaves that much more.
pub fn more_for_calls()
    ensures { MoreForCalls }
{}

/// A run that doesn't spend its budget comes to the same with more.
pub fn more_for_runs()
    ensures { MoreForRuns }
{}

/// A call has one answer, whatever its budget, unless that is spent.
pub fn one_answer()
    ensures { OneAnswer }
{}

/// A run has one outcome, whatever its budget, unless that is spent.
pub fn one_outcome()
    ensures { OneOutcome }
{}
