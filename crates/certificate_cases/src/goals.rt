//! Goals.

use crate::kind::GoalKind;
use crate::texts::goal_of;
use case_parts::{CaseFault, push, push_text};
use logic_terms::{Call, CallList, Formula, Goal, Role, Symbol, SymbolList, copy_formulas};
use logic_text::goal_text;
use sqlite_items::{Boxed, Items};
use std::alloc::{AllocError, Global};

/// The goal before the first `with`: it has no symbols and no calls.
pub fn first_goal(alloc: Global) -> Result<Boxed<Goal>, AllocError> {
    let goal = Goal {
        symbols: Items::new(alloc),
        calls: Items::new(alloc),
        hypotheses: Items::new(alloc),
        conclusion: Formula::False,
    };
    Boxed::new(alloc, goal)
}

/// `with GOAL`
pub fn change(
    alloc: Global,
    line: &mut String,
    goal: &mut Boxed<Goal>,
    word: &[u8],
) -> Result<(), CaseFault> {
    *goal = goal_of(alloc, word)?;
    push(line, "read")
}

fn push_goal(alloc: Global, line: &mut String, goal: &Goal) -> Result<(), CaseFault> {
    match goal_text(alloc, goal) {
        Ok(text) => push_text(line, text.as_slice()),
        Err(_) => Err(CaseFault::Starved),
    }
}

/// The symbols, each with the role of an input.
fn inputs(alloc: Global, symbols: &SymbolList) -> Result<SymbolList, AllocError> {
    let mut inputs = Items::new(alloc);
    for symbol in symbols.as_slice() {
        let Ok(sort) = symbol.sort.copy(alloc) else {
            return Err(AllocError);
        };
        inputs.push(Symbol {
            sort,
            role: Role::Input(3),
        })?;
    }
    Ok(inputs)
}

/// The calls, each of a subprogram.
fn of_subprogram(alloc: Global, calls: &CallList) -> Result<CallList, AllocError> {
    let mut named = Items::new(alloc);
    for call in calls.as_slice() {
        let Ok(copy) = call.copy(alloc) else {
            return Err(AllocError);
        };
        let Call {
            arguments,
            answer,
            ..
        } = copy;
        named.push(Call {
            arguments,
            answer,
            sub: Some(5),
        })?;
    }
    Ok(named)
}

/// The goal with other roles and subprograms.
fn with_roles(alloc: Global, goal: &Goal) -> Result<Boxed<Goal>, AllocError> {
    let symbols = inputs(alloc, &goal.symbols)?;
    let calls = of_subprogram(alloc, &goal.calls)?;
    let Ok(hypotheses) = copy_formulas(alloc, &goal.hypotheses) else {
        return Err(AllocError);
    };
    match goal.conclusion.copy(alloc) {
        Err(_) => Err(AllocError),
        Ok(conclusion) => Boxed::new(
            alloc,
            Goal {
                symbols,
                calls,
                hypotheses,
                conclusion,
            },
        ),
    }
}

/// `goal GOAL`, `copy GOAL`, `roles GOAL`
pub fn of_goal(
    alloc: Global,
    line: &mut String,
    kind: GoalKind,
    word: &[u8],
) -> Result<(), CaseFault> {
    let goal = goal_of(alloc, word)?;
    match kind {
        GoalKind::Text => push_goal(alloc, line, goal.get()),
        GoalKind::Copy => match goal.get().copy(alloc) {
            Ok(copy) => push_goal(alloc, line, &copy),
            Err(_) => Err(CaseFault::Starved),
        },
        GoalKind::Roles => match with_roles(alloc, goal.get()) {
            Ok(other) => push_goal(alloc, line, other.get()),
            Err(_) => Err(CaseFault::Starved),
        },
    }
}
