//! Propagation of unit clauses.

ghost use Rattle.std.specs.Prelude.{◌≡◌, IfOk, List, map, option_map};
ghost use Rattle.logic_terms.specs.Node.{Node};
ghost use Rattle.logic_terms.specs.View.{formula};
ghost use Rattle.std.specs.Option.{option_copied};
ghost use Rattle.cert_rules.specs.Propagation.{clause_at, propagates};
ghost use Rattle.cert_store.specs.Assumed.{assumes, Agrees, unassumed};
ghost use Rattle.cert_store.specs.Steps.{Steps};
ghost use Rattle.cert_store.specs.Store.{nodes};

use crate::assumed::{assume, is_false};
use logic_terms::{Formula, FormulaList, Starved};
use sqlite_items::{Boxed, Items, at};
use std::alloc::Global;
use std::collections::BTreeSet;

/// What a hint's clause does.
#[derive(Clone, Copy, Debug, PartialEq, Eq)]
pub enum Step {
    /// All its literals are false.
    AllFalse,
    /// One literal wasn't false, and is assumed now.
    Assumed,
    /// More than one literal isn't false.
    Stuck,
}

/// The literals that are not false, by place.
fn unassumed(
    alloc: Global,
    assumed: &BTreeSet<Vec<u8>>,
    clause: &[Formula],
) -> Result<FormulaList, Starved>
    ensures { IfOk result (λ r. map formula r ≡ unassumed (assumes assumed.now) (map formula clause.now)) }
{
    let mut left = Items::new(alloc);
    for p in clause {
        if !is_false(alloc, assumed, p)? {
            left.push(p.copy(alloc)?)?;
        }
    }
    Ok(left)
}

/// Assumes the one literal that isn't false.
fn propagate(
    alloc: Global,
    assumed: &mut BTreeSet<Vec<u8>>,
    clause: &[Formula],
) -> Result<Step, Starved>
    ensures { IfOk result (λ s. Steps s (assumes assumed.old) (assumes assumed.new) (map formula clause.now)) }
{
    let mut left = unassumed(alloc, assumed, clause)?;
    let Some(p) = left.pop() else {
        return Ok(Step::AllFalse);
    };
    if left.is_empty() {
        assume(alloc, assumed, Boxed::new(alloc, p)?)?;
        Ok(Step::Assumed)
    } else {
        Ok(Step::Stuck)
    }
}

/// The clause of an earlier line; lines are numbered from 1.
fn clause_at(clauses: &[FormulaList], number: u32) -> Option<&FormulaList>
    ensures { option_map (λ ps. map formula ps) (option_copied result) ≡ clause_at (nodes clauses.now) number }
{
    match number.checked_sub(1) {
        Some(index) => at(clauses, index as usize),
        None => None,
    }
}

/// Whether propagation along the hints comes to a clause that is false.
pub fn propagates(
    alloc: Global,
    clauses: &[FormulaList],
    mut assumed: BTreeSet<Vec<u8>>,
    hints: &[u32],
) -> Result<bool, Starved>
    ensures { IfOk result (λ r. (known : List Node) → Agrees (assumes assumed) known → r ≡ propagates (nodes clauses.now) known hints.now) }
{
    for (i, hint) in hints.iter().enumerate() {
        let Some(clause) = clause_at(clauses, *hint) else {
            return Ok(false);
        };
        match propagate(alloc, &mut assumed, clause.as_slice())? {
            Step::AllFalse => {
                if i + 1 == hints.len() {
                    return Ok(true);
                }
            }
            Step::Assumed => {}
            Step::Stuck => return Ok(false),
        }
    }
    Ok(false)
}
