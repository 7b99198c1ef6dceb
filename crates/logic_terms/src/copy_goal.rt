//! Copies of sorts and goals.

ghost use Rattle.std.specs.Prelude.{◌≡◌, IfOk};

use crate::Starved;
use crate::goal::{Call, CallList, Goal, Symbol, SymbolList};
use crate::sort::{Sort, SortList};
use crate::syntax::FormulaList;
use sqlite_items::{Boxed, Items};
use std::alloc::Global;

#[cycle(copy_sort)]
fn copy_sorts(alloc: Global, sorts: &SortList) -> Result<SortList, Starved>
    ensures { IfOk result (λ r. r ≡ sorts.now) }
{
    let mut copy = Items::new(alloc);
    for sort in sorts.as_slice() {
        copy.push(sort.copy(alloc)?)?;
    }
    Ok(copy)
}

impl Sort {
    /// A copy of the sort.
    #[cycle(copy_sort)]
    pub fn copy(&self, alloc: Global) -> Result<Sort, Starved>
        ensures { IfOk result (λ r. r ≡ self.now) }
    {
        match self {
            Sort::Num => Ok(Sort::Num),
            Sort::Truth => Ok(Sort::Truth),
            Sort::Array(item) => Ok(Sort::Array(Boxed::new(alloc, item.get().copy(alloc)?)?)),
            Sort::Record(fields) => Ok(Sort::Record(copy_sorts(alloc, fields)?)),
        }
    }
}

impl Symbol {
    /// A copy of the symbol.
    pub fn copy(&self, alloc: Global) -> Result<Symbol, Starved>
        ensures { IfOk result (λ r. r ≡ self.now) }
    {
        Ok(Symbol {
            sort: self.sort.copy(alloc)?,
            role: self.role,
        })
    }
}

impl Call {
    /// A copy of the call.
    pub fn copy(&self, alloc: Global) -> Result<Call, Starved>
        ensures { IfOk result (λ r. r ≡ self.now) }
    {
        Ok(Call {
            arguments: copy_sorts(alloc, &self.arguments)?,
            answer: self.answer.copy(alloc)?,
            sub: self.sub,
        })
    }
}

fn copy_symbols(alloc: Global, symbols: &SymbolList) -> Result<SymbolList, Starved>
    ensures { IfOk result (λ r. r ≡ symbols.now) }
{
    let mut copy = Items::new(alloc);
    for symbol in symbols.as_slice() {
        copy.push(symbol.copy(alloc)?)?;
    }
    Ok(copy)
}

fn copy_calls(alloc: Global, calls: &CallList) -> Result<CallList, Starved>
    ensures { IfOk result (λ r. r ≡ calls.now) }
{
    let mut copy = Items::new(alloc);
    for call in calls.as_slice() {
        copy.push(call.copy(alloc)?)?;
    }
    Ok(copy)
}

/// A copy of the formulas.
pub fn copy_formulas(alloc: Global, formulas: &FormulaList) -> Result<FormulaList, Starved>
    ensures { IfOk result (λ r. r ≡ formulas.now) }
{
    let mut copy = Items::new(alloc);
    for formula in formulas.as_slice() {
        copy.push(formula.copy(alloc)?)?;
    }
    Ok(copy)
}

impl Goal {
    /// A copy of the goal.
    pub fn copy(&self, alloc: Global) -> Result<Goal, Starved>
        ensures { IfOk result (λ r. r ≡ self.now) }
    {
        Ok(Goal {
            symbols: copy_symbols(alloc, &self.symbols)?,
            calls: copy_calls(alloc, &self.calls)?,
            hypotheses: copy_formulas(alloc, &self.hypotheses)?,
            conclusion: self.conclusion.copy(alloc)?,
        })
    }
}
