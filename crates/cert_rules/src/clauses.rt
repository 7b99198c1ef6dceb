//! Clauses of a few formulas.

ghost use Rattle.std.specs.Prelude.{◌≡◌, ◌∷◌, [], IfOk};
ghost use Rattle.logic_terms.specs.View.{formula};
ghost use Rattle.cert_rules.specs.Judges.{clause};

use logic_terms::{Formula, FormulaList, Starved};
use sqlite_items::{Boxed, Items};
use std::alloc::Global;

/// The clause of one formula.
pub fn clause_of_one(alloc: Global, p: Boxed<Formula>) -> Result<FormulaList, Starved>
    ensures { IfOk result (λ r. clause r ≡ formula p ∷ []) }
{
    let mut made = Items::new(alloc);
    made.push(p.into_inner())?;
    Ok(made)
}

/// The clause of two formulas.
pub fn clause_of_two(
    alloc: Global,
    p: Boxed<Formula>,
    q: Boxed<Formula>,
) -> Result<FormulaList, Starved>
    ensures { IfOk result (λ r. clause r ≡ formula p ∷ formula q ∷ []) }
{
    let mut made = Items::new(alloc);
    made.push(p.into_inner())?;
    made.push(q.into_inner())?;
    Ok(made)
}

/// The clause of three formulas.
pub fn clause_of_three(
    alloc: Global,
    p: Boxed<Formula>,
    q: Boxed<Formula>,
    r: Boxed<Formula>,
) -> Result<FormulaList, Starved>
    ensures { IfOk result (λ c. clause c ≡ formula p ∷ formula q ∷ formula r ∷ []) }
{
    let mut made = Items::new(alloc);
    made.push(p.into_inner())?;
    made.push(q.into_inner())?;
    made.push(r.into_inner())?;
    Ok(made)
}

/// The clause of four formulas.
pub fn clause_of_four(
    alloc: Global,
    p: Boxed<Formula>,
    q: Boxed<Formula>,
    r: Boxed<Formula>,
    s: Boxed<Formula>,
) -> Result<FormulaList, Starved>
    ensures { IfOk result (λ c. clause c ≡ formula p ∷ formula q ∷ formula r ∷ formula s ∷ []) }
{
    let mut made = Items::new(alloc);
    made.push(p.into_inner())?;
    made.push(q.into_inner())?;
    made.push(r.into_inner())?;
    made.push(s.into_inner())?;
    Ok(made)
}
