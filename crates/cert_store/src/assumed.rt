//! Formulas that are assumed, as a set of their texts.

ghost use Rattle.std.specs.Prelude.{◌≡◌, IfOk, OnOk, map};
ghost use Rattle.logic_terms.specs.View.{formula};
ghost use Rattle.logic_terms.specs.Binding.{negated};
ghost use Rattle.cert_store.specs.Assumed.{key_of, assumes, Adds, Agrees};

use cert_rules::negation;
use logic_terms::{Formula, FormulaList, Starved, Term, text_of};
use sqlite_items::Boxed;
use std::alloc::Global;
use std::collections::BTreeSet;

/// The text of `(bit F)`, which no other formula has.
fn key_of(alloc: Global, p: Boxed<Formula>) -> Result<Vec<u8>, Starved>
    ensures { IfOk result (λ text. text.items ≡ key_of (formula p)) }
{
    let value = Boxed::new(alloc, Term::Bit(p))?;
    text_of(alloc, value.get())
}

/// Assumes a formula.
pub fn assume(
    alloc: Global,
    assumed: &mut BTreeSet<Vec<u8>>,
    p: Boxed<Formula>,
) -> Result<(), Starved>
    ensures { OnOk result (Adds (formula p) (assumes assumed.old) (assumes assumed.new)) }
{
    let key = key_of(alloc, p)?;
    assumed.insert(key)?;
    Ok(())
}

/// Whether the negation of a formula is assumed.
pub fn is_false(alloc: Global, assumed: &BTreeSet<Vec<u8>>, p: &Formula) -> Result<bool, Starved>
    ensures { IfOk result (λ r. r ≡ assumes assumed.now (negated (formula p.now))) }
{
    let key = key_of(alloc, negation(alloc, p)?)?;
    Ok(assumed.contains(key.as_slice()))
}

/// The negations of formulas.
pub fn negations(alloc: Global, ps: &FormulaList) -> Result<BTreeSet<Vec<u8>>, Starved>
    ensures { IfOk result (λ s. Agrees (assumes s) (map negated (map formula ps.now))) }
{
    let mut assumed = BTreeSet::new(alloc);
    for p in ps.as_slice() {
        assume(alloc, &mut assumed, negation(alloc, p)?)?;
    }
    Ok(assumed)
}
