//! Instances of quantifiers, and new symbols for what a quantifier says is there.

ghost use Rattle.std.specs.Prelude.{◌≡◌, ◌∷◌, [], IfOk};
ghost use Rattle.logic_terms.specs.Node.{le, neg, op1, op2, sym};
ghost use Rattle.logic_terms.specs.Binding.{negated, put};
ghost use Rattle.logic_terms.specs.View.{formula, term};
ghost use Rattle.cert_rules.specs.Quantifiers.{bounded as bounded_by, instance_of as instance_by, witness_of as witness_by};
ghost use Rattle.cert_rules.specs.Judged.{yields};
ghost use Rattle.cert_rules.specs.Judges.{Judges, clause};

use cert_rules::{
    LineFault, at_most, both, boxed, boxed_formula, clause_of_four, clause_of_two, negation,
    not_at_most, symbol,
};
use logic_terms::{Formula, FormulaList, Starved, Term, put_in};
use sqlite_items::Boxed;
use std::alloc::Global;

/// `(<= a b)`.
fn up_to(alloc: Global, a: &Term, b: &Term) -> Result<Boxed<Formula>, Starved>
    ensures { IfOk result (λ r. formula r ≡ op2 le (term a.now) (term b.now)) }
{
    at_most(alloc, boxed(alloc, a)?, boxed(alloc, b)?)
}

/// `(not (<= a b))`.
fn past(alloc: Global, a: &Term, b: &Term) -> Result<Boxed<Formula>, Starved>
    ensures { IfOk result (λ r. formula r ≡ op1 neg (op2 le (term a.now) (term b.now))) }
{
    not_at_most(alloc, boxed(alloc, a)?, boxed(alloc, b)?)
}

/// `p` at the symbol or term `t`.
fn body_at(alloc: Global, p: &Formula, t: &Term) -> Result<Boxed<Formula>, Starved>
    ensures { IfOk result (λ r. formula r ≡ put (term t.now) 0 (formula p.now)) }
{
    Boxed::new(alloc, put_in(alloc, p, t)?)
}

/// What `q`, which says `p` of all numbers from `l` to `h`, says of `t`.
fn instance_of_all(
    alloc: Global,
    q: &Formula,
    l: &Term,
    h: &Term,
    p: &Formula,
    t: &Term,
) -> Result<FormulaList, LineFault>
    ensures { Judges clause (yields (negated (formula q.now) ∷ op1 neg (op2 le (term l.now) (term t.now)) ∷ op1 neg (op2 le (term t.now) (term h.now)) ∷ put (term t.now) 0 (formula p.now) ∷ [])) result }
{
    Ok(clause_of_four(
        alloc,
        negation(alloc, q)?,
        past(alloc, l, t)?,
        past(alloc, t, h)?,
        body_at(alloc, p, t)?,
    )?)
}

/// `(not p)`, or `p` without its `not`, at the symbol or term `t`.
fn negated_at(alloc: Global, p: &Formula, t: &Term) -> Result<Boxed<Formula>, Starved>
    ensures { IfOk result (λ r. formula r ≡ negated (put (term t.now) 0 (formula p.now))) }
{
    negation(alloc, body_at(alloc, p, t)?.get())
}

/// What `q`, which says `p` of some number from `l` to `h`, says of `t`.
fn instance_of_any(
    alloc: Global,
    q: &Formula,
    l: &Term,
    h: &Term,
    p: &Formula,
    t: &Term,
) -> Result<FormulaList, LineFault>
    ensures { Judges clause (yields (formula q.now ∷ op1 neg (op2 le (term l.now) (term t.now)) ∷ op1 neg (op2 le (term t.now) (term h.now)) ∷ negated (put (term t.now) 0 (formula p.now)) ∷ [])) result }
{
    Ok(clause_of_four(
        alloc,
        boxed_formula(alloc, q)?,
        past(alloc, l, t)?,
        past(alloc, t, h)?,
        negated_at(alloc, p, t)?,
    )?)
}

/// What a quantifier says of its body at `t`, within the bounds. `NotAllowed` at another formula.
pub fn instance_of(alloc: Global, t: &Term, q: &Formula) -> Result<FormulaList, LineFault>
    ensures { Judges clause (instance_by (term t.now) (formula q.now)) result }
{
    match q {
        Formula::All(l, h, p) => instance_of_all(alloc, q, l.get(), h.get(), p.get(), t),
        Formula::Any(l, h, p) => instance_of_any(alloc, q, l.get(), h.get(), p.get(), t),
        _ => Err(LineFault::NotAllowed),
    }
}

/// `(and (<= l s) (and (<= s h) p))`.
fn bounded(
    alloc: Global,
    l: &Term,
    s: &Term,
    h: &Term,
    p: Boxed<Formula>,
) -> Result<Boxed<Formula>, Starved>
    ensures { IfOk result (λ r. formula r ≡ bounded_by (term l.now) (term s.now) (term h.now) (formula p)) }
{
    let rest = both(alloc, up_to(alloc, s, h)?, p)?;
    both(alloc, up_to(alloc, l, s)?, rest)
}

/// What `q`, which says `p` of some number from `l` to `h`, says of one that `s` stands for.
fn witness_of_any(
    alloc: Global,
    q: &Formula,
    l: &Term,
    h: &Term,
    p: &Formula,
    s: &Term,
) -> Result<FormulaList, LineFault>
    ensures { Judges clause (yields (negated (formula q.now) ∷ bounded_by (term l.now) (term s.now) (term h.now) (put (term s.now) 0 (formula p.now)) ∷ [])) result }
{
    let there = bounded(alloc, l, s, h, body_at(alloc, p, s)?)?;
    Ok(clause_of_two(alloc, negation(alloc, q)?, there)?)
}

/// What `q`, which says `p` of all numbers from `l` to `h`, says of one that `s` stands for and `p` is false of.
fn witness_of_all(
    alloc: Global,
    q: &Formula,
    l: &Term,
    h: &Term,
    p: &Formula,
    s: &Term,
) -> Result<FormulaList, LineFault>
    ensures { Judges clause (yields (formula q.now ∷ bounded_by (term l.now) (term s.now) (term h.now) (negated (put (term s.now) 0 (formula p.now))) ∷ [])) result }
{
    let there = bounded(alloc, l, s, h, negated_at(alloc, p, s)?)?;
    Ok(clause_of_two(alloc, boxed_formula(alloc, q)?, there)?)
}

/// What a quantifier says of its body, or of the negated body, at the symbol `s` with the number `k`.
fn witness_at(alloc: Global, k: u32, s: &Term, q: &Formula) -> Result<FormulaList, LineFault>
    requires { term s.now ≡ sym k }
    ensures { Judges clause (witness_by k (formula q.now)) result }
{
    match q {
        Formula::Any(l, h, p) => witness_of_any(alloc, q, l.get(), h.get(), p.get(), s),
        Formula::All(l, h, p) => witness_of_all(alloc, q, l.get(), h.get(), p.get(), s),
        _ => Err(LineFault::NotAllowed),
    }
}

/// What a quantifier says of its body, or of the negated body, at a number within the bounds that symbol `k` stands for.
/// `NotAllowed` at another formula.
pub fn witness_of(alloc: Global, k: u32, q: &Formula) -> Result<FormulaList, LineFault>
    ensures { Judges clause (witness_by k (formula q.now)) result }
{
    witness_at(alloc, k, symbol(alloc, k)?.get(), q)
}
