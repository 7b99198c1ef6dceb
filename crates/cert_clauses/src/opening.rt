//! What connectives, choices and numbers say of their parts.

ghost use Rattle.std.specs.Prelude.{◌≡◌, ◌∷◌, [], IfOk};
ghost use Rattle.logic_terms.specs.Node.{arith, eq, le, mul, neg, op1, op2};
ghost use Rattle.logic_terms.specs.Goal.{problem};
ghost use Rattle.logic_terms.specs.Sorts.{sort};
ghost use Rattle.logic_terms.specs.View.{formula, term};
ghost use Rattle.cert_rules.specs.Judged.{part_of, yields};
ghost use Rattle.cert_rules.specs.Opening.{at_least_0, compared as compared_by, hypothesis as hypothesis_of, multiplied as multiplied_by, one_more, opened as opened_by, opened_and, opened_bit, opened_iff, opened_or, sides as sides_of};
ghost use Rattle.cert_rules.specs.Clause.{equals as equals_at};
ghost use Rattle.cert_rules.specs.Judges.{Judges, clause};
ghost use Rattle.cert_rules.specs.Literal.{literal as literal_of};

use cert_rules::{
    LineFault, at_most, boxed, clause_of_one, clause_of_three, clause_of_two, equal, equals,
    literal, not_at_most, number, product, sum,
};
use logic_terms::{Formula, FormulaList, Goal, Sort, Starved, Term};
use sqlite_items::Boxed;
use std::alloc::Global;

/// The clause of one literal.
pub fn one_literal(alloc: Global, p: &Formula, holds: bool) -> Result<FormulaList, LineFault>
    ensures { Judges clause (yields (literal_of holds (formula p.now) ∷ [])) result }
{
    Ok(clause_of_one(alloc, literal(alloc, p, holds)?)?)
}

/// The clause of two literals, each a formula or its negation.
fn two_literals(
    alloc: Global,
    a: &Formula,
    a_holds: bool,
    p: &Formula,
    p_holds: bool,
) -> Result<FormulaList, LineFault>
    ensures { Judges clause (yields (literal_of a_holds (formula a.now) ∷ literal_of p_holds (formula p.now) ∷ [])) result }
{
    Ok(clause_of_two(
        alloc,
        literal(alloc, a, a_holds)?,
        literal(alloc, p, p_holds)?,
    )?)
}

/// The clause of three literals, each a formula or its negation.
fn three_literals(
    alloc: Global,
    a: &Formula,
    a_holds: bool,
    p: &Formula,
    p_holds: bool,
    q: &Formula,
    q_holds: bool,
) -> Result<FormulaList, LineFault>
    ensures { Judges clause (yields (literal_of a_holds (formula a.now) ∷ literal_of p_holds (formula p.now) ∷ literal_of q_holds (formula q.now) ∷ [])) result }
{
    Ok(clause_of_three(
        alloc,
        literal(alloc, a, a_holds)?,
        literal(alloc, p, p_holds)?,
        literal(alloc, q, q_holds)?,
    )?)
}

/// Hypothesis `k`, or the negated conclusion where `k` is their number. `NotAllowed` where it is greater.
#[tactic(auto, using(cert_rules::proofs::Parts::hypothesis_there, cert_rules::proofs::Parts::hypothesis_last, cert_rules::proofs::Parts::hypothesis_past))]
pub fn hypothesis(alloc: Global, goal: &Goal, k: u32) -> Result<FormulaList, LineFault>
    ensures { Judges clause (hypothesis_of (problem goal.now).hypotheses (problem goal.now).conclusion k) result }
{
    let hypotheses = goal.hypotheses.as_slice();
    let k = k as usize;
    if k < hypotheses.len() {
        one_literal(alloc, &hypotheses[k], true)
    } else if k == hypotheses.len() {
        one_literal(alloc, &goal.conclusion, false)
    } else {
        Err(LineFault::NotAllowed)
    }
}

#[tactic(auto, using(cert_rules::proofs::Parts::past_three))]
fn opened_conjunction(
    alloc: Global,
    a: &Formula,
    p: &Formula,
    q: &Formula,
    part: u32,
) -> Result<FormulaList, LineFault>
    ensures { Judges clause (part_of (opened_and (formula a.now) (formula p.now) (formula q.now)) part) result }
{
    match part {
        0 => two_literals(alloc, a, false, p, true),
        1 => two_literals(alloc, a, false, q, true),
        2 => three_literals(alloc, a, true, p, false, q, false),
        _ => Err(LineFault::NotAllowed),
    }
}

#[tactic(auto, using(cert_rules::proofs::Parts::past_three))]
fn opened_disjunction(
    alloc: Global,
    a: &Formula,
    p: &Formula,
    q: &Formula,
    part: u32,
) -> Result<FormulaList, LineFault>
    ensures { Judges clause (part_of (opened_or (formula a.now) (formula p.now) (formula q.now)) part) result }
{
    match part {
        0 => two_literals(alloc, a, true, p, false),
        1 => two_literals(alloc, a, true, q, false),
        2 => three_literals(alloc, a, false, p, true, q, true),
        _ => Err(LineFault::NotAllowed),
    }
}

#[tactic(auto, using(cert_rules::proofs::Parts::past_four))]
fn opened_equivalence(
    alloc: Global,
    a: &Formula,
    p: &Formula,
    q: &Formula,
    part: u32,
) -> Result<FormulaList, LineFault>
    ensures { Judges clause (part_of (opened_iff (formula a.now) (formula p.now) (formula q.now)) part) result }
{
    match part {
        0 => three_literals(alloc, a, false, p, false, q, true),
        1 => three_literals(alloc, a, false, p, true, q, false),
        2 => three_literals(alloc, a, true, p, true, q, true),
        3 => three_literals(alloc, a, true, p, false, q, false),
        _ => Err(LineFault::NotAllowed),
    }
}

#[tactic(auto, using(cert_rules::proofs::Parts::past_two))]
fn opened_truth(
    alloc: Global,
    a: &Formula,
    p: &Formula,
    part: u32,
) -> Result<FormulaList, LineFault>
    ensures { Judges clause (part_of (opened_bit (formula a.now) (formula p.now)) part) result }
{
    match part {
        0 => two_literals(alloc, a, false, p, true),
        1 => two_literals(alloc, a, true, p, false),
        _ => Err(LineFault::NotAllowed),
    }
}

/// What a connective, or `(tru (bit p))`, says of its parts, by the number of the part. `NotAllowed` at another formula or
/// part.
pub fn opened(alloc: Global, a: &Formula, part: u32) -> Result<FormulaList, LineFault>
    ensures { Judges clause (part_of (opened_by (formula a.now)) part) result }
{
    match a {
        Formula::And(p, q) => opened_conjunction(alloc, a, p.get(), q.get(), part),
        Formula::Or(p, q) => opened_disjunction(alloc, a, p.get(), q.get(), part),
        Formula::Iff(p, q) => opened_equivalence(alloc, a, p.get(), q.get(), part),
        Formula::Tru(t) => match t.get() {
            Term::Bit(p) => opened_truth(alloc, a, p.get(), part),
            _ => Err(LineFault::NotAllowed),
        },
        _ => Err(LineFault::NotAllowed),
    }
}

/// That the choice `t` of this sort is `a`, or the condition is not as said.
fn side(
    alloc: Global,
    of: &Sort,
    t: &Term,
    c: &Formula,
    c_holds: bool,
    a: &Term,
) -> Result<FormulaList, LineFault>
    ensures { Judges clause (yields (literal_of c_holds (formula c.now) ∷ equals_at (sort of.now) (term t.now) (term a.now) ∷ [])) result }
{
    let is = equals(alloc, of, boxed(alloc, t)?, boxed(alloc, a)?)?;
    Ok(clause_of_two(alloc, literal(alloc, c, c_holds)?, is)?)
}

/// What a choice of this sort is on its side 0 or 1. `NotAllowed` at another term or side.
#[tactic(auto, using(cert_rules::proofs::Parts::past_two))]
pub fn sides(alloc: Global, of: &Sort, t: &Term, side_at: u32) -> Result<FormulaList, LineFault>
    ensures { Judges clause (part_of (sides_of (sort of.now) (term t.now)) side_at) result }
{
    match t {
        Term::Ite(c, a, b) => match side_at {
            0 => side(alloc, of, t, c.get(), false, a.get()),
            1 => side(alloc, of, t, c.get(), true, b.get()),
            _ => Err(LineFault::NotAllowed),
        },
        _ => Err(LineFault::NotAllowed),
    }
}

/// `(<= (+ a 1) b)`.
fn less(alloc: Global, a: &Term, b: &Term) -> Result<Boxed<Formula>, Starved>
    ensures { IfOk result (λ r. formula r ≡ op2 le (one_more (term a.now)) (term b.now)) }
{
    let more = sum(alloc, boxed(alloc, a)?, number(alloc, 1)?)?;
    at_most(alloc, more, boxed(alloc, b)?)
}

/// `(= a b)`.
fn same(alloc: Global, a: &Term, b: &Term) -> Result<Boxed<Formula>, Starved>
    ensures { IfOk result (λ r. formula r ≡ op2 eq (term a.now) (term b.now)) }
{
    equal(alloc, boxed(alloc, a)?, boxed(alloc, b)?)
}

/// Of two numbers, that they are equal or one is less.
pub fn compared(alloc: Global, a: &Term, b: &Term) -> Result<FormulaList, Starved>
    ensures { IfOk result (λ r. clause r ≡ compared_by (term a.now) (term b.now)) }
{
    clause_of_three(
        alloc,
        same(alloc, a, b)?,
        less(alloc, a, b)?,
        less(alloc, b, a)?,
    )
}

/// `(not (<= 0 t))`.
fn below_0(alloc: Global, t: &Term) -> Result<Boxed<Formula>, Starved>
    ensures { IfOk result (λ r. formula r ≡ op1 neg (at_least_0 (term t.now))) }
{
    not_at_most(alloc, number(alloc, 0)?, boxed(alloc, t)?)
}

/// `(<= 0 (* f g))`.
fn product_at_least_0(alloc: Global, f: &Term, g: &Term) -> Result<Boxed<Formula>, Starved>
    ensures { IfOk result (λ r. formula r ≡ at_least_0 (op2 (arith mul) (term f.now) (term g.now))) }
{
    let both = product(alloc, boxed(alloc, f)?, boxed(alloc, g)?)?;
    at_most(alloc, number(alloc, 0)?, both)
}

/// Of two numbers that are at least 0, that their product is.
pub fn multiplied(alloc: Global, f: &Term, g: &Term) -> Result<FormulaList, Starved>
    ensures { IfOk result (λ r. clause r ≡ multiplied_by (term f.now) (term g.now)) }
{
    clause_of_three(
        alloc,
        below_0(alloc, f)?,
        below_0(alloc, g)?,
        product_at_least_0(alloc, f, g)?,
    )
}
