//! What a quotient and remainders by a number are.

ghost use Rattle.std.specs.Prelude.{◌≡◌, ◌∷◌, [], pos, ◌+ℤ◌, ◌-ℤ◌, unsigned_abs, if◌then◌else◌, IfOk};
ghost use Rattle.logic_terms.specs.Node.{add, arith, eq, le, mul, num, op2};
ghost use Rattle.logic_terms.specs.Binding.{negated};
ghost use Rattle.logic_terms.specs.View.{formula, term};
ghost use Rattle.cert_rules.specs.Judged.{part_of, yields};
ghost use Rattle.cert_rules.specs.Division.{division_facts, is_positive, modulus_of, quotient_of, remainder_of};
ghost use Rattle.cert_rules.specs.Judges.{Judges, clause};

use cert_rules::{
    LineFault, at_most, boxed, clause_of_one, clause_of_two, equal, modulus, not_at_most, number,
    product, quotient, remainder, sum,
};
use logic_terms::{Formula, FormulaList, Starved, Term};
use sqlite_items::Boxed;
use std::alloc::Global;

/// The absolute value of `d`, less 1.
fn most_remainder(d: i128) -> i128
    ensures { result ≡ pos (unsigned_abs d) -ℤ pos 1 }
{
    if d > 0 { d - 1 } else { 0 - (d + 1) }
}

/// 1 less the absolute value of `d`.
fn least_remainder(d: i128) -> i128
    ensures { result ≡ pos 1 -ℤ pos (unsigned_abs d) }
{
    if d > 0 { 1 - d } else { d + 1 }
}

/// `(<= 0 a)`, or its negation.
fn at_least_0(alloc: Global, a: &Term, holds: bool) -> Result<Boxed<Formula>, Starved>
    ensures { IfOk result (λ r. formula r ≡ (if holds then op2 le (num (pos 0)) (term a.now) else negated (op2 le (num (pos 0)) (term a.now)))) }
{
    if holds {
        at_most(alloc, number(alloc, 0)?, boxed(alloc, a)?)
    } else {
        not_at_most(alloc, number(alloc, 0)?, boxed(alloc, a)?)
    }
}

/// `(* d (quo a d))`.
fn whole_part(alloc: Global, a: &Term, d: i128) -> Result<Boxed<Term>, Starved>
    ensures { IfOk result (λ r. term r ≡ op2 (arith mul) (num d) (quotient_of (term a.now) d)) }
{
    product(alloc, number(alloc, d)?, quotient(alloc, a, d)?)
}

/// `(+ (* d (quo a d)) (rem a d))`.
fn whole_and_rest(alloc: Global, a: &Term, d: i128) -> Result<Boxed<Term>, Starved>
    ensures { IfOk result (λ r. term r ≡ op2 (arith add) (op2 (arith mul) (num d) (quotient_of (term a.now) d)) (remainder_of (term a.now) d)) }
{
    sum(alloc, whole_part(alloc, a, d)?, remainder(alloc, a, d)?)
}

/// `(= a (+ (* d (quo a d)) (rem a d)))`.
fn parts_sum(alloc: Global, a: &Term, d: i128) -> Result<FormulaList, LineFault>
    ensures { Judges clause (yields (op2 eq (term a.now) (op2 (arith add) (op2 (arith mul) (num d) (quotient_of (term a.now) d)) (remainder_of (term a.now) d)) ∷ [])) result }
{
    Ok(clause_of_one(
        alloc,
        equal(alloc, boxed(alloc, a)?, whole_and_rest(alloc, a, d)?)?,
    )?)
}

/// A literal, unless `(<= 0 a)` is `unless`.
fn bounded(
    alloc: Global,
    a: &Term,
    unless: bool,
    bound: Boxed<Formula>,
) -> Result<FormulaList, LineFault>
    ensures { Judges clause (yields ((if unless then op2 le (num (pos 0)) (term a.now) else negated (op2 le (num (pos 0)) (term a.now))) ∷ formula bound ∷ [])) result }
{
    Ok(clause_of_two(alloc, at_least_0(alloc, a, unless)?, bound)?)
}

/// `(<= n (rem a d))`, unless `(<= 0 a)` is `unless`.
fn remainder_from(
    alloc: Global,
    a: &Term,
    d: i128,
    unless: bool,
    n: i128,
) -> Result<FormulaList, LineFault>
    ensures { Judges clause (yields ((if unless then op2 le (num (pos 0)) (term a.now) else negated (op2 le (num (pos 0)) (term a.now))) ∷ op2 le (num n) (remainder_of (term a.now) d) ∷ [])) result }
{
    let bound = at_most(alloc, number(alloc, n)?, remainder(alloc, a, d)?)?;
    bounded(alloc, a, unless, bound)
}

/// `(<= (rem a d) n)`, unless `(<= 0 a)` is `unless`.
fn remainder_to(
    alloc: Global,
    a: &Term,
    d: i128,
    unless: bool,
    n: i128,
) -> Result<FormulaList, LineFault>
    ensures { Judges clause (yields ((if unless then op2 le (num (pos 0)) (term a.now) else negated (op2 le (num (pos 0)) (term a.now))) ∷ op2 le (remainder_of (term a.now) d) (num n) ∷ [])) result }
{
    let bound = at_most(alloc, remainder(alloc, a, d)?, number(alloc, n)?)?;
    bounded(alloc, a, unless, bound)
}

/// `(<= n m)`, alone.
fn from_number(alloc: Global, m: Boxed<Term>, n: i128) -> Result<FormulaList, LineFault>
    ensures { Judges clause (yields (op2 le (num n) (term m) ∷ [])) result }
{
    Ok(clause_of_one(alloc, at_most(alloc, number(alloc, n)?, m)?)?)
}

/// `(<= m n)`, alone.
fn to_number(alloc: Global, m: Boxed<Term>, n: i128) -> Result<FormulaList, LineFault>
    ensures { Judges clause (yields (op2 le (term m) (num n) ∷ [])) result }
{
    Ok(clause_of_one(alloc, at_most(alloc, m, number(alloc, n)?)?)?)
}

/// The sign of `(mod a d)`, which is that of `d`.
fn modulus_sign(alloc: Global, a: &Term, d: i128) -> Result<FormulaList, LineFault>
    ensures { Judges clause (yields ((if is_positive (term a.now) d then op2 le (num (pos 0)) (modulus_of (term a.now) d) else op2 le (modulus_of (term a.now) d) (num (pos 0))) ∷ [])) result }
{
    let m = modulus(alloc, a, d)?;
    if d > 0 {
        from_number(alloc, m, 0)
    } else {
        to_number(alloc, m, 0)
    }
}

/// The far bound of `(mod a d)`, which is nearer to 0 than `d`.
fn modulus_bound(alloc: Global, a: &Term, d: i128) -> Result<FormulaList, LineFault>
    ensures { Judges clause (yields ((if is_positive (term a.now) d then op2 le (modulus_of (term a.now) d) (num (d -ℤ pos 1)) else op2 le (num (d +ℤ pos 1)) (modulus_of (term a.now) d)) ∷ [])) result }
{
    let m = modulus(alloc, a, d)?;
    if d > 0 {
        to_number(alloc, m, d - 1)
    } else {
        from_number(alloc, m, d + 1)
    }
}

/// `(+ (rem a d) d)`.
fn remainder_and_divisor(alloc: Global, a: &Term, d: i128) -> Result<Boxed<Term>, Starved>
    ensures { IfOk result (λ r. term r ≡ op2 (arith add) (remainder_of (term a.now) d) (num d)) }
{
    sum(alloc, remainder(alloc, a, d)?, number(alloc, d)?)
}

/// `(= (mod a d) (rem a d))`.
fn modulus_is_remainder(alloc: Global, a: &Term, d: i128) -> Result<Boxed<Formula>, Starved>
    ensures { IfOk result (λ r. formula r ≡ op2 eq (modulus_of (term a.now) d) (remainder_of (term a.now) d)) }
{
    equal(alloc, modulus(alloc, a, d)?, remainder(alloc, a, d)?)
}

/// `(= (mod a d) (+ (rem a d) d))`.
fn modulus_is_more(alloc: Global, a: &Term, d: i128) -> Result<Boxed<Formula>, Starved>
    ensures { IfOk result (λ r. formula r ≡ op2 eq (modulus_of (term a.now) d) (op2 (arith add) (remainder_of (term a.now) d) (num d))) }
{
    equal(
        alloc,
        modulus(alloc, a, d)?,
        remainder_and_divisor(alloc, a, d)?,
    )
}

/// That `(mod a d)` is `(rem a d)`, or more by `d`.
fn modulus_choice(alloc: Global, a: &Term, d: i128) -> Result<FormulaList, LineFault>
    ensures { Judges clause (yields (op2 eq (modulus_of (term a.now) d) (remainder_of (term a.now) d) ∷ op2 eq (modulus_of (term a.now) d) (op2 (arith add) (remainder_of (term a.now) d) (num d)) ∷ [])) result }
{
    Ok(clause_of_two(
        alloc,
        modulus_is_remainder(alloc, a, d)?,
        modulus_is_more(alloc, a, d)?,
    )?)
}

/// What `(quo a d)`, `(rem a d)` and `(mod a d)` are, by the number of the part. `NotAllowed` at another part.
#[tactic(auto, using(cert_rules::proofs::Parts::past_eight))]
pub fn division_fact(alloc: Global, a: &Term, d: i128, part: u32) -> Result<FormulaList, LineFault>
    ensures { Judges clause (part_of (division_facts (term a.now) d) part) result }
{
    match part {
        0 => parts_sum(alloc, a, d),
        1 => remainder_from(alloc, a, d, false, 0),
        2 => remainder_to(alloc, a, d, false, most_remainder(d)),
        3 => remainder_to(alloc, a, d, true, 0),
        4 => remainder_from(alloc, a, d, true, least_remainder(d)),
        5 => modulus_sign(alloc, a, d),
        6 => modulus_bound(alloc, a, d),
        7 => modulus_choice(alloc, a, d),
        _ => Err(LineFault::NotAllowed),
    }
}
