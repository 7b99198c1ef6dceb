//! Values of the variables that were eliminated.

ghost use Rattle.std.specs.Prelude.{◌≡◌, IfOk, map, [], neg_ℤ};
ghost use Rattle.logic_terms.specs.View.{term};
ghost use Rattle.linear_forms.specs.View.{linear, part as monomial_of, parts as monomials};
ghost use Rattle.linear_prover.specs.Values.{narrow, value_in, with_others as with_monomial_of_others, sum_without as sum_of_others, bounded as bounded_at, bounded_by as bounded_by_form, bounded_by_all as bounded_by_forms, greater, lesser, is_at_least, nearest as nearest_in, range, chosen};
ghost use Rattle.linear_prover.specs.View.{answer, aside_of};
ghost use Rattle.linear_prover.specs.ValueView.{known_values, value_range, ranged};

use crate::answer::LinearAnswer;
use crate::forms::coefficient;
use crate::machine::{MadeForm, SetAside};
use linear_forms::{LinearForm, Part, floor_quotient};
use logic_terms::{Starved, Term, same_term};
use sqlite_items::Items;
use std::alloc::Global;

/// A variable with its value.
#[derive(Drop)]
pub struct KnownValue {
    variable: Term,
    value: i128,
}

/// What a variable may be; `None` where it has no such bound.
#[derive(Clone, Copy)]
pub struct ValueRange {
    lower: Option<i128>,
    upper: Option<i128>,
}

/// The value of a variable, 0 where it has none yet.
fn value_of(known: &[KnownValue], v: &Term) -> i128
    ensures { result ≡ value_in (known_values known.now) (term v.now) }
{
    for k in known {
        if same_term(v, &k.variable) {
            return k.value;
        }
    }
    0
}

/// The sum with a monomial of another variable; `None` where a number leaves 128 bits.
fn with_part(v: &Term, known: &[KnownValue], sum: i128, part: &Part) -> Option<i128>
    ensures { result ≡ with_monomial_of_others (term v.now) (known_values known.now) sum (monomial_of part.now) }
{
    if same_term(v, &part.variable) {
        return Some(sum);
    }
    match part
        .coefficient
        .checked_mul(value_of(known, &part.variable))
    {
        Some(product) => sum.checked_add(product),
        None => None,
    }
}

/// The sum of `start` and the monomials of other variables; `None` where a number leaves 128 bits.
fn sum_without(v: &Term, known: &[KnownValue], start: i128, parts: &[Part]) -> Option<i128>
    ensures { result ≡ sum_of_others (term v.now) (known_values known.now) start (monomials parts.now) }
{
    let mut sum = start;
    for part in parts {
        match with_part(v, known, sum, part) {
            Some(more) => sum = more,
            None => return None,
        }
    }
    Some(sum)
}

/// The number with the other sign, if it fits.
fn negated(z: i128) -> Option<i128>
    ensures { result ≡ narrow (neg_ℤ z) }
{
    if z == i128::MIN { None } else { Some(-z) }
}

/// The range with the bound of `c` times the variable plus `z`, which is to be at least 0.
fn bounded(c: i128, z: i128, range: ValueRange) -> Option<ValueRange>
    ensures { ranged result ≡ bounded_at c z (value_range range) }
{
    if c > 0 {
        return match negated(floor_quotient(z, c.unsigned_abs())) {
            Some(bound) => Some(range.raised(bound)),
            None => None,
        };
    }
    if c < 0 {
        return Some(range.lowered(floor_quotient(z, c.unsigned_abs())));
    }
    Some(range)
}

/// The range with the bound of a form.
fn bounded_by(
    v: &Term,
    known: &[KnownValue],
    f: &LinearForm,
    range: ValueRange,
) -> Option<ValueRange>
    ensures { ranged result ≡ bounded_by_form (term v.now) (known_values known.now) (linear f.now) (value_range range) }
{
    match sum_without(v, known, f.constant, f.parts.as_slice()) {
        Some(z) => bounded(coefficient(v, f.parts.as_slice()), z, range),
        None => None,
    }
}

/// The range that forms give.
fn bounded_by_all(v: &Term, known: &[KnownValue], forms: &[MadeForm]) -> Option<ValueRange>
    ensures { ranged result ≡ bounded_by_forms (term v.now) (known_values known.now) (map (λ x. linear x.form) forms.now) (range None None) }
{
    let mut found = ValueRange {
        lower: None,
        upper: None,
    };
    for x in forms {
        match bounded_by(v, known, &x.form, found) {
            Some(narrower) => found = narrower,
            None => return None,
        }
    }
    Some(found)
}

/// The greater of a number and a bound.
fn greater_of(x: i128, bound: Option<i128>) -> i128
    ensures { result ≡ greater x bound }
{
    match bound {
        Some(y) => { if x < y { y } else { x } }
        None => x,
    }
}

/// The lesser of a number and a bound.
fn lesser_of(x: i128, bound: Option<i128>) -> i128
    ensures { result ≡ lesser x bound }
{
    match bound {
        Some(y) => { if y < x { y } else { x } }
        None => x,
    }
}

/// Whether a number is not below a bound.
fn is_within(x: i128, lower: Option<i128>) -> bool
    ensures { result ≡ is_at_least x lower }
{
    match lower {
        Some(l) => l <= x,
        None => true,
    }
}

impl ValueRange {
    /// With a lower bound.
    fn raised(self, bound: i128) -> ValueRange
        ensures { value_range result ≡ range (Some (greater bound self.lower)) self.upper }
    {
        ValueRange {
            lower: Some(greater_of(bound, self.lower)),
            upper: self.upper,
        }
    }

    /// With an upper bound.
    fn lowered(self, bound: i128) -> ValueRange
        ensures { value_range result ≡ range self.lower (Some (lesser bound self.upper)) }
    {
        ValueRange {
            lower: self.lower,
            upper: Some(lesser_of(bound, self.upper)),
        }
    }

    /// The number nearest zero, if there is one.
    fn nearest(self) -> Option<i128>
        ensures { result ≡ nearest_in (value_range self) }
    {
        let found = lesser_of(greater_of(0, self.lower), self.upper);
        if is_within(found, self.lower) {
            Some(found)
        } else {
            None
        }
    }
}

/// The values of variables.
fn point(alloc: Global, variables: &[Term], known: &[KnownValue]) -> Result<Items<i128>, Starved>
    ensures { IfOk result (λ ns. ns ≡ map (λ v. value_in (known_values known.now) (term v)) variables.now) }
{
    let mut numbers = Items::new(alloc);
    for v in variables {
        numbers.push(value_of(known, v))?;
    }
    Ok(numbers)
}

/// Chooses the values of eliminated variables, the last one first.
pub fn choose(
    alloc: Global,
    variables: &[Term],
    eliminated: &[SetAside],
) -> Result<LinearAnswer, Starved>
    ensures { IfOk result (λ a. answer a ≡ chosen (map term variables.now) (map aside_of eliminated.now) []) }
{
    let mut known = Vec::new(alloc);
    for aside in eliminated {
        let Some(range) = bounded_by_all(&aside.variable, known.as_slice(), aside.forms.as_slice())
        else {
            return Ok(LinearAnswer::WideForm);
        };
        let Some(value) = range.nearest() else {
            return Ok(LinearAnswer::Gap);
        };
        known.push(KnownValue {
            variable: aside.variable.copy(alloc)?,
            value,
        })?;
    }
    Ok(LinearAnswer::Point(point(alloc, variables, known.as_slice())?))
}
