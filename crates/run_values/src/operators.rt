//! The operators on values, with their checks.

ghost use Rattle.std.specs.Prelude.{◌≡◌, ℕ, IfOk, ◌↔◌, IsTrue, pos, None};
ghost use Rattle.ada_values.specs.Combine.{combined};
ghost use Rattle.ada_values.specs.Scalars.{IsModulus};
ghost use Rattle.ada_values.specs.declared.place.Place.{Place};
ghost use Rattle.typed_units.specs.Syntax.{first, last, succ_at, pred_at, same, negation, unary, binary, compare};
ghost use Rattle.ada_semantics.specs.Operators.{apply1, apply2, computed, ordered, member_of, stops_at, joined, decides, undecided};
ghost use Rattle.run_values.specs.RunValues.{run_value, truth_in, number_in};
ghost use Rattle.run_values.specs.Outcomes.{made, based};

use crate::checks::{Ending, Made, ends_at};
use crate::values::{RunValue, same_run_value};
use ada_values::{Op, OpFault, Place, Scalar, combine};
use typed_units::{CheckKind, Connective, Quantifier, Relation};

/// The truth value that a value is, where it is one.
pub fn truth_in(v: &RunValue) -> Option<bool>
    ensures { result ≡ truth_in (run_value v.now) }
{
    match v {
        RunValue::Bool(truth) => Some(*truth),
        RunValue::Int(_) | RunValue::Arr(_) | RunValue::Rec(_) => None,
    }
}

/// The number that a value is, where it is one.
pub fn number_in(v: &RunValue) -> Option<i128>
    ensures { result ≡ number_in (run_value v.now) }
{
    match v {
        RunValue::Int(number) => Some(*number),
        RunValue::Bool(_) | RunValue::Arr(_) | RunValue::Rec(_) => None,
    }
}

/// Whether the scalar's modulus is one, where it has any.
pub fn has_modulus(s: &Scalar) -> bool
    ensures { IsTrue result ↔ IsModulus s.now.modulus }
{
    match s.modulus {
        None => true,
        Some(modulus) => 2 <= modulus && modulus <= 18_446_744_073_709_551_616,
    }
}

/// `'First` of an array.
pub fn first_of(v: &RunValue) -> Made
    ensures { (q : Place) (n : ℕ) → made result n ≡ apply1 first q (run_value v.now) n }
{
    match v {
        RunValue::Arr(array) => Made::Is(RunValue::Int(array.first)),
        RunValue::Int(_) | RunValue::Bool(_) | RunValue::Rec(_) => Made::Ends(Ending::Unset),
    }
}

/// `'Last` of an array.
pub fn last_of(v: &RunValue) -> Made
    ensures { (q : Place) (n : ℕ) → made result n ≡ apply1 last q (run_value v.now) n }
{
    match v {
        RunValue::Arr(array) => Made::Is(RunValue::Int(array.last)),
        RunValue::Int(_) | RunValue::Bool(_) | RunValue::Rec(_) => Made::Ends(Ending::Unset),
    }
}

/// `'Succ`, with the place of its tick.
#[tactic(auto, using(crate::proofs::Based::based_add))]
pub fn successor(place: Place, s: &Scalar, v: &RunValue) -> Made
    ensures { (q : Place) (n : ℕ) → made result n ≡ apply1 (succ_at place s.now) q (run_value v.now) n }
{
    match v {
        RunValue::Int(number) => { in_base(place, by_one(Op::Add, s, *number)) }
        RunValue::Bool(_) | RunValue::Arr(_) | RunValue::Rec(_) => Made::Ends(Ending::Unset),
    }
}

/// `'Pred`, with the place of its tick.
#[tactic(auto, using(crate::proofs::Based::based_sub))]
pub fn predecessor(place: Place, s: &Scalar, v: &RunValue) -> Made
    ensures { (q : Place) (n : ℕ) → made result n ≡ apply1 (pred_at place s.now) q (run_value v.now) n }
{
    match v {
        RunValue::Int(number) => { in_base(place, by_one(Op::Sub, s, *number)) }
        RunValue::Bool(_) | RunValue::Arr(_) | RunValue::Rec(_) => Made::Ends(Ending::Unset),
    }
}

// The result of an operation with 1 in the base range.
fn by_one(op: Op, s: &Scalar, number: i128) -> Result<i128, OpFault>
    ensures { result ≡ combined op (record s.now { modulus = None }) number (pos 1) }
{
    let s = without_modulus(s);
    combine(op, &s, number, 1)
}

pub(crate) fn without_modulus(s: &Scalar) -> Scalar
    ensures { result ≡ record s.now { modulus = None } }
{
    Scalar {
        lo: s.lo,
        hi: s.hi,
        base_lo: s.base_lo,
        base_hi: s.base_hi,
        modulus: None,
    }
}

pub(crate) fn in_base(place: Place, sum: Result<i128, OpFault>) -> Made
    ensures { (n : ℕ) → made result n ≡ based sum place n }
{
    match sum {
        Ok(number) => Made::Is(RunValue::Int(number)),
        Err(_) => ends_at(place, CheckKind::Range),
    }
}

/// Unary `+`, or `'Pos`.
pub fn same_number(v: &RunValue) -> Made
    ensures { (q : Place) (n : ℕ) → made result n ≡ apply1 same q (run_value v.now) n }
{
    match v {
        RunValue::Int(number) => Made::Is(RunValue::Int(*number)),
        RunValue::Bool(_) | RunValue::Arr(_) | RunValue::Rec(_) => Made::Ends(Ending::Unset),
    }
}

/// `not`.
pub fn negated(v: &RunValue) -> Made
    ensures { (q : Place) (n : ℕ) → made result n ≡ apply1 negation q (run_value v.now) n }
{
    match v {
        RunValue::Bool(truth) => Made::Is(RunValue::Bool(!*truth)),
        RunValue::Int(_) | RunValue::Arr(_) | RunValue::Rec(_) => Made::Ends(Ending::Unset),
    }
}

/// Unary `-` or `abs`, with the operator's place and that of the operand.
pub fn compute_one(op: Op, s: &Scalar, place: Place, operand: Place, v: &RunValue) -> Made
    requires { IsModulus s.now.modulus }
    ensures { (n : ℕ) → made result n ≡ apply1 (unary op s.now place) operand (run_value v.now) n }
{
    match v {
        RunValue::Int(number) => result_at(combine(op, s, *number, 0), place, operand),
        RunValue::Bool(_) | RunValue::Arr(_) | RunValue::Rec(_) => Made::Ends(Ending::Unset),
    }
}

/// An operator of two numbers, with its place and that of the right operand.
pub fn compute_two(
    op: Op,
    s: &Scalar,
    place: Place,
    right: Place,
    a: &RunValue,
    b: &RunValue,
) -> Made
    requires { IsModulus s.now.modulus }
    ensures { (n : ℕ) → made result n ≡ apply2 (binary op s.now place) right (run_value a.now) (run_value b.now) n }
{
    let RunValue::Int(x) = a else {
        return Made::Ends(Ending::Unset);
    };
    let RunValue::Int(y) = b else {
        return Made::Ends(Ending::Unset);
    };
    result_at(combine(op, s, *x, *y), place, right)
}

fn result_at(sum: Result<i128, OpFault>, place: Place, right: Place) -> Made
    ensures { (n : ℕ) → made result n ≡ computed sum place right n }
{
    match sum {
        Ok(number) => Made::Is(RunValue::Int(number)),
        Err(OpFault::Overflow) => ends_at(place, CheckKind::Overflow),
        Err(OpFault::ZeroDivisor) => ends_at(place, CheckKind::Division),
        Err(OpFault::NegativeExponent) => ends_at(right, CheckKind::Range),
    }
}

/// A relational operator.
pub fn relate(relation: Relation, a: &RunValue, b: &RunValue) -> Made
    ensures { (q : Place) (n : ℕ) → made result n ≡ apply2 (compare relation) q (run_value a.now) (run_value b.now) n }
{
    match relation {
        Relation::Equal => Made::Is(RunValue::Bool(same_run_value(a, b))),
        Relation::Differs => Made::Is(RunValue::Bool(!same_run_value(a, b))),
        Relation::Less | Relation::AtMost | Relation::Greater | Relation::AtLeast => {
            let RunValue::Int(x) = a else {
                return Made::Ends(Ending::Unset);
            };
            let RunValue::Int(y) = b else {
                return Made::Ends(Ending::Unset);
            };
            Made::Is(RunValue::Bool(are_ordered(relation, *x, *y)))
        }
    }
}

fn are_ordered(relation: Relation, x: i128, y: i128) -> bool
    ensures { result ≡ ordered relation x y }
{
    match relation {
        Relation::Equal => x == y,
        Relation::Differs => x != y,
        Relation::Less => x < y,
        Relation::AtMost => x <= y,
        Relation::Greater => y < x,
        Relation::AtLeast => y <= x,
    }
}

/// Whether a number lies within two bounds, or doesn't.
pub fn is_member(is: bool, v: &RunValue, low: &RunValue, high: &RunValue) -> Made
    ensures { (n : ℕ) → made result n ≡ member_of is (run_value v.now) (run_value low.now) (run_value high.now) n }
{
    let RunValue::Int(x) = v else {
        return Made::Ends(Ending::Unset);
    };
    let RunValue::Int(low) = low else {
        return Made::Ends(Ending::Unset);
    };
    let RunValue::Int(high) = high else {
        return Made::Ends(Ending::Unset);
    };
    let lies_within = *low <= *x && *x <= *high;
    if is {
        Made::Is(RunValue::Bool(lies_within))
    } else {
        Made::Is(RunValue::Bool(!lies_within))
    }
}

/// Whether a short-circuit form stops at its left operand.
pub fn stops_at(connective: Connective, left: bool) -> bool
    ensures { result ≡ stops_at connective left }
{
    match connective {
        Connective::AndThen => !left,
        Connective::OrElse => left,
        Connective::And | Connective::Or | Connective::Xor => false,
    }
}

/// What a logical operator gives.
pub fn joined(connective: Connective, left: bool, right: bool) -> bool
    ensures { result ≡ joined connective left right }
{
    match connective {
        Connective::And | Connective::AndThen => left && right,
        Connective::Or | Connective::OrElse => left || right,
        Connective::Xor => left != right,
    }
}

/// Whether a turn of a quantified expression decides it.
pub fn decides(quantifier: Quantifier, truth: bool) -> bool
    ensures { result ≡ decides quantifier truth }
{
    match quantifier {
        Quantifier::All => !truth,
        Quantifier::Some => truth,
    }
}

/// What a quantified expression is where no turn decides it.
pub fn undecided(quantifier: Quantifier) -> bool
    ensures { result ≡ undecided quantifier }
{
    match quantifier {
        Quantifier::All => true,
        Quantifier::Some => false,
    }
}
