//! The truth of a constant formula.

ghost use Rattle.std.specs.Prelude.{◌≡◌, ◌∷◌, [], ℕ, IfOk, IsTrue};
ghost use Rattle.logic_terms.specs.Value.{as_number, as_truth, count, number, record_of, truth as truth_value};
ghost use Rattle.logic_terms.specs.Meaning.{World, apply1, apply3, bound_at, meaning as meaning_in};
ghost use Rattle.logic_terms.specs.Run.{and_then, finish, gives, most_nodes, parts, run, run2, run_all, run_over};
ghost use Rattle.logic_terms.specs.View.{term, formula, terms};
ghost use Rattle.logic_terms.specs.Names.{is_constant};
ghost use Rattle.logic_truth.specs.Found.{Adds, Finds, FindsTruth, found, found_all, found_truth, variables, quant_of};
ghost use Rattle.logic_terms.specs.Operators.{binary_of, comparison_of, connective_of, quantifier_of, ternary_of, unary_of};

use crate::arrays::{into_number, into_truth};
use crate::found::{Found, FoundList, TruthFault, Variables};
use crate::operators::{apply_binary, apply_ternary, apply_unary};
use crate::same_found::same_found;
use logic_terms::{
    BinaryOperator, Comparison, Connective, Formula, FormulaParts, ListOperator, Quantifier, Term,
    TermList, TermParts, TernaryOperator, UnaryOperator, formula_parts, term_parts,
};
use sqlite_items::{Boxed, Items};
use std::alloc::Global;

/// How many nodes may be visited.
const NODES: u32 = 10000;

/// The number that the quantifier `k` outwards from here has reached.
fn reached(env: &Variables, k: u32) -> i128
    ensures { number result ≡ bound_at (variables env.now) k }
{
    match env {
        Variables::Nothing => 0,
        Variables::Over(n, further) => { if k == 0 { *n } else { reached(further, k - 1) } }
    }
}

// What recurses holds boxes alone, and leaves what takes more of the stack to functions that are never inlined.

/// A value behind a box.
#[inline(never)]
fn boxed(alloc: Global, v: Found, left: u32) -> Result<(Boxed<Found>, u32), TruthFault>
    ensures { Finds found (gives (found v) left) result }
{
    Ok((Boxed::new(alloc, v)?, left))
}

/// A number behind a box.
#[inline(never)]
fn boxed_number(alloc: Global, n: i128, left: u32) -> Result<(Boxed<Found>, u32), TruthFault>
    ensures { Finds found (gives (number n) left) result }
{
    boxed(alloc, Found::Num(n), left)
}

/// A truth value behind a box.
#[inline(never)]
fn boxed_truth(alloc: Global, b: bool, left: u32) -> Result<(Boxed<Found>, u32), TruthFault>
    ensures { Finds found (gives (truth_value b) left) result }
{
    boxed(alloc, Found::Truth(b), left)
}

/// A record behind a box.
#[inline(never)]
fn boxed_record(
    alloc: Global,
    values: FoundList,
    left: u32,
) -> Result<(Boxed<Found>, u32), TruthFault>
    ensures { Finds found (gives (record_of (found_all values)) left) result }
{
    boxed(alloc, Found::Record(values), left)
}

/// The number that is in a box, or 0.
#[inline(never)]
fn unboxed_number(v: Boxed<Found>) -> i128
    ensures { result ≡ as_number (found v) }
{
    into_number(v.into_inner())
}

/// The truth value that is in a box, or false.
#[inline(never)]
fn unboxed_truth(v: Boxed<Found>) -> bool
    ensures { result ≡ as_truth (found v) }
{
    into_truth(v.into_inner())
}

#[cycle(truth)]
#[inline(never)]
fn run_term(
    alloc: Global,
    t: &Term,
    env: &Variables,
    budget: u32,
) -> Result<(Boxed<Found>, u32), TruthFault>
    ensures { Finds found (run budget (variables env.now) (term t.now)) result }
{
    if budget == 0 {
        Err(TruthFault::TooLong)
    } else {
        term_value(alloc, t, env, budget - 1)
    }
}

#[cycle(truth)]
#[inline(never)]
fn run_formula(
    alloc: Global,
    p: &Formula,
    env: &Variables,
    budget: u32,
) -> Result<(bool, u32), TruthFault>
    ensures { Finds found_truth (run budget (variables env.now) (formula p.now)) result }
{
    if budget == 0 {
        Err(TruthFault::TooLong)
    } else {
        formula_truth(alloc, p, env, budget - 1)
    }
}

/// The fields of a record, one after another.
#[cycle(truth)]
#[inline(never)]
fn run_terms(
    alloc: Global,
    ts: &TermList,
    env: &Variables,
    budget: u32,
) -> Result<(FoundList, u32), TruthFault>
    ensures { Finds found_all (run_all budget (variables env.now) (terms ts.now)) result }
{
    let mut values = Items::new(alloc);
    let mut left = budget;
    for t in ts.as_slice() {
        let (v, rest) = run_term(alloc, t, env, left)?;
        push_found(&mut values, v)?;
        left = rest;
    }
    Ok((values, left))
}

/// Adds a value to a list.
#[inline(never)]
fn push_found(values: &mut FoundList, v: Boxed<Found>) -> Result<(), TruthFault>
    ensures { Adds values.old values.new v result }
{
    Ok(values.push(v.into_inner())?)
}

/// The value of an operator with one operand.
#[inline(never)]
fn finish_unary(
    alloc: Global,
    op: UnaryOperator,
    x: Boxed<Found>,
    left: u32,
) -> Result<(Boxed<Found>, u32), TruthFault>
    ensures { Finds found (gives (apply1 (unary_of op) (found x)) left) result }
{
    boxed(alloc, apply_unary(op, x.into_inner()), left)
}

/// The value of an operator with two operands.
#[inline(never)]
fn finish_binary(
    alloc: Global,
    op: BinaryOperator,
    x: Boxed<Found>,
    y: Boxed<Found>,
    left: u32,
) -> Result<(Boxed<Found>, u32), TruthFault>
    ensures { Finds found (finish (binary_of op) (found x) (found y) left) result }
{
    let (v, left) = apply_binary(alloc, op, x.into_inner(), y.into_inner(), left)?;
    boxed(alloc, v, left)
}

/// The value of an operator with three operands.
#[inline(never)]
fn finish_ternary(
    alloc: Global,
    op: TernaryOperator,
    x: Boxed<Found>,
    y: Boxed<Found>,
    z: Boxed<Found>,
    left: u32,
) -> Result<(Boxed<Found>, u32), TruthFault>
    ensures { Finds found (gives (apply3 (ternary_of op) (found x) (found y) (found z)) left) result }
{
    let (v, left) = apply_ternary(
        alloc,
        op,
        x.into_inner(),
        y.into_inner(),
        z.into_inner(),
        left,
    )?;
    boxed(alloc, v, left)
}

/// The second of two operands, and then the operator.
#[cycle(truth)]
#[inline(never)]
fn second(
    alloc: Global,
    op: BinaryOperator,
    b: &Term,
    x: Boxed<Found>,
    env: &Variables,
    budget: u32,
) -> Result<(Boxed<Found>, u32), TruthFault>
    ensures { Finds found (and_then (run budget (variables env.now) (term b.now)) (λ v n. finish (binary_of op) (found x) v n)) result }
{
    let (y, left) = run_term(alloc, b, env, budget)?;
    finish_binary(alloc, op, x, y, left)
}

/// The third of three operands, and then the operator.
#[cycle(truth)]
#[inline(never)]
fn third(
    alloc: Global,
    op: TernaryOperator,
    c: &Term,
    x: Boxed<Found>,
    y: Boxed<Found>,
    env: &Variables,
    budget: u32,
) -> Result<(Boxed<Found>, u32), TruthFault>
    ensures { Finds found (and_then (run budget (variables env.now) (term c.now)) (λ v n. gives (apply3 (ternary_of op) (found x) (found y) v) n)) result }
{
    let (z, left) = run_term(alloc, c, env, budget)?;
    finish_ternary(alloc, op, x, y, z, left)
}

/// The value of a term that was visited.
#[cycle(truth)]
#[tactic(auto, using(crate::proofs::Operands::binary_runs, crate::proofs::Operands::ternary_runs))]
fn term_value(
    alloc: Global,
    t: &Term,
    env: &Variables,
    budget: u32,
) -> Result<(Boxed<Found>, u32), TruthFault>
    ensures { Finds found (parts budget (variables env.now) (term t.now)) result }
{
    match term_parts(t) {
        TermParts::Number(n) => boxed_number(alloc, n, budget),
        TermParts::Symbol(_) => Err(TruthFault::TooLong),
        TermParts::Bound(k) => boxed_number(alloc, reached(env, k), budget),
        TermParts::Bit(p) => {
            let (b, left) = run_formula(alloc, p, env, budget)?;
            boxed_truth(alloc, b, left)
        }
        TermParts::Choice(p, a, b) => {
            let (chosen, left) = run_formula(alloc, p, env, budget)?;
            if chosen {
                run_term(alloc, a, env, left)
            } else {
                run_term(alloc, b, env, left)
            }
        }
        TermParts::One(op, a) => {
            let (x, left) = run_term(alloc, a, env, budget)?;
            finish_unary(alloc, op, x, left)
        }
        TermParts::Two(op, a, b) => {
            let (x, left) = run_term(alloc, a, env, budget)?;
            second(alloc, op, b, x, env, left)
        }
        TermParts::Three(op, a, b, c) => {
            let (x, left) = run_term(alloc, a, env, budget)?;
            let (y, left) = run_term(alloc, b, env, left)?;
            third(alloc, op, c, x, y, env, left)
        }
        TermParts::List(ListOperator::Record, ts) => {
            let (values, left) = run_terms(alloc, ts, env, budget)?;
            boxed_record(alloc, values, left)
        }
        TermParts::List(ListOperator::Call(_), _) => Err(TruthFault::TooLong),
    }
}

/// What is said of two values.
#[inline(never)]
fn finish_compared(
    alloc: Global,
    op: Comparison,
    x: Boxed<Found>,
    y: Boxed<Found>,
    left: u32,
) -> Result<(bool, u32), TruthFault>
    ensures { Finds found_truth (finish (comparison_of op) (found x) (found y) left) result }
{
    match op {
        Comparison::AtMost => Ok((unboxed_number(x) <= unboxed_number(y), left)),
        Comparison::Equal => Ok((same_found(alloc, x.get(), y.get())?, left)),
    }
}

/// The truth of two formulas that are joined, by that of the first: of `and` and `or` the second is visited only where
/// the first doesn't decide.
#[cycle(truth)]
#[inline(never)]
fn joined_truth(
    alloc: Global,
    op: Connective,
    first: bool,
    q: &Formula,
    env: &Variables,
    budget: u32,
) -> Result<(bool, u32), TruthFault>
    ensures { Finds found_truth (run2 (connective_of op) (gives (truth_value first) budget) (λ n. run n (variables env.now) (formula q.now))) result }
{
    match op {
        Connective::And => {
            if first {
                run_formula(alloc, q, env, budget)
            } else {
                Ok((false, budget))
            }
        }
        Connective::Or => {
            if first {
                Ok((true, budget))
            } else {
                run_formula(alloc, q, env, budget)
            }
        }
        Connective::Iff => {
            let (second, left) = run_formula(alloc, q, env, budget)?;
            Ok((first == second, left))
        }
    }
}

/// Whether it is the quantifier `all`.
fn is_all(op: Quantifier) -> bool
    ensures { quant_of result ≡ quantifier_of op }
{
    match op {
        Quantifier::All => true,
        Quantifier::Any => false,
    }
}

/// Upwards from `first` to the first number that decides.
#[cycle(truth)]
#[inline(never)]
fn over(
    alloc: Global,
    is_all: bool,
    first: i128,
    last: i128,
    p: &Formula,
    env: &Variables,
    budget: u32,
) -> Result<(bool, u32), TruthFault>
    ensures { Finds found_truth (run_over (quant_of is_all) first (count first last) (λ i n. run n (number i ∷ variables env.now) (formula p.now)) budget) result }
{
    let mut at = first;
    let mut left = budget;
    let mut more = first <= last;
    while more {
        let (b, rest) = run_formula(alloc, p, &Variables::Over(at, &*env), left)?;
        if b != is_all {
            return Ok((b, rest));
        }
        left = rest;
        more = at < last;
        if more {
            at += 1;
        }
    }
    Ok((is_all, left))
}

/// The truth of a formula that was visited.
#[cycle(truth)]
#[tactic(auto, using(crate::proofs::Operands::comparison_runs))]
fn formula_truth(
    alloc: Global,
    p: &Formula,
    env: &Variables,
    budget: u32,
) -> Result<(bool, u32), TruthFault>
    ensures { Finds found_truth (parts budget (variables env.now) (formula p.now)) result }
{
    match formula_parts(p) {
        FormulaParts::Constant(b) => Ok((b, budget)),
        FormulaParts::Truth(t) => {
            let (x, left) = run_term(alloc, t, env, budget)?;
            Ok((unboxed_truth(x), left))
        }
        FormulaParts::Compared(op, a, b) => {
            let (x, left) = run_term(alloc, a, env, budget)?;
            let (y, left) = run_term(alloc, b, env, left)?;
            finish_compared(alloc, op, x, y, left)
        }
        FormulaParts::Not(q) => {
            let (b, left) = run_formula(alloc, q, env, budget)?;
            Ok((!b, left))
        }
        FormulaParts::Joined(op, q, r) => {
            let (b, left) = run_formula(alloc, q, env, budget)?;
            joined_truth(alloc, op, b, r, env, left)
        }
        FormulaParts::Quantified(op, l, h, q) => {
            let (first, left) = run_term(alloc, l, env, budget)?;
            let (last, left) = run_term(alloc, h, env, left)?;
            over(
                alloc,
                is_all(op),
                unboxed_number(first),
                unboxed_number(last),
                q,
                env,
                left,
            )
        }
    }
}

/// The truth of a formula without symbols, calls and free variables.
///
/// `Wide` where a number that is visited leaves 128 bits, `TooLong` where the 10001st node would be visited, whichever
/// comes first.
pub fn truth(alloc: Global, f: &Formula) -> Result<bool, TruthFault>
    requires { IsTrue (is_constant (formula f.now)) }
    ensures outcome { FindsTruth (run most_nodes [] (formula f.now)) result }
    ensures meaning { IfOk result (λ b. (w : World) → meaning_in w [] (formula f.now) ≡ truth_value b) }
{
    let (b, _) = run_formula(alloc, f, &Variables::Nothing, NODES)?;
    Ok(b)
}
