//! The formulas of inputs and assertions.

ghost use Rattle.std.specs.Prelude.{◌≡◌, ◌<◌, ◌≤◌, ◌^◌, IfOk, pos, map, length};
ghost use Rattle.ada_semantics.specs.Operators.{ordered};
ghost use Rattle.logic_terms.specs.View.{term, formula};
ghost use Rattle.logic_terms.specs.Node.{sym, op1, op2, neg, conj, eq};
ghost use Rattle.vc_tree.specs.Rules.{at_most, plus_one, related, bounds_of};
ghost use Rattle.ada_values.specs.Scalars.{integer};
ghost use Rattle.form_prover.specs.Formulas.{operand_node, condition_node, input_nodes};

use ada_values::{INTEGER_FIRST, INTEGER_LAST, NameList, Starved};
use first_form::{Assertion, Operand, position_of};
use logic_terms::{Formula, FormulaList, Term};
use sqlite_items::{Boxed, Items};
use std::alloc::Global;
use typed_units::Relation;

/// Whether two numbers stand in a relation.
pub fn are_related(relation: Relation, left: u32, right: u32) -> bool
    ensures { result ≡ ordered relation (pos left) (pos right) }
{
    match relation {
        Relation::Equal => left == right,
        Relation::Differs => left != right,
        Relation::Less => left < right,
        Relation::AtMost => left <= right,
        Relation::Greater => left > right,
        Relation::AtLeast => left >= right,
    }
}

/// The term of an operand: its number, or the symbol of its parameter.
fn term_of(params: &NameList, operand: &Operand) -> Term
    requires { length params.now < 2 ^ 32 }
    ensures { term result ≡ operand_node params.now operand.now }
{
    match operand {
        Operand::Number(number) => Term::Num(i128::from(*number)),
        Operand::Name(name) => Term::Sym(position_of(params, name).unwrap_or(0)),
    }
}

/// `left <= right`.
fn at_most(alloc: Global, left: Term, right: Term) -> Result<Formula, Starved>
    ensures { IfOk result (λ f. formula f ≡ at_most (term left) (term right)) }
{
    Ok(Formula::Le(Boxed::new(alloc, left)?, Boxed::new(alloc, right)?))
}

/// `part + 1`.
fn next(alloc: Global, part: Term) -> Result<Term, Starved>
    ensures { IfOk result (λ t. term t ≡ plus_one (term part)) }
{
    Ok(Term::Add(Boxed::new(alloc, part)?, Boxed::new(alloc, Term::Num(1))?))
}

/// `left + 1 <= right`.
fn less(alloc: Global, left: Term, right: Term) -> Result<Formula, Starved>
    ensures { IfOk result (λ f. formula f ≡ at_most (plus_one (term left)) (term right)) }
{
    at_most(alloc, next(alloc, left)?, right)
}

/// `left = right`.
fn equal(alloc: Global, left: Term, right: Term) -> Result<Formula, Starved>
    ensures { IfOk result (λ f. formula f ≡ op2 eq (term left) (term right)) }
{
    Ok(Formula::Eq(Boxed::new(alloc, left)?, Boxed::new(alloc, right)?))
}

/// Not `part`.
fn negated(alloc: Global, part: Formula) -> Result<Formula, Starved>
    ensures { IfOk result (λ f. formula f ≡ op1 neg (formula part)) }
{
    Ok(Formula::Not(Boxed::new(alloc, part)?))
}

/// Both `left` and `right`.
fn both(alloc: Global, left: Formula, right: Formula) -> Result<Formula, Starved>
    ensures { IfOk result (λ f. formula f ≡ op2 conj (formula left) (formula right)) }
{
    Ok(Formula::And(Boxed::new(alloc, left)?, Boxed::new(alloc, right)?))
}

/// The formula of a comparison of numbers, in which `=` and `<=` are the only relations.
fn related(alloc: Global, relation: Relation, left: Term, right: Term) -> Result<Formula, Starved>
    ensures { IfOk result (λ f. formula f ≡ related relation (term left) (term right)) }
{
    match relation {
        Relation::Equal => equal(alloc, left, right),
        Relation::Differs => negated(alloc, equal(alloc, left, right)?),
        Relation::Less => less(alloc, left, right),
        Relation::AtMost => at_most(alloc, left, right),
        Relation::Greater => less(alloc, right, left),
        Relation::AtLeast => at_most(alloc, right, left),
    }
}

/// The formula of an assertion's condition. A comparison of two numbers is static, and so its truth.
pub fn condition(
    alloc: Global,
    params: &NameList,
    assertion: &Assertion,
) -> Result<Formula, Starved>
    requires { length params.now < 2 ^ 32 }
    ensures { IfOk result (λ f. formula f ≡ condition_node params.now assertion.now) }
{
    match (&assertion.left.operand, &assertion.right.operand) {
        (Operand::Number(left), Operand::Number(right)) => {
            if are_related(assertion.relation, *left, *right) {
                Ok(Formula::True)
            } else {
                Ok(Formula::False)
            }
        }
        (left, right) => related(
            alloc,
            assertion.relation,
            term_of(params, left),
            term_of(params, right),
        ),
    }
}

/// The assumption that the input of this number lies in Integer.
fn bounds(alloc: Global, input: u32) -> Result<Formula, Starved>
    ensures { IfOk result (λ f. formula f ≡ bounds_of integer (sym input)) }
{
    let low = at_most(alloc, Term::Num(INTEGER_FIRST), Term::Sym(input))?;
    let high = at_most(alloc, Term::Sym(input), Term::Num(INTEGER_LAST))?;
    both(alloc, low, high)
}

/// The assumptions of so many inputs.
#[tactic(auto, using(crate::proofs::Steps::input_nodes_more))]
pub fn inputs(alloc: Global, count: usize) -> Result<FormulaList, Starved>
    requires { count ≤ 8 }
    ensures { IfOk result (λ fs. map formula fs ≡ input_nodes count 0) }
{
    let mut assumed = Items::new(alloc);
    for input in 0..count {
        assumed.push(bounds(alloc, input as u32)?)?;
    }
    Ok(assumed)
}
