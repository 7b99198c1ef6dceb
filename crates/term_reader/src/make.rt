//! Terms, formulas and sorts from their parts.

ghost use Rattle.std.specs.Prelude.{◌≡◌, [], ◌∷◌, ◌++◌, map, reverse, IfOk};
ghost use Rattle.logic_terms.specs.Node.{ite};
ghost use Rattle.logic_terms.specs.NodeParts.{op1_of, op2_of, op3_of};
ghost use Rattle.logic_terms.specs.Operators.{binary_of, comparison_of, connective_of, list_of, quantifier_of, ternary_of};
ghost use Rattle.logic_terms.specs.View.{term};
ghost use Rattle.logic_terms.specs.Sorts.{sort, kinds_in};
ghost use Rattle.logic_terms.specs.Value.{records};
ghost use Rattle.term_reader.specs.Trees.{one, two, three, many, over, an_array, a_record, of_node, of_kind, made};
ghost use Rattle.term_reader.specs.Operators.{build};
ghost use Rattle.term_reader.specs.Reads.{tree};
ghost use Rattle.term_reader.specs.declared.part.Part.{Part};

use crate::atom::{formula_part, sort_part, term_part};
use crate::operator::Operator;
use crate::part::Part;
use logic_terms::{
    BinaryNode, BinaryOperator, Comparison, Connective, Formula, ListOperator, Quantifier, Sort,
    SortList, Starved, Term, TermList, TernaryNode, TernaryOperator, UnaryNode, binary_term,
    compared, joined, list_term, quantified, ternary_term, unary_term,
};
use sqlite_items::{Boxed, Items};
use std::alloc::Global;

/// Parts in order.
pub type PartList = Items<Part>;

/// Takes the last part, a term; no other comes here.
fn pop_term(parts: &mut PartList) -> Result<Boxed<Term>, Starved>
    ensures { IfOk result (λ t. parts.old ≡ parts.new ++ Part.Term t ∷ []) }
{
    match parts.pop() {
        Some(Part::Term(t)) => Ok(t),
        _ => Err(Starved),
    }
}

/// Takes the last part, a formula; no other comes here.
fn pop_formula(parts: &mut PartList) -> Result<Boxed<Formula>, Starved>
    ensures { IfOk result (λ p. parts.old ≡ parts.new ++ Part.Formula p ∷ []) }
{
    match parts.pop() {
        Some(Part::Formula(p)) => Ok(p),
        _ => Err(Starved),
    }
}

/// Two terms.
#[derive(Drop)]
struct Two {
    first: Boxed<Term>,
    second: Boxed<Term>,
}

/// Three terms.
#[derive(Drop)]
struct Three {
    first: Boxed<Term>,
    second: Boxed<Term>,
    third: Boxed<Term>,
}

/// The parts as one term.
fn one_term(mut parts: PartList) -> Result<Boxed<Term>, Starved>
    ensures { IfOk result (λ t. parts ≡ Part.Term t ∷ []) }
{
    let t = pop_term(&mut parts)?;
    if parts.is_empty() {
        Ok(t)
    } else {
        Err(Starved)
    }
}

/// The parts as two terms.
fn two_terms(mut parts: PartList) -> Result<Two, Starved>
    ensures { IfOk result (λ r. parts ≡ Part.Term r.first ∷ Part.Term r.second ∷ []) }
{
    let second = pop_term(&mut parts)?;
    let first = pop_term(&mut parts)?;
    if parts.is_empty() {
        Ok(Two { first, second })
    } else {
        Err(Starved)
    }
}

/// The parts as three terms.
fn three_terms(mut parts: PartList) -> Result<Three, Starved>
    ensures { IfOk result (λ r. parts ≡ Part.Term r.first ∷ Part.Term r.second ∷ Part.Term r.third ∷ []) }
{
    let third = pop_term(&mut parts)?;
    let second = pop_term(&mut parts)?;
    let first = pop_term(&mut parts)?;
    if parts.is_empty() {
        Ok(Three {
            first,
            second,
            third,
        })
    } else {
        Err(Starved)
    }
}

/// The parts as one formula.
fn one_formula(mut parts: PartList) -> Result<Boxed<Formula>, Starved>
    ensures { IfOk result (λ p. parts ≡ Part.Formula p ∷ []) }
{
    let p = pop_formula(&mut parts)?;
    if parts.is_empty() {
        Ok(p)
    } else {
        Err(Starved)
    }
}

/// Two formulas.
#[derive(Drop)]
struct TwoFormulas {
    first: Boxed<Formula>,
    second: Boxed<Formula>,
}

/// The parts as two formulas.
fn two_formulas(mut parts: PartList) -> Result<TwoFormulas, Starved>
    ensures { IfOk result (λ r. parts ≡ Part.Formula r.first ∷ Part.Formula r.second ∷ []) }
{
    let second = pop_formula(&mut parts)?;
    let first = pop_formula(&mut parts)?;
    if parts.is_empty() {
        Ok(TwoFormulas { first, second })
    } else {
        Err(Starved)
    }
}

/// A formula and two terms.
#[derive(Drop)]
struct Choice {
    test: Boxed<Formula>,
    first: Boxed<Term>,
    second: Boxed<Term>,
}

/// The parts as a formula and two terms.
fn choice_of(mut parts: PartList) -> Result<Choice, Starved>
    ensures { IfOk result (λ r. parts ≡ Part.Formula r.test ∷ Part.Term r.first ∷ Part.Term r.second ∷ []) }
{
    let second = pop_term(&mut parts)?;
    let first = pop_term(&mut parts)?;
    let test = pop_formula(&mut parts)?;
    if parts.is_empty() {
        Ok(Choice {
            test,
            first,
            second,
        })
    } else {
        Err(Starved)
    }
}

/// Two terms and a formula.
#[derive(Drop)]
struct Bounds {
    first: Boxed<Term>,
    last: Boxed<Term>,
    body: Boxed<Formula>,
}

/// The parts as the bounds and the body of a quantifier.
fn range(mut parts: PartList) -> Result<Bounds, Starved>
    ensures { IfOk result (λ r. parts ≡ Part.Term r.first ∷ Part.Term r.last ∷ Part.Formula r.body ∷ []) }
{
    let body = pop_formula(&mut parts)?;
    let last = pop_term(&mut parts)?;
    let first = pop_term(&mut parts)?;
    if parts.is_empty() {
        Ok(Bounds { first, last, body })
    } else {
        Err(Starved)
    }
}

/// The items from the last to the first.
#[tactic(auto, using(crate::proofs::Parts::turned))]
fn turn<T: Drop>(alloc: Global, mut items: Items<T>) -> Result<Items<T>, Starved>
    ensures { IfOk result (λ r. r ≡ reverse items) }
{
    let mut turned = Items::new(alloc);
    while let Some(item) = items.pop() {
        turned.push(item)?;
    }
    Ok(turned)
}

/// The terms that the parts are.
#[tactic(auto, using(crate::proofs::Parts::popped))]
fn terms_of(alloc: Global, mut parts: PartList) -> Result<TermList, Starved>
    ensures { IfOk result (λ ts. parts ≡ map Part.Term ts) }
{
    let mut backwards = Items::new(alloc);
    while let Some(part) = parts.pop() {
        match part {
            Part::Term(t) => backwards.push(t.into_inner())?,
            _ => return Err(Starved),
        }
    }
    turn(alloc, backwards)
}

/// The sorts that the parts are.
#[tactic(auto, using(crate::proofs::Parts::popped))]
fn sorts_of(alloc: Global, mut parts: PartList) -> Result<SortList, Starved>
    ensures { IfOk result (λ ss. parts ≡ map Part.Sort ss) }
{
    let mut backwards = Items::new(alloc);
    while let Some(part) = parts.pop() {
        match part {
            Part::Sort(s) => backwards.push(s.into_inner())?,
            _ => return Err(Starved),
        }
    }
    turn(alloc, backwards)
}

/// The array of one sort.
fn array_of(mut parts: PartList) -> Result<Sort, Starved>
    ensures { IfOk result (λ s. of_kind (sort s) ≡ made an_array (map tree parts)) }
{
    match parts.pop() {
        Some(Part::Sort(item)) => {
            if parts.is_empty() {
                Ok(Sort::Array(item))
            } else {
                Err(Starved)
            }
        }
        _ => Err(Starved),
    }
}

/// What has one part.
fn make_one(alloc: Global, op: UnaryNode, parts: PartList) -> Result<Part, Starved>
    ensures { IfOk result (λ p. tree p ≡ made (one (op1_of op)) (map tree parts)) }
{
    match op {
        UnaryNode::Bit => term_part(alloc, Term::Bit(one_formula(parts)?)),
        UnaryNode::Truth => formula_part(alloc, Formula::Tru(one_term(parts)?)),
        UnaryNode::Not => formula_part(alloc, Formula::Not(one_formula(parts)?)),
        UnaryNode::Term(op) => term_part(alloc, unary_term(op, one_term(parts)?)),
    }
}

/// A term of two terms.
fn make_binary(alloc: Global, op: BinaryOperator, parts: PartList) -> Result<Part, Starved>
    ensures { IfOk result (λ p. tree p ≡ made (two (binary_of op)) (map tree parts)) }
{
    let Two { first, second } = two_terms(parts)?;
    term_part(alloc, binary_term(op, first, second))
}

/// A formula that compares two terms.
fn make_compared(alloc: Global, op: Comparison, parts: PartList) -> Result<Part, Starved>
    ensures { IfOk result (λ p. tree p ≡ made (two (comparison_of op)) (map tree parts)) }
{
    let Two { first, second } = two_terms(parts)?;
    formula_part(alloc, compared(op, first, second))
}

/// A formula of two formulas.
fn make_joined(alloc: Global, op: Connective, parts: PartList) -> Result<Part, Starved>
    ensures { IfOk result (λ p. tree p ≡ made (two (connective_of op)) (map tree parts)) }
{
    let TwoFormulas { first, second } = two_formulas(parts)?;
    formula_part(alloc, joined(op, first, second))
}

/// What has two parts.
fn make_two(alloc: Global, op: BinaryNode, parts: PartList) -> Result<Part, Starved>
    ensures { IfOk result (λ p. tree p ≡ made (two (op2_of op)) (map tree parts)) }
{
    match op {
        BinaryNode::Term(op) => make_binary(alloc, op, parts),
        BinaryNode::Compared(op) => make_compared(alloc, op, parts),
        BinaryNode::Joined(op) => make_joined(alloc, op, parts),
    }
}

/// The choice of two terms by a formula.
fn make_choice(alloc: Global, parts: PartList) -> Result<Part, Starved>
    ensures { IfOk result (λ p. tree p ≡ made (three ite) (map tree parts)) }
{
    let Choice {
        test,
        first,
        second,
    } = choice_of(parts)?;
    term_part(alloc, Term::Ite(test, first, second))
}

/// A term of three terms.
fn make_ternary(alloc: Global, op: TernaryOperator, parts: PartList) -> Result<Part, Starved>
    ensures { IfOk result (λ p. tree p ≡ made (three (ternary_of op)) (map tree parts)) }
{
    let Three {
        first,
        second,
        third,
    } = three_terms(parts)?;
    term_part(alloc, ternary_term(op, first, second, third))
}

/// What has three parts, apart from quantifiers.
fn make_three(alloc: Global, op: TernaryNode, parts: PartList) -> Result<Part, Starved>
    ensures { IfOk result (λ p. tree p ≡ made (three (op3_of op)) (map tree parts)) }
{
    match op {
        TernaryNode::Choice => make_choice(alloc, parts),
        TernaryNode::Term(op) => make_ternary(alloc, op, parts),
    }
}

/// A term with a list of operands, which the parts are.
fn list_of_parts(alloc: Global, op: ListOperator, parts: PartList) -> Result<Term, Starved>
    ensures { IfOk result (λ t. of_node (term t) ≡ made (many (list_of op)) (map tree parts)) }
{
    match terms_of(alloc, parts) {
        Err(_) => Err(Starved),
        Ok(items) => Ok(list_term(op, items)),
    }
}

/// What has a list of parts.
fn make_list(alloc: Global, op: ListOperator, parts: PartList) -> Result<Part, Starved>
    ensures { IfOk result (λ p. tree p ≡ made (many (list_of op)) (map tree parts)) }
{
    term_part(alloc, list_of_parts(alloc, op, parts)?)
}

/// A formula with a quantifier.
fn make_quantified(alloc: Global, op: Quantifier, parts: PartList) -> Result<Part, Starved>
    ensures { IfOk result (λ p. tree p ≡ made (over (quantifier_of op)) (map tree parts)) }
{
    let Bounds { first, last, body } = range(parts)?;
    formula_part(alloc, quantified(op, first, last, body))
}

/// The sort of arrays of one sort.
fn make_array(alloc: Global, parts: PartList) -> Result<Part, Starved>
    ensures { IfOk result (λ p. tree p ≡ made an_array (map tree parts)) }
{
    sort_part(alloc, array_of(parts)?)
}

/// The sort of records with these fields.
fn record_sort(fields: SortList) -> Sort
    ensures { sort result ≡ records (kinds_in (map sort fields)) }
{
    Sort::Record(fields)
}

/// The parts as the fields of a sort of records.
#[tactic(auto, using(crate::proofs::Parts::kinds_made))]
fn record_of(alloc: Global, parts: PartList) -> Result<Sort, Starved>
    ensures { IfOk result (λ s. of_kind (sort s) ≡ made a_record (map tree parts)) }
{
    match sorts_of(alloc, parts) {
        Err(_) => Err(Starved),
        Ok(items) => Ok(record_sort(items)),
    }
}

/// The sort of records of sorts.
fn make_record(alloc: Global, parts: PartList) -> Result<Part, Starved>
    ensures { IfOk result (λ p. tree p ≡ made a_record (map tree parts)) }
{
    sort_part(alloc, record_of(alloc, parts)?)
}

/// What stands in brackets, of its parts.
pub fn make(alloc: Global, operator: Operator, parts: PartList) -> Result<Part, Starved>
    ensures { IfOk result (λ p. tree p ≡ made (build operator) (map tree parts)) }
{
    match operator {
        Operator::One(op) => make_one(alloc, op, parts),
        Operator::Two(op) => make_two(alloc, op, parts),
        Operator::Three(op) => make_three(alloc, op, parts),
        Operator::List(op) => make_list(alloc, op, parts),
        Operator::Quantified(op) => make_quantified(alloc, op, parts),
        Operator::Array => make_array(alloc, parts),
        Operator::Record => make_record(alloc, parts),
    }
}
