//! The texts of terms and formulas, by which variables are ordered.

ghost use Rattle.std.specs.Prelude.{◌≡◌, ◌++◌, IfOk, OnOk, codes};
ghost use Rattle.logic_terms.specs.NodeParts.{leaf_of, node_of, op1_of, op2_of, op3_of};
ghost use Rattle.logic_terms.specs.Operators.{arith_of, comparison_of, connective_of, list_of, quantifier_of};
ghost use Rattle.logic_terms.specs.View.{term, formula, terms};
ghost use Rattle.logic_terms.specs.Text.{arith_text, is_less as is_lesser, node_text, number_text, op1_text, op2_text, op3_text, opn_text, precedes as lesser, quant_text, spaced_text, whole_text};

use crate::Starved;
use crate::node::{BinaryNode, Leaf, NodeParts, NodeRef, TernaryNode, UnaryNode, node_parts};
use crate::operators::{
    Arithmetic, BinaryOperator, Comparison, Connective, ListOperator, Quantifier, TernaryOperator,
    UnaryOperator,
};
use crate::syntax::{Formula, Term, TermList};
use std::alloc::Global;
use std::cmp::Ordering;

/// Adds a number in decimal digits.
#[inline(never)]
#[tactic(auto, using(crate::proofs::Numerals::decimal_is))]
pub fn push_number(alloc: Global, text: &mut Vec<u8>, number: u64) -> Result<(), Starved>
    ensures { OnOk result (text.new.items ≡ text.old.items ++ number_text number) }
{
    let digits = format!(in alloc; "{number}")?;
    text.extend_from_slice(digits.as_bytes())
}

/// Adds a whole number in decimal digits, with a sign where it is negative.
#[inline(never)]
#[tactic(auto, using(crate::proofs::Numerals::signed_is))]
pub fn push_whole(alloc: Global, text: &mut Vec<u8>, number: i128) -> Result<(), Starved>
    ensures { OnOk result (text.new.items ≡ text.old.items ++ whole_text number) }
{
    let digits = format!(in alloc; "{number}")?;
    text.extend_from_slice(digits.as_bytes())
}

/// Adds a name with a number after it.
fn push_numbered(alloc: Global, text: &mut Vec<u8>, name: &str, number: u32) -> Result<(), Starved>
    ensures { OnOk result (text.new.items ≡ text.old.items ++ (name.now ++ number_text number)) }
{
    text.extend_from_slice(name.as_bytes())?;
    push_number(alloc, text, u64::from(number))
}

fn arithmetic_name(op: Arithmetic) -> &'static str
    ensures { result.now ≡ arith_text (arith_of op) }
{
    match op {
        Arithmetic::Add => "+",
        Arithmetic::Sub => "-",
        Arithmetic::Mul => "*",
        Arithmetic::Quo => "quo",
        Arithmetic::Rem => "rem",
        Arithmetic::Mod => "mod",
        Arithmetic::Pow => "pow",
    }
}

fn ternary_name(op: TernaryNode) -> &'static str
    ensures { result.now ≡ op3_text (op3_of op) }
{
    match op {
        TernaryNode::Choice => "ite",
        TernaryNode::Term(TernaryOperator::Store) => "sto",
        TernaryNode::Term(TernaryOperator::Fill) => "fill",
    }
}

fn comparison_name(op: Comparison) -> &'static str
    ensures { result.now ≡ op2_text (comparison_of op) }
{
    match op {
        Comparison::AtMost => "<=",
        Comparison::Equal => "=",
    }
}

fn connective_name(op: Connective) -> &'static str
    ensures { result.now ≡ op2_text (connective_of op) }
{
    match op {
        Connective::And => "and",
        Connective::Or => "or",
        Connective::Iff => "iff",
    }
}

fn quantifier_name(op: Quantifier) -> &'static str
    ensures { result.now ≡ quant_text (quantifier_of op) }
{
    match op {
        Quantifier::All => "all",
        Quantifier::Any => "any",
    }
}

/// Adds a bracket and a name.
#[inline(never)]
fn open(text: &mut Vec<u8>, name: &str) -> Result<(), Starved>
    ensures { OnOk result (text.new.items ≡ text.old.items ++ codes "(" ++ name.now) }
{
    text.extend_from_slice(b"(")?;
    text.extend_from_slice(name.as_bytes())
}

/// Adds a bracket and a name with a number after it.
fn open_numbered(alloc: Global, text: &mut Vec<u8>, name: &str, number: u32) -> Result<(), Starved>
    ensures { OnOk result (text.new.items ≡ text.old.items ++ codes "(" ++ (name.now ++ number_text number)) }
{
    open(text, name)?;
    push_number(alloc, text, u64::from(number))
}

/// Adds a bracket and the operator of one operand.
fn open_unary(alloc: Global, text: &mut Vec<u8>, op: UnaryNode) -> Result<(), Starved>
    ensures { OnOk result (text.new.items ≡ text.old.items ++ codes "(" ++ op1_text (op1_of op)) }
{
    match op {
        UnaryNode::Bit => open(text, "bit"),
        UnaryNode::Truth => open(text, "tru"),
        UnaryNode::Not => open(text, "not"),
        UnaryNode::Term(UnaryOperator::First) => open(text, "fst"),
        UnaryNode::Term(UnaryOperator::Last) => open(text, "lst"),
        UnaryNode::Term(UnaryOperator::Field(k)) => open_numbered(alloc, text, "fld ", k),
    }
}

/// Adds a bracket and the operator of two operands.
fn open_binary(alloc: Global, text: &mut Vec<u8>, op: BinaryNode) -> Result<(), Starved>
    ensures { OnOk result (text.new.items ≡ text.old.items ++ codes "(" ++ op2_text (op2_of op)) }
{
    match op {
        BinaryNode::Term(BinaryOperator::Compute(o)) => open(text, arithmetic_name(o)),
        BinaryNode::Term(BinaryOperator::Select) => open(text, "sel"),
        BinaryNode::Term(BinaryOperator::Update(k)) => open_numbered(alloc, text, "upd ", k),
        BinaryNode::Compared(o) => open(text, comparison_name(o)),
        BinaryNode::Joined(o) => open(text, connective_name(o)),
    }
}

/// Adds a bracket and the operator of a list.
fn open_list(alloc: Global, text: &mut Vec<u8>, op: ListOperator) -> Result<(), Starved>
    ensures { OnOk result (text.new.items ≡ text.old.items ++ codes "(" ++ opn_text (list_of op)) }
{
    match op {
        ListOperator::Record => open(text, "rec"),
        ListOperator::Call(k) => open_numbered(alloc, text, "call ", k),
    }
}

/// Adds a node without operands.
fn push_leaf(alloc: Global, text: &mut Vec<u8>, leaf: Leaf) -> Result<(), Starved>
    ensures { OnOk result (text.new.items ≡ text.old.items ++ node_text (leaf_of leaf)) }
{
    match leaf {
        Leaf::Number(n) => push_whole(alloc, text, n),
        Leaf::Constant(true) => text.extend_from_slice(b"T"),
        Leaf::Constant(false) => text.extend_from_slice(b"F"),
        Leaf::Symbol(k) => push_numbered(alloc, text, "s", k),
        Leaf::Bound(k) => push_numbered(alloc, text, "b", k),
    }
}

/// Adds a space and a term or a formula.
#[cycle(text)]
fn push_spaced(alloc: Global, text: &mut Vec<u8>, n: NodeRef) -> Result<(), Starved>
    ensures { OnOk result (text.new.items ≡ text.old.items ++ (codes " " ++ node_text (node_of n.entry))) }
{
    text.extend_from_slice(b" ")?;
    push_node(alloc, text, n)
}

/// Adds terms, each with a space before it, and a bracket.
#[cycle(text)]
fn push_last_terms(alloc: Global, text: &mut Vec<u8>, ts: &TermList) -> Result<(), Starved>
    ensures { OnOk result (text.new.items ≡ text.old.items ++ spaced_text (terms ts.now) ++ codes ")") }
{
    for t in ts.as_slice() {
        push_spaced(alloc, text, NodeRef::Term(t))?;
    }
    text.extend_from_slice(b")")
}

/// Adds the last operand and a bracket.
#[cycle(text)]
fn push_last(alloc: Global, text: &mut Vec<u8>, a: NodeRef) -> Result<(), Starved>
    ensures { OnOk result (text.new.items ≡ text.old.items ++ (codes " " ++ node_text (node_of a.entry)) ++ codes ")") }
{
    push_spaced(alloc, text, a)?;
    text.extend_from_slice(b")")
}

/// Adds the last two operands and a bracket.
#[cycle(text)]
fn push_last_two(alloc: Global, text: &mut Vec<u8>, a: NodeRef, b: NodeRef) -> Result<(), Starved>
    ensures { OnOk result (text.new.items ≡ text.old.items ++ (codes " " ++ node_text (node_of a.entry)) ++ (codes " " ++ node_text (node_of b.entry)) ++ codes ")") }
{
    push_spaced(alloc, text, a)?;
    push_last(alloc, text, b)
}

/// Adds three operands and a bracket.
#[cycle(text)]
fn push_last_three(
    alloc: Global,
    text: &mut Vec<u8>,
    a: NodeRef,
    b: NodeRef,
    c: NodeRef,
) -> Result<(), Starved>
    ensures { OnOk result (text.new.items ≡ text.old.items ++ (codes " " ++ node_text (node_of a.entry)) ++ (codes " " ++ node_text (node_of b.entry)) ++ (codes " " ++ node_text (node_of c.entry)) ++ codes ")") }
{
    push_spaced(alloc, text, a)?;
    push_last_two(alloc, text, b, c)
}

/// Adds a term or a formula.
#[cycle(text)]
fn push_node(alloc: Global, text: &mut Vec<u8>, n: NodeRef) -> Result<(), Starved>
    ensures { OnOk result (text.new.items ≡ text.old.items ++ node_text (node_of n.entry)) }
{
    match node_parts(n) {
        NodeParts::Leaf(leaf) => push_leaf(alloc, text, leaf),
        NodeParts::One(op, a) => {
            open_unary(alloc, text, op)?;
            push_last(alloc, text, a)
        }
        NodeParts::Two(op, a, b) => {
            open_binary(alloc, text, op)?;
            push_last_two(alloc, text, a, b)
        }
        NodeParts::Three(op, a, b, c) => {
            open(text, ternary_name(op))?;
            push_last_three(alloc, text, a, b, c)
        }
        NodeParts::List(op, ts) => {
            open_list(alloc, text, op)?;
            push_last_terms(alloc, text, ts)
        }
        NodeParts::Quantified(op, first, last, p) => {
            open(text, quantifier_name(op))?;
            push_last_three(alloc, text, first, last, p)
        }
    }
}

/// Adds a space and a term.
pub fn push_spaced_term(alloc: Global, text: &mut Vec<u8>, t: &Term) -> Result<(), Starved>
    ensures { OnOk result (text.new.items ≡ text.old.items ++ (codes " " ++ node_text (term t.now))) }
{
    push_spaced(alloc, text, NodeRef::Term(t))
}

/// Adds a space and a formula.
pub fn push_spaced_formula(alloc: Global, text: &mut Vec<u8>, p: &Formula) -> Result<(), Starved>
    ensures { OnOk result (text.new.items ≡ text.old.items ++ (codes " " ++ node_text (formula p.now))) }
{
    push_spaced(alloc, text, NodeRef::Formula(p))
}

/// Adds a formula.
pub fn push_formula(alloc: Global, text: &mut Vec<u8>, p: &Formula) -> Result<(), Starved>
    ensures { OnOk result (text.new.items ≡ text.old.items ++ node_text (formula p.now)) }
{
    push_node(alloc, text, NodeRef::Formula(p))
}

/// The text of a term.
pub fn text_of(alloc: Global, t: &Term) -> Result<Vec<u8>, Starved>
    ensures { IfOk result (λ text. text.items ≡ node_text (term t.now)) }
{
    let mut text = Vec::new(alloc);
    push_node(alloc, &mut text, NodeRef::Term(t))?;
    Ok(text)
}

fn is_less(order: Ordering) -> bool
    ensures { result ≡ is_lesser order }
{
    match order {
        Ordering::Less => true,
        Ordering::Equal | Ordering::Greater => false,
    }
}

/// Whether the text of the first term is the lesser one, byte by byte.
pub fn precedes(alloc: Global, a: &Term, b: &Term) -> Result<bool, Starved>
    ensures { IfOk result (λ r. r ≡ lesser (term a.now) (term b.now)) }
{
    let first = text_of(alloc, a)?;
    let second = text_of(alloc, b)?;
    Ok(is_less(first.as_slice().cmp(second.as_slice())))
}
