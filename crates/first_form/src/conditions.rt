//! The assertions of a tree.

ghost use Rattle.std.specs.Prelude.{◌≡◌, ◌<◌, ◌-◌, ◌^◌, IfOk, None, Some, length};
ghost use Rattle.std.specs.Option.{option_copied};
ghost use Rattle.first_form.specs.Tree.{argument_in, assertion_of, chosen_in, comparison_in, each, name_in, number_in, operand_in, placed_in, plain_in, pragma_in, relation_of, statement_in};

use crate::form::{Assertion, AssertionList, FormFault, Operand, Placed};
use crate::spelled::{is_word, place_at, text_at};
use ada_syntax::{
    Action, Arg, ArgChoice, BinaryOperator, Expr, ExprNode, ItemForm, Name, Pragma, Stmt,
};
use ada_values::{INTEGER_LAST, NameText, Place};
use std::alloc::Global;
use typed_units::Relation;

/// A number of Integer.
fn number_in(number: i128) -> Option<u32>
    ensures { result ≡ number_in number }
{
    if 0 <= number && number <= INTEGER_LAST {
        Some(number as u32)
    } else {
        None
    }
}

/// The identifier that a name is.
fn name_in(alloc: Global, text: &[u8], name: &Name<Expr>) -> Result<NameText, FormFault>
    ensures ok { IfOk result (λ x. name_in text.now name.now ≡ Some x) }
    ensures not_built { result ≡ Err FormFault.NotBuilt → name_in text.now name.now ≡ None }
{
    if !name.suffixes.as_slice().is_empty() {
        return Err(FormFault::NotBuilt);
    }
    let name = NameText::from_bytes(alloc, text_at(text, name.first))?;
    Ok(name)
}

/// The number or the identifier that an expression is.
fn operand_in(alloc: Global, text: &[u8], node: &ExprNode<Expr>) -> Result<Operand, FormFault>
    ensures ok { IfOk result (λ o. operand_in text.now node.now ≡ Some o) }
    ensures not_built { result ≡ Err FormFault.NotBuilt → operand_in text.now node.now ≡ None }
{
    match node {
        ExprNode::Number(number) => match number_in(*number) {
            Some(number) => Ok(Operand::Number(number)),
            None => Err(FormFault::NotBuilt),
        },
        ExprNode::Name(name) => {
            let name = name_in(alloc, text, name)?;
            Ok(Operand::Name(name))
        }
        _ => Err(FormFault::NotBuilt),
    }
}

/// The operand that an expression is, at its place.
fn placed_in(alloc: Global, text: &[u8], expr: &Expr) -> Result<Placed, FormFault>
    requires { length text.now < 2 ^ 32 - 1 }
    ensures ok { IfOk result (λ o. placed_in text.now expr.now ≡ Some o) }
    ensures not_built { result ≡ Err FormFault.NotBuilt → placed_in text.now expr.now ≡ None }
{
    let operand = operand_in(alloc, text, expr.node.get())?;
    Ok(Placed {
        place: place_at(text, expr.span),
        operand,
    })
}

/// The relation of an operator.
fn relation_of(operator: BinaryOperator) -> Option<Relation>
    ensures { result ≡ relation_of operator }
{
    match operator {
        BinaryOperator::Equal => Some(Relation::Equal),
        BinaryOperator::NotEqual => Some(Relation::Differs),
        BinaryOperator::Less => Some(Relation::Less),
        BinaryOperator::AtMost => Some(Relation::AtMost),
        BinaryOperator::Greater => Some(Relation::Greater),
        BinaryOperator::AtLeast => Some(Relation::AtLeast),
        _ => None,
    }
}

/// The assertion at a place that compares two expressions.
fn assertion_of(
    alloc: Global,
    text: &[u8],
    place: Place,
    left: &Expr,
    operator: BinaryOperator,
    right: &Expr,
) -> Result<Assertion, FormFault>
    requires { length text.now < 2 ^ 32 - 1 }
    ensures ok { IfOk result (λ a. assertion_of place (placed_in text.now left.now) (relation_of operator) (placed_in text.now right.now) ≡ Some a) }
    ensures not_built { result ≡ Err FormFault.NotBuilt →
        assertion_of place (placed_in text.now left.now) (relation_of operator) (placed_in text.now right.now) ≡ None }
{
    let Some(relation) = relation_of(operator) else {
        return Err(FormFault::NotBuilt);
    };
    let left = placed_in(alloc, text, left)?;
    let right = placed_in(alloc, text, right)?;
    Ok(Assertion {
        place,
        left,
        relation,
        right,
    })
}

/// The assertion at a place with this condition.
fn comparison_in(
    alloc: Global,
    text: &[u8],
    place: Place,
    node: &ExprNode<Expr>,
) -> Result<Assertion, FormFault>
    requires { length text.now < 2 ^ 32 - 1 }
    ensures ok { IfOk result (λ a. comparison_in text.now place node.now ≡ Some a) }
    ensures not_built { result ≡ Err FormFault.NotBuilt → comparison_in text.now place node.now ≡ None }
{
    match node {
        ExprNode::Binary(_, operator, left, right) => {
            assertion_of(alloc, text, place, left, *operator, right)
        }
        _ => Err(FormFault::NotBuilt),
    }
}

/// The expression that an item is.
fn plain_in(form: &ItemForm<Expr>) -> Option<&Expr>
    ensures { option_copied result ≡ plain_in form.entry.now }
{
    match form {
        ItemForm::Plain(expr) => Some(expr),
        _ => None,
    }
}

/// The expression that stands for an argument.
fn chosen_in(choice: &ArgChoice<Expr>) -> Option<&Expr>
    ensures { option_copied result ≡ chosen_in choice.entry.now }
{
    match choice {
        ArgChoice::Item(item) => plain_in(item.form.get()),
        _ => None,
    }
}

/// The one argument of a pragma.
fn argument_in(args: &[Arg<Expr>]) -> Option<&Expr>
    ensures { option_copied result ≡ argument_in args.entry.now }
{
    match args {
        [arg] if arg.value.is_none() => chosen_in(&arg.choice),
        _ => None,
    }
}

/// The assertion that a pragma is.
fn pragma_in(alloc: Global, text: &[u8], pragma: &Pragma) -> Result<Assertion, FormFault>
    requires { length text.now < 2 ^ 32 - 1 }
    ensures ok { IfOk result (λ a. pragma_in text.now pragma.now ≡ Some a) }
    ensures not_built { result ≡ Err FormFault.NotBuilt → pragma_in text.now pragma.now ≡ None }
{
    if !is_word(text, pragma.name, b"assert") {
        return Err(FormFault::NotBuilt);
    }
    let Some(condition) = argument_in(pragma.args.as_slice()) else {
        return Err(FormFault::NotBuilt);
    };
    comparison_in(
        alloc,
        text,
        place_at(text, pragma.span),
        condition.node.get(),
    )
}

/// The assertion that a statement is.
fn statement_in(alloc: Global, text: &[u8], statement: &Stmt) -> Result<Assertion, FormFault>
    requires { length text.now < 2 ^ 32 - 1 }
    ensures ok { IfOk result (λ a. statement_in text.now statement.now ≡ Some a) }
    ensures not_built { result ≡ Err FormFault.NotBuilt → statement_in text.now statement.now ≡ None }
{
    match statement.action.get() {
        Action::Pragma(pragma) => pragma_in(alloc, text, pragma),
        _ => Err(FormFault::NotBuilt),
    }
}

/// The assertions that statements are.
pub fn assertions_in(
    alloc: Global,
    text: &[u8],
    statements: &[Stmt],
) -> Result<AssertionList, FormFault>
    requires { length text.now < 2 ^ 32 - 1 }
    ensures ok { IfOk result (λ as'. each (statement_in text.now) statements.now ≡ Some as') }
    ensures not_built { result ≡ Err FormFault.NotBuilt → each (statement_in text.now) statements.now ≡ None }
{
    let mut assertions = AssertionList::new(alloc);
    for statement in statements {
        assertions.push(statement_in(alloc, text, statement)?)?;
    }
    Ok(assertions)
}
