//! The types that expressions tell, by their forms.

ghost use Rattle.std.specs.Prelude.{◌≡◌};
ghost use Rattle.reading_scope.specs.Scopes.{scope_of};
ghost use Rattle.syntax_view.specs.View.{args_of, arms_of, expr, item_of, maybe_of, range_of};
ghost use Rattle.typing_rules.specs.Kinds as kinds;
ghost use Rattle.typing_rules.specs.Reading as reading;

use crate::names::name_kind;
use ada_syntax::{Arg, ArgChoice, Arm, Expr, ExprNode, Item, ItemForm, Range, UnaryOperator};
use expression_rules::family_of;
use reading_scope::Scope;
use sqlite_items::Items;
use type_base::{BOOLEAN, Family};

fn unary_kind(operator: UnaryOperator, kind: Option<u32>) -> Option<u32>
    ensures { result ≡ kinds.unary_kind operator kind }
{
    match operator {
        UnaryOperator::Not => Some(BOOLEAN),
        UnaryOperator::Plus | UnaryOperator::Minus | UnaryOperator::Abs => kind,
    }
}

fn binary_kind(family: Family, left: Option<u32>, right: Option<u32>) -> Option<u32>
    ensures { result ≡ kinds.binary_kind family left right }
{
    match family {
        Family::Arithmetic(_) => match left {
            Some(kind) => Some(kind),
            None => right,
        },
        Family::Compare(_) | Family::Connect(_) => Some(BOOLEAN),
        Family::Power => left,
    }
}

#[cycle(walk)]
fn maybe_kind(scope: &Scope, e: &Option<Expr>) -> Option<u32>
    ensures { result ≡ kinds.operand_kind (reading.maybe (scope_of scope.now) (maybe_of expr e.now)) }
{
    match e {
        Some(e) => kind(scope, e),
        None => None,
    }
}

/// The type that a range tells: that of the first of its bounds that tells one.
pub fn range_kind(scope: &Scope, range: &Range<Expr>) -> Option<u32>
    ensures { result ≡ kinds.range_kind (reading.range (scope_of scope.now) (range_of expr range.now)) }
{
    match kind(scope, &range.low) {
        Some(kind) => Some(kind),
        None => maybe_kind(scope, &range.high),
    }
}

#[cycle(walk)]
fn arms_kind(scope: &Scope, arms: &Items<Arm<Expr>>, otherwise: Option<u32>) -> Option<u32>
    ensures { result ≡ kinds.arms_kind (reading.arms (scope_of scope.now) (arms_of expr arms.now)) otherwise }
{
    for arm in arms.as_slice() {
        if let Some(kind) = kind(scope, &arm.gives) {
            return Some(kind);
        }
    }
    otherwise
}

/// The type that the branches of an if-expression tell: that of the first that tells one.
pub fn branches_kind(
    scope: &Scope,
    arms: &Items<Arm<Expr>>,
    otherwise: &Option<Expr>,
) -> Option<u32>
    ensures { result ≡ kinds.branches_kind (reading.arms (scope_of scope.now) (arms_of expr arms.now)) (reading.maybe (scope_of scope.now) (maybe_of expr otherwise.now)) }
{
    arms_kind(scope, arms, maybe_kind(scope, otherwise))
}

/// The type that an item tells.
#[cycle(walk)]
pub fn item_kind(scope: &Scope, item: &Item<Expr>) -> Option<u32>
    ensures { result ≡ (reading.item (scope_of scope.now) (item_of expr item.now)).kind }
{
    match item.form.get() {
        ItemForm::Plain(e) => kind(scope, e),
        ItemForm::If(arms, otherwise) => { arms_kind(scope, arms, maybe_kind(scope, otherwise)) }
        ItemForm::Quantified(_, _, _, _) => Some(BOOLEAN),
    }
}

/// The type that parentheses tell: that of an expression alone in them.
#[cycle(walk)]
fn group_kind(scope: &Scope, args: &Items<Arg<Expr>>) -> Option<u32>
    ensures { result ≡ kinds.group_kind (reading.args (scope_of scope.now) (args_of expr args.now)) }
{
    match args.as_slice() {
        [
            Arg {
                choice: ArgChoice::Item(item),
                value: None,
                ..
            },
        ] => item_kind(scope, item),
        _ => None,
    }
}

/// The type that an expression tells: none for numbers, aggregates and what is refused.
#[tactic(auto, using(syntax_view::proofs::Forms::expr_has))]
#[cycle(walk)]
pub fn kind(scope: &Scope, e: &Expr) -> Option<u32>
    ensures { result ≡ reading.kind (scope_of scope.now) (expr e.now) }
{
    match e.node.get() {
        ExprNode::Number(_) | ExprNode::Null => None,
        ExprNode::Name(name) => name_kind(scope, name),
        ExprNode::Group(args) => group_kind(scope, args),
        ExprNode::Unary(_, operator, operand) => unary_kind(*operator, kind(scope, operand)),
        ExprNode::Binary(_, operator, left, right) => {
            binary_kind(family_of(*operator), kind(scope, left), kind(scope, right))
        }
        ExprNode::Member(_, _, _, _) => Some(BOOLEAN),
    }
}
