//! The indexes of the quantified expressions in an expression (Ada RM 4.5.8), in the order of the text.

ghost use Rattle.std.specs.Prelude.{◌≡◌, ◌++◌, OnOk};
ghost use Rattle.statement_typing.specs.Numbers.{in_arg, in_args, in_arms, in_attribute, in_choice, in_expr, in_item, in_maybe, in_name, in_range, in_suffix, in_suffixes, in_value};
ghost use Rattle.syntax_view.specs.View.{arg_of, args_of, arms_of, attribute_of, choice_of, expr, item_of, maybe_of, name_of, range_of, suffix_of, suffixes_of, value_of};

use crate::Starved;
use ada_syntax::{
    Arg, ArgChoice, Arm, Attribute, Expr, ExprNode, Item, ItemForm, Name, Range, Suffix,
};
use sqlite_items::Items;

#[cycle(walk)]
fn push_maybe(found: &mut Items<u32>, e: &Option<Expr>) -> Result<(), Starved>
    ensures { OnOk result (found.new ≡ found.old ++ in_maybe (maybe_of expr e.now)) }
{
    match e {
        None => Ok(()),
        Some(e) => push_expr(found, e),
    }
}

#[cycle(walk)]
pub(crate) fn push_range(found: &mut Items<u32>, range: &Range<Expr>) -> Result<(), Starved>
    ensures { OnOk result (found.new ≡ found.old ++ in_range (range_of expr range.now)) }
{
    push_expr(found, &range.low)?;
    push_maybe(found, &range.high)
}

#[cycle(walk)]
fn push_arm(found: &mut Items<u32>, arm: &Arm<Expr>) -> Result<(), Starved>
    ensures { OnOk result (found.new ≡ found.old ++ (in_expr (expr arm.now.condition) ++ in_expr (expr arm.now.gives))) }
{
    push_expr(found, &arm.condition)?;
    push_expr(found, &arm.gives)
}

#[cycle(walk)]
fn push_arms(found: &mut Items<u32>, arms: &Items<Arm<Expr>>) -> Result<(), Starved>
    ensures { OnOk result (found.new ≡ found.old ++ in_arms (arms_of expr arms.now)) }
{
    for arm in arms.as_slice() {
        push_arm(found, arm)?;
    }
    Ok(())
}

/// Adds the indexes of an expression, an if-expression or a quantified expression.
#[cycle(walk)]
pub(crate) fn push_item(found: &mut Items<u32>, item: &Item<Expr>) -> Result<(), Starved>
    ensures { OnOk result (found.new ≡ found.old ++ in_item (item_of expr item.now)) }
{
    match item.form.get() {
        ItemForm::Plain(e) => push_expr(found, e),
        ItemForm::If(arms, otherwise) => {
            push_arms(found, arms)?;
            push_maybe(found, otherwise)
        }
        ItemForm::Quantified(_, index, range, predicate) => {
            found.push(index.from)?;
            push_range(found, range)?;
            push_expr(found, predicate)
        }
    }
}

#[cycle(walk)]
fn push_choice(found: &mut Items<u32>, choice: &ArgChoice<Expr>) -> Result<(), Starved>
    ensures { OnOk result (found.new ≡ found.old ++ in_choice (choice_of expr choice.now)) }
{
    match choice {
        ArgChoice::Others => Ok(()),
        ArgChoice::Item(item) => push_item(found, item),
        ArgChoice::Range(low, high) => {
            push_expr(found, low)?;
            push_expr(found, high)
        }
    }
}

#[cycle(walk)]
fn push_value(found: &mut Items<u32>, value: &Option<Item<Expr>>) -> Result<(), Starved>
    ensures { OnOk result (found.new ≡ found.old ++ in_value (value_of expr value.now)) }
{
    match value {
        None => Ok(()),
        Some(item) => push_item(found, item),
    }
}

#[cycle(walk)]
fn push_arg(found: &mut Items<u32>, arg: &Arg<Expr>) -> Result<(), Starved>
    ensures { OnOk result (found.new ≡ found.old ++ in_arg (arg_of expr arg.now)) }
{
    push_choice(found, &arg.choice)?;
    push_value(found, &arg.value)
}

/// Adds the indexes of what stands in parentheses.
#[cycle(walk)]
pub(crate) fn push_args(found: &mut Items<u32>, args: &Items<Arg<Expr>>) -> Result<(), Starved>
    ensures { OnOk result (found.new ≡ found.old ++ in_args (args_of expr args.now)) }
{
    for arg in args.as_slice() {
        push_arg(found, arg)?;
    }
    Ok(())
}

#[cycle(walk)]
fn push_suffix(found: &mut Items<u32>, suffix: &Suffix<Expr>) -> Result<(), Starved>
    ensures { OnOk result (found.new ≡ found.old ++ in_suffix (suffix_of expr suffix.now)) }
{
    match suffix {
        Suffix::Selected(_) => Ok(()),
        Suffix::Ticked(_, Attribute::Named(_)) | Suffix::Ticked(_, Attribute::Range) => Ok(()),
        Suffix::Ticked(_, Attribute::Qualified(args)) => push_args(found, args),
        Suffix::Applied(args) => push_args(found, args),
    }
}

#[cycle(walk)]
pub(crate) fn push_name(found: &mut Items<u32>, name: &Name<Expr>) -> Result<(), Starved>
    ensures { OnOk result (found.new ≡ found.old ++ in_name (name_of expr name.now)) }
{
    for suffix in name.suffixes.as_slice() {
        push_suffix(found, suffix)?;
    }
    Ok(())
}

/// Adds the indexes of an expression.
#[tactic(auto, using(syntax_view::proofs::Forms::expr_has, crate::proofs::Joined::joined))]
#[cycle(walk)]
pub(crate) fn push_expr(found: &mut Items<u32>, e: &Expr) -> Result<(), Starved>
    ensures { OnOk result (found.new ≡ found.old ++ in_expr (expr e.now)) }
{
    match e.node.get() {
        ExprNode::Number(_) | ExprNode::Null => Ok(()),
        ExprNode::Name(name) => push_name(found, name),
        ExprNode::Group(args) => push_args(found, args),
        ExprNode::Unary(_, _, operand) => push_expr(found, operand),
        ExprNode::Binary(_, _, left, right) => {
            push_expr(found, left)?;
            push_expr(found, right)
        }
        ExprNode::Member(_, _, tested, range) => {
            push_expr(found, tested)?;
            push_range(found, range.get())
        }
    }
}
