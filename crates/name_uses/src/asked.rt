//! What a walk asks of the parts of an expression.

ghost use Rattle.std.specs.Prelude.{◌≡◌};
ghost use Rattle.name_uses.specs.Asked.{are_range, before_arrow, have_range, is_range_arg, is_range_expr, is_range_item, is_range_suffix, is_selector, sole_choice, sole_expr, sole_item, sole_name};
ghost use Rattle.syntax_view.specs.View.{arg_of, args_of, choice_of, expr, item_of, name_of, suffix_of, suffixes_of, value_of};

use ada_syntax::{Arg, ArgChoice, Attribute, Expr, ExprNode, Item, ItemForm, Name, Suffix};
use ada_text::Span;
use sqlite_items::Items;

/// The identifier that a name is, where nothing follows it.
fn sole_name(name: &Name<Expr>) -> Option<Span>
    ensures { result ≡ sole_name (name_of expr name.now) }
{
    match name.suffixes.as_slice() {
        [] => Some(name.first),
        [_, ..] => None,
    }
}

#[tactic(auto, using(syntax_view::proofs::Forms::expr_has))]
fn sole_expr(e: &Expr) -> Option<Span>
    ensures { result ≡ sole_expr (expr e.now) }
{
    match e.node.get() {
        ExprNode::Name(name) => sole_name(name),
        ExprNode::Number(_)
        | ExprNode::Null
        | ExprNode::Group(_)
        | ExprNode::Unary(_, _, _)
        | ExprNode::Binary(_, _, _, _)
        | ExprNode::Member(_, _, _, _) => None,
    }
}

/// The identifier that an item is, where it is nothing but one.
pub fn sole_item(item: &Item<Expr>) -> Option<Span>
    ensures { result ≡ sole_item (item_of expr item.now) }
{
    match item.form.get() {
        ItemForm::Plain(e) => sole_expr(e),
        ItemForm::If(_, _) | ItemForm::Quantified(_, _, _, _) => None,
    }
}

/// The identifier that a choice is, where it is nothing but one.
pub fn sole_choice(choice: &ArgChoice<Expr>) -> Option<Span>
    ensures { result ≡ sole_choice (choice_of expr choice.now) }
{
    match choice {
        ArgChoice::Item(item) => sole_item(item),
        ArgChoice::Others | ArgChoice::Range(_, _) => None,
    }
}

/// The identifier that stands alone before an argument's `=>`.
pub(crate) fn before_arrow(arg: &Arg<Expr>) -> Option<Span>
    ensures { result ≡ before_arrow (choice_of expr arg.now.choice) (value_of expr arg.now.value) }
{
    match arg.value {
        None => None,
        Some(_) => sole_choice(&arg.choice),
    }
}

fn is_range_suffix(suffix: &Suffix<Expr>) -> bool
    ensures { result ≡ is_range_suffix (suffix_of expr suffix.now) }
{
    match suffix {
        Suffix::Ticked(_, Attribute::Range) => true,
        Suffix::Ticked(_, Attribute::Named(_))
        | Suffix::Ticked(_, Attribute::Qualified(_))
        | Suffix::Selected(_)
        | Suffix::Applied(_) => false,
    }
}

fn are_range(suffixes: &Items<Suffix<Expr>>) -> bool
    ensures { result ≡ are_range (suffixes_of expr suffixes.now) }
{
    for suffix in suffixes.as_slice() {
        if is_range_suffix(suffix) {
            return true;
        }
    }
    false
}

#[tactic(auto, using(syntax_view::proofs::Forms::expr_has))]
fn is_range_expr(e: &Expr) -> bool
    ensures { result ≡ is_range_expr (expr e.now) }
{
    match e.node.get() {
        ExprNode::Name(name) => are_range(&name.suffixes),
        ExprNode::Number(_)
        | ExprNode::Null
        | ExprNode::Group(_)
        | ExprNode::Unary(_, _, _)
        | ExprNode::Binary(_, _, _, _)
        | ExprNode::Member(_, _, _, _) => false,
    }
}

fn is_range_item(item: &Item<Expr>) -> bool
    ensures { result ≡ is_range_item (item_of expr item.now) }
{
    match item.form.get() {
        ItemForm::Plain(e) => is_range_expr(e),
        ItemForm::If(_, _) | ItemForm::Quantified(_, _, _, _) => false,
    }
}

fn is_range_arg(arg: &Arg<Expr>) -> bool
    ensures { result ≡ is_range_arg (arg_of expr arg.now) }
{
    match &arg.choice {
        ArgChoice::Others => false,
        ArgChoice::Range(_, _) => true,
        ArgChoice::Item(item) => match arg.value {
            None => is_range_item(item),
            Some(_) => false,
        },
    }
}

/// Whether an argument is a range: then a name before them is sliced, or a subtype has an index constraint.
pub(crate) fn have_range(args: &Items<Arg<Expr>>) -> bool
    ensures { result ≡ have_range (args_of expr args.now) }
{
    for arg in args.as_slice() {
        if is_range_arg(arg) {
            return true;
        }
    }
    false
}

/// Whether what follows a name is a point and an identifier.
pub fn is_selector(suffix: &Suffix<Expr>) -> bool
    ensures { result ≡ is_selector (suffix_of expr suffix.now) }
{
    match suffix {
        Suffix::Selected(_) => true,
        Suffix::Ticked(_, _) | Suffix::Applied(_) => false,
    }
}
