//! The roots of expressions.

use ada_tree::{
    Arg, ArgChoice, Attribute, BinaryOperator, Expr, ExprNode, Item, ItemForm, Name, Quantifier,
    Range, Suffix, UnaryOperator,
};

fn binary_sign(operator: BinaryOperator) -> &'static str {
    match operator {
        BinaryOperator::And => "and",
        BinaryOperator::AndThen => "and then",
        BinaryOperator::Or => "or",
        BinaryOperator::OrElse => "or else",
        BinaryOperator::Xor => "xor",
        BinaryOperator::Equal => "=",
        BinaryOperator::NotEqual => "/=",
        BinaryOperator::Less => "<",
        BinaryOperator::AtMost => "<=",
        BinaryOperator::Greater => ">",
        BinaryOperator::AtLeast => ">=",
        BinaryOperator::Add => "+",
        BinaryOperator::Subtract => "-",
        BinaryOperator::Multiply => "*",
        BinaryOperator::Divide => "/",
        BinaryOperator::Mod => "mod",
        BinaryOperator::Rem => "rem",
        BinaryOperator::Power => "**",
    }
}

fn unary_sign(operator: UnaryOperator) -> &'static str {
    match operator {
        UnaryOperator::Plus => "+",
        UnaryOperator::Minus => "-",
        UnaryOperator::Abs => "abs",
        UnaryOperator::Not => "not",
    }
}

/// A name by its last suffix.
fn name_sign(name: &Name<Expr>) -> &'static str {
    match name.suffixes.as_slice().last() {
        None => "x",
        Some(Suffix::Selected(_)) => "x.x",
        Some(Suffix::Applied(_)) => "x()",
        Some(Suffix::Ticked(_, Attribute::Named(_))) => "x'x",
        Some(Suffix::Ticked(_, Attribute::Range)) => "x'range",
        Some(Suffix::Ticked(_, Attribute::Qualified(_))) => "x'()",
    }
}

/// The root of an expression: its operator, `1` for a number, `x` for a name and `()` for a group.
fn sign(expr: &Expr) -> &'static str {
    match expr.node.get() {
        ExprNode::Number(_) => "1",
        ExprNode::Null => "null",
        ExprNode::Name(name) => name_sign(name),
        ExprNode::Group(_) => "()",
        ExprNode::Unary(_, operator, _) => unary_sign(*operator),
        ExprNode::Binary(_, operator, _, _) => binary_sign(*operator),
        ExprNode::Member(_, true, _, _) => "not in",
        ExprNode::Member(_, false, _, _) => "in",
    }
}

fn range_sign(range: &Range<Expr>) -> &'static str {
    match &range.high {
        Some(_) => "..",
        None => sign(&range.low),
    }
}

fn item_sign(item: &Item<Expr>) -> &'static str {
    match item.form.get() {
        ItemForm::Plain(expr) => sign(expr),
        ItemForm::If(_, _) => "if",
        ItemForm::Quantified(Quantifier::All, _, _, _) => "for all",
        ItemForm::Quantified(Quantifier::Some, _, _, _) => "for some",
    }
}

/// One of the items in parentheses.
fn arg_sign(arg: Option<&Arg<Expr>>) -> &'static str {
    match arg {
        None => "",
        Some(arg) => match &arg.choice {
            ArgChoice::Others => "others",
            ArgChoice::Range(_, _) => "..",
            ArgChoice::Item(item) => item_sign(item),
        },
    }
}

/// The root of an expression, and those of what stands right below it.
#[derive(Clone, Copy)]
pub struct Roots {
    pub root: &'static str,
    pub left: &'static str,
    pub right: &'static str,
}

/// The roots of an expression. Of a group they are those of its first two items.
pub fn roots_of(expr: &Expr) -> Roots {
    let (left, right) = match expr.node.get() {
        ExprNode::Unary(_, _, operand) => (sign(operand), ""),
        ExprNode::Binary(_, _, left, right) => (sign(left), sign(right)),
        ExprNode::Member(_, _, operand, range) => (sign(operand), range_sign(range.get())),
        ExprNode::Group(args) => {
            let args = args.as_slice();
            (arg_sign(args.first()), arg_sign(args.get(1)))
        }
        _ => ("", ""),
    };
    Roots {
        root: sign(expr),
        left,
        right,
    }
}
