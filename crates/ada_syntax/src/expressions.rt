//! Expressions (Ada RM 4), as they are written.

use ada_text::Span;
use sqlite_items::{Boxed, Items};

/// An operator of one operand (Ada RM 4.5).
#[derive(Clone, Copy, Debug, PartialEq, Eq)]
pub enum UnaryOperator {
    /// `+`
    Plus,
    /// `-`
    Minus,
    Abs,
    Not,
}

/// An operator of two operands, or a short-circuit control form (Ada RM 4.5).
#[derive(Clone, Copy, Debug, PartialEq, Eq)]
pub enum BinaryOperator {
    And,
    /// `and then`
    AndThen,
    Or,
    /// `or else`
    OrElse,
    Xor,
    /// `=`
    Equal,
    /// `/=`
    NotEqual,
    /// `<`
    Less,
    /// `<=`
    AtMost,
    /// `>`
    Greater,
    /// `>=`
    AtLeast,
    /// `+`
    Add,
    /// `-`
    Subtract,
    /// `*`
    Multiply,
    /// `/`
    Divide,
    Mod,
    Rem,
    /// `**`
    Power,
}

/// How many values of its index a quantified expression speaks of (Ada RM 4.5.8).
#[derive(Clone, Copy, Debug, PartialEq, Eq)]
pub enum Quantifier {
    All,
    Some,
}

/// A range by its two bounds, or one expression alone, which may name a range or a subtype (Ada RM 3.5).
pub struct Range<E> {
    pub low: E,
    pub high: Option<E>,
}

impl<E: Drop> Drop for Range<E> {
    fn drop(self) {
        let Range { low, high } = self;
        drop(low);
        drop(high);
    }
}

/// A condition of an if-expression, and what the expression gives where it is the first that is True (Ada RM 4.5.7).
pub struct Arm<E> {
    pub condition: E,
    pub gives: E,
}

impl<E: Drop> Drop for Arm<E> {
    fn drop(self) {
        let Arm { condition, gives } = self;
        drop(condition);
        drop(gives);
    }
}

/// What may stand where an expression is wanted in parentheses or in an aspect.
pub struct Item<E> {
    pub span: Span,
    pub form: Boxed<ItemForm<E>>,
}

impl<E: Drop> Drop for Item<E> {
    fn drop(self) {
        let Item { span: _, form } = self;
        drop(form);
    }
}

/// The forms of an item.
pub enum ItemForm<E> {
    Plain(E),
    /// An if-expression: one arm or more, and what stands after `else`.
    If(Items<Arm<E>>, Option<E>),
    /// A quantified expression, with the name of its index.
    Quantified(Quantifier, Span, Range<E>, E),
}

impl<E: Drop> Drop for ItemForm<E> {
    fn drop(self) {
        match self {
            ItemForm::Plain(expr) => drop(expr),
            ItemForm::If(arms, otherwise) => {
                drop(arms);
                drop(otherwise);
            }
            ItemForm::Quantified(_, _, range, predicate) => {
                drop(range);
                drop(predicate);
            }
        }
    }
}

/// One of the arguments, associations or choices in parentheses.
pub struct Arg<E> {
    pub span: Span,
    pub choice: ArgChoice<E>,
    /// What stands after `=>`.
    pub value: Option<Item<E>>,
}

impl<E: Drop> Drop for Arg<E> {
    fn drop(self) {
        let Arg {
            span: _,
            choice,
            value,
        } = self;
        drop(choice);
        drop(value);
    }
}

/// What stands in an argument before its `=>`.
pub enum ArgChoice<E> {
    Others,
    Item(Item<E>),
    Range(E, E),
}

impl<E: Drop> Drop for ArgChoice<E> {
    fn drop(self) {
        match self {
            ArgChoice::Others => {}
            ArgChoice::Item(item) => drop(item),
            ArgChoice::Range(low, high) => {
                drop(low);
                drop(high);
            }
        }
    }
}

/// What stands after the tick of a name.
pub enum Attribute<E> {
    Named(Span),
    Range,
    /// A qualification's operand (Ada RM 4.7).
    Qualified(Items<Arg<E>>),
}

impl<E: Drop> Drop for Attribute<E> {
    fn drop(self) {
        match self {
            Attribute::Named(_) => {}
            Attribute::Range => {}
            Attribute::Qualified(args) => drop(args),
        }
    }
}

/// A further part of a name.
pub enum Suffix<E> {
    /// The identifier after a `.`.
    Selected(Span),
    /// An attribute or a qualification, with the place of its tick.
    Ticked(Span, Attribute<E>),
    /// An index, a call's arguments or a conversion's operand.
    Applied(Items<Arg<E>>),
}

impl<E: Drop> Drop for Suffix<E> {
    fn drop(self) {
        match self {
            Suffix::Selected(_) => {}
            Suffix::Ticked(_, attribute) => drop(attribute),
            Suffix::Applied(args) => drop(args),
        }
    }
}

/// A name (Ada RM 4.1): an identifier and its suffixes.
pub struct Name<E> {
    pub span: Span,
    pub first: Span,
    pub suffixes: Items<Suffix<E>>,
}

impl<E: Drop> Drop for Name<E> {
    fn drop(self) {
        let Name {
            span: _,
            first: _,
            suffixes,
        } = self;
        drop(suffixes);
    }
}

/// An expression.
pub struct Expr {
    pub span: Span,
    pub node: Boxed<ExprNode<Expr>>,
}

impl Drop for Expr {
    fn drop(self) {
        let Expr { span: _, node } = self;
        drop(node);
    }
}

/// The forms of an expression over its parts, which have the type `E`.
pub enum ExprNode<E> {
    Number(i128),
    Null,
    Name(Name<E>),
    /// An expression in parentheses, or an aggregate.
    Group(Items<Arg<E>>),
    /// An operator with its place, and its operand.
    Unary(Span, UnaryOperator, E),
    /// An operator with its place, and its operands. An operator that is written more than once groups to the left.
    Binary(Span, BinaryOperator, E, E),
    /// A membership test: the place of `in`, or of `not` for true, the number or value, and the range.
    Member(Span, bool, E, Boxed<Range<E>>),
}

impl<E: Drop> Drop for ExprNode<E> {
    fn drop(self) {
        match self {
            ExprNode::Number(_) => {}
            ExprNode::Null => {}
            ExprNode::Name(name) => drop(name),
            ExprNode::Group(args) => drop(args),
            ExprNode::Unary(_, _, operand) => drop(operand),
            ExprNode::Binary(_, _, left, right) => {
                drop(left);
                drop(right);
            }
            ExprNode::Member(_, _, tested, range) => {
                drop(tested);
                drop(range);
            }
        }
    }
}
