//! Typed expressions, and the objects that are assigned and passed.

use crate::operators::{Bounds, Composite, Connective, Counted, Object, Quantifier, Relation};
use ada_values::{Op, Place, Value};
use sqlite_items::{Boxed, Items};

/// A value that is assigned, passed, returned or converted. `bounds` is the subtype's, where the value is to be
/// checked against them at the first token of `value`, and None where there is no range check.
#[derive(Drop)]
pub struct Fitted<E> {
    pub bounds: Option<Bounds>,
    pub value: E,
}

/// The index of an array's item, and whether there is an index check, at the first token of `value`.
#[derive(Drop)]
pub struct Indexed<E> {
    pub checked: bool,
    pub value: E,
}

/// A step from an object to a part of it.
#[derive(Drop)]
pub enum Step<E> {
    /// The component of this number, of so many.
    Component(u32, u32),
    /// An item: the array's bounds where its subtype fixes them, and the index.
    Item(Option<Bounds>, Indexed<E>),
}

/// An object or a part of it, with the place of its first token.
#[derive(Drop)]
pub struct Target<E> {
    pub place: Place,
    pub object: Object,
    pub path: Items<Step<E>>,
}

/// What is passed for a formal parameter, by its mode. Bounds are those of the range checks, None where there is none.
///
/// A function writes none of its parameters, so nothing that is passed to one is copied back: what is passed for an
/// `in out` parameter is passed in alone, and for an `out` parameter nothing is. Their places are evaluated as those of a
/// procedure's.
#[derive(Drop)]
pub enum Actual<E> {
    In(Fitted<E>),
    /// With the bounds on the way back.
    Out(Target<E>, Option<Bounds>),
    /// With the bounds on the way in, and on the way back.
    InOut(Target<E>, Option<Bounds>, Option<Bounds>),
}

/// What is passed for a formal parameter, by the number of the formal. A call has its arguments in the order in which
/// they are written, which is that of their evaluation (Ada RM 6.4).
#[derive(Drop)]
pub struct Argument<E> {
    pub formal: u32,
    pub value: Actual<E>,
}

/// A condition of an if-expression, and what the expression gives where it is the first that is True.
#[derive(Drop)]
pub struct Arm<E> {
    pub condition: E,
    pub gives: E,
}

/// The value of the components that lie in one of the ranges, or with `others` of all that no association before gives.
/// It is evaluated once, and checked once for each component that has a range check, against the bounds of its subtype,
/// at the first token of `value`: `checks` has these bounds in the order of the components. The items of an array have
/// one subtype, and so one check or none.
#[derive(Drop)]
pub struct Association<E> {
    pub ranges: Items<Bounds>,
    pub others: bool,
    pub checks: Items<Bounds>,
    pub value: E,
}

/// A typed expression: the place of its first token, which may be a parenthesis, the number of its subtype, and what it is.
#[derive(Drop)]
pub struct Expr {
    pub place: Place,
    pub subtype: u32,
    pub node: Boxed<ExprNode<Expr>>,
}

/// The forms of an expression over its parts, which have the type `E`.
#[derive(Drop)]
pub enum ExprNode<E> {
    /// A static expression, by its exact value (Ada RM 4.9).
    Static(Value),
    /// An object, with the place of its name.
    Read(Place, Object),
    /// `X'Old`: the value on entry to the subprogram, with the place of the object's name.
    Old(Place, Object),
    /// `X'Loop_Entry`: the value on entry to the loop of this number, with the place of the object's name.
    LoopEntry(Place, u32, Object),
    /// `F'Result`, with its place.
    Result(Place),
    First(E),
    Last(E),
    /// `'Length`, with the place of its tick.
    Length(Place, E),
    /// `'Succ`, with the place of its tick.
    Succ(Place, E),
    /// `'Pred`, with the place of its tick.
    Pred(Place, E),
    /// Unary `+`, or `'Pos`.
    Same(E),
    Not(E),
    /// Unary `-` or `abs`, with the operator's place.
    Unary(Place, Op, E),
    /// An operator of two operands, with its place. The range check of an exponent stands at the right operand.
    Binary(Place, Op, E, E),
    Compare(Relation, E, E),
    Connect(Connective, E, E),
    /// Whether a number lies within two bounds: `in` for true, `not in` for false.
    Member(bool, E, E, E),
    /// A conversion, a qualification or `'Val`. The bounds are those that the operand is checked against.
    Convert(Option<Bounds>, E),
    /// A function call, with the place of the function's name, where the precondition's check stands.
    Call(Place, u32, Items<Argument<E>>),
    Item(E, Indexed<E>),
    /// A record's component, by its number.
    Component(E, u32),
    /// An aggregate, with the numbers of its components.
    Aggregate(Composite, Bounds, Items<Association<E>>),
    If(Items<Arm<E>>, E),
    /// A quantified expression: its index, the bounds, and the predicate.
    Quantified(Quantifier, Counted, E, E, E),
}
