//! Typed statements.

use crate::expressions::{Argument, Expr, Fitted, Target};
use crate::operators::{Bounds, Counted};
use ada_values::Place;
use sqlite_items::{Boxed, Items};

/// Which way an expression of a loop variant is to move.
#[derive(Clone, Copy, Debug, PartialEq, Eq)]
pub enum Direction {
    Increases,
    Decreases,
}

/// An expression of a loop variant.
#[derive(Drop)]
pub struct Way {
    pub direction: Direction,
    pub value: Expr,
}

/// A pragma of a loop's group.
#[derive(Drop)]
pub enum Demand {
    Invariant(Expr),
    Variant(Items<Way>),
}

/// What makes a loop go on.
#[derive(Drop)]
pub enum Head {
    /// `loop`.
    Forever,
    While(Expr),
    /// A `for` loop: whether in reverse, its parameter, and the bounds.
    For(bool, Counted, Expr, Expr),
}

/// A condition of an `if`, and the statements that run where it is the first that is True.
#[derive(Drop)]
pub struct Branch<S> {
    pub condition: Expr,
    pub body: Items<S>,
}

/// A choice of a `case`: a value, or a range, which a subtype's name may stand for.
#[derive(Clone, Copy, Debug, PartialEq, Eq)]
pub enum Choice {
    Value(i128),
    Range(Bounds),
}

/// An alternative of a `case`: its choices, or `others`, and its statements.
#[derive(Drop)]
pub struct Alternative<S> {
    pub choices: Items<Choice>,
    pub others: bool,
    pub body: Items<S>,
}

/// A loop: its number in the subprogram, its head, the statements before its invariants and variant, these, and the
/// statements after them.
#[derive(Drop)]
pub struct LoopParts<S> {
    pub number: u32,
    pub head: Head,
    pub before: Items<S>,
    pub group: Items<Demand>,
    pub after: Items<S>,
}

/// A typed statement: the place of its first token, and what it does.
#[derive(Drop)]
pub struct Stmt {
    pub place: Place,
    pub action: Boxed<Action<Stmt>>,
}

/// The forms of a statement over its inner statements, which have the type `S`.
#[derive(Drop)]
pub enum Action<S> {
    Null,
    /// An assignment, or the initial value of a local object.
    Assign(Target<Expr>, Fitted<Expr>),
    /// A procedure call. The precondition's check stands at the statement's first token.
    Call(u32, Items<Argument<Expr>>),
    If(Items<Branch<S>>, Items<S>),
    Case(Expr, Items<Alternative<S>>),
    Loop(LoopParts<S>),
    Exit,
    ExitWhen(Expr),
    /// `return` of a procedure.
    Return,
    /// `return` of a function.
    Give(Fitted<Expr>),
    Assert(Expr),
    Assume(Expr),
}
