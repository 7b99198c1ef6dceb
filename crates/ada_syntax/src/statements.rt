//! Statements (Ada RM 5) and pragmas (Ada RM 2.8), as they are written.

use crate::expressions::{Arg, Expr, Name, Range};
use ada_text::Span;
use sqlite_items::{Boxed, Items};

/// A pragma, with its name and its arguments. Without parentheses there are none, and in parentheses one or more.
pub struct Pragma {
    pub span: Span,
    pub name: Span,
    pub args: Items<Arg<Expr>>,
}

impl Drop for Pragma {
    fn drop(self) {
        let Pragma {
            span: _,
            name: _,
            args,
        } = self;
        drop(args);
    }
}

/// A condition of an `if` or an `elsif`, with its statements.
pub struct Branch<S> {
    pub condition: Expr,
    pub body: Items<S>,
}

impl<S: Drop> Drop for Branch<S> {
    fn drop(self) {
        let Branch { condition, body } = self;
        drop(condition);
        drop(body);
    }
}

/// A choice of an alternative of a `case` (Ada RM 3.8.1).
pub enum Choice {
    Others,
    Range(Range<Expr>),
}

impl Drop for Choice {
    fn drop(self) {
        match self {
            Choice::Others => {}
            Choice::Range(range) => drop(range),
        }
    }
}

/// An alternative of a `case`: one choice or more, with its statements.
pub struct Alternative<S> {
    pub choices: Items<Choice>,
    pub body: Items<S>,
}

impl<S: Drop> Drop for Alternative<S> {
    fn drop(self) {
        let Alternative { choices, body } = self;
        drop(choices);
        drop(body);
    }
}

/// What stands before `loop` (Ada RM 5.5).
pub enum LoopHead {
    Forever,
    While(Expr),
    /// The loop parameter's name, whether it goes in reverse, and what it goes over.
    For(Span, bool, Range<Expr>),
}

impl Drop for LoopHead {
    fn drop(self) {
        match self {
            LoopHead::Forever => {}
            LoopHead::While(condition) => drop(condition),
            LoopHead::For(_, _, range) => drop(range),
        }
    }
}

/// A statement.
pub struct Stmt {
    pub span: Span,
    pub action: Boxed<Action<Stmt>>,
}

impl Drop for Stmt {
    fn drop(self) {
        let Stmt { span: _, action } = self;
        drop(action);
    }
}

/// The forms of a statement over statements, which have the type `S`.
pub enum Action<S> {
    Null,
    Call(Name<Expr>),
    Assign(Name<Expr>, Expr),
    /// One branch or more, and the statements after `else`, of which there are none without it.
    If(Items<Branch<S>>, Items<S>),
    Case(Expr, Items<Alternative<S>>),
    Loop(LoopHead, Items<S>),
    /// `exit`, with the condition after `when`.
    Exit(Option<Expr>),
    Return(Option<Expr>),
    Pragma(Pragma),
}

impl<S: Drop> Drop for Action<S> {
    fn drop(self) {
        match self {
            Action::Null => {}
            Action::Call(name) => drop(name),
            Action::Assign(target, value) => {
                drop(target);
                drop(value);
            }
            Action::If(branches, otherwise) => {
                drop(branches);
                drop(otherwise);
            }
            Action::Case(selector, alternatives) => {
                drop(selector);
                drop(alternatives);
            }
            Action::Loop(head, body) => {
                drop(head);
                drop(body);
            }
            Action::Exit(condition) => drop(condition),
            Action::Return(value) => drop(value),
            Action::Pragma(pragma) => drop(pragma),
        }
    }
}
