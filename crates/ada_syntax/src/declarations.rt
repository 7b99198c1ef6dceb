//! Declarations (Ada RM 3, 6 and 13.1.1), as they are written.

use crate::expressions::{Expr, Item, Name};
use crate::statements::{Pragma, Stmt};
use ada_text::Span;
use sqlite_items::{Boxed, Items};

/// Two bounds, the text between which is `..`.
pub struct Bounds {
    pub low: Expr,
    pub high: Expr,
}

impl Drop for Bounds {
    fn drop(self) {
        let Bounds { low, high } = self;
        drop(low);
        drop(high);
    }
}

/// A subtype's name, with its constraint where there is one (Ada RM 3.2.2).
pub struct SubInd {
    pub span: Span,
    pub name: Name<Expr>,
    pub bounds: Option<Bounds>,
}

impl Drop for SubInd {
    fn drop(self) {
        let SubInd {
            span: _,
            name,
            bounds,
        } = self;
        drop(name);
        drop(bounds);
    }
}

/// What follows the first expression of an array's index.
pub enum IndexForm {
    /// Nothing: the expression names a range or a subtype.
    Alone,
    /// `..` and the upper bound, to which the expression is the lower one.
    UpTo(Expr),
    /// `range <>`.
    Unconstrained,
    /// `range` and two bounds.
    Within(Bounds),
}

impl Drop for IndexForm {
    fn drop(self) {
        match self {
            IndexForm::Alone => {}
            IndexForm::UpTo(high) => drop(high),
            IndexForm::Unconstrained => {}
            IndexForm::Within(bounds) => drop(bounds),
        }
    }
}

/// The index of an array type (Ada RM 3.6).
pub struct Index {
    pub first: Expr,
    pub form: IndexForm,
}

impl Drop for Index {
    fn drop(self) {
        let Index { first, form } = self;
        drop(first);
        drop(form);
    }
}

/// Components of a record type (Ada RM 3.8), of which there is one name or more.
pub struct Component {
    pub span: Span,
    pub names: Items<Span>,
    pub subtype: SubInd,
}

impl Drop for Component {
    fn drop(self) {
        let Component {
            span: _,
            names,
            subtype,
        } = self;
        drop(names);
        drop(subtype);
    }
}

/// A type's definition.
pub struct TypeDef {
    pub span: Span,
    pub form: Boxed<TypeForm>,
}

impl Drop for TypeDef {
    fn drop(self) {
        let TypeDef { span: _, form } = self;
        drop(form);
    }
}

/// The forms of a type's definition.
pub enum TypeForm {
    /// A signed integer type (Ada RM 3.5.4).
    Range(Bounds),
    /// A modular type (Ada RM 3.5.4).
    Modular(Expr),
    /// An enumeration type, with its literals (Ada RM 3.5.1).
    Enumeration(Items<Span>),
    /// An array type, with its index and its component subtype (Ada RM 3.6).
    Array(Index, SubInd),
    /// A record type (Ada RM 3.8).
    Record(Items<Component>),
    /// A derived type (Ada RM 3.4).
    Derived(SubInd),
}

impl Drop for TypeForm {
    fn drop(self) {
        match self {
            TypeForm::Range(bounds) => drop(bounds),
            TypeForm::Modular(modulus) => drop(modulus),
            TypeForm::Enumeration(literals) => drop(literals),
            TypeForm::Array(index, items) => {
                drop(index);
                drop(items);
            }
            TypeForm::Record(components) => drop(components),
            TypeForm::Derived(parent) => drop(parent),
        }
    }
}

/// What is declared of an object or a named number, after the colon (Ada RM 3.3). A named number has no subtype.
pub struct Object {
    pub constant: bool,
    pub subtype: Option<SubInd>,
    pub value: Option<Expr>,
}

impl Drop for Object {
    fn drop(self) {
        let Object {
            constant: _,
            subtype,
            value,
        } = self;
        drop(subtype);
        drop(value);
    }
}

/// The mode of a parameter (Ada RM 6.1).
#[derive(Clone, Copy, Debug, PartialEq, Eq)]
pub enum Mode {
    /// No mode is written, which means `in`.
    Unstated,
    In,
    Out,
    InOut,
}

/// Formal parameters (Ada RM 6.1), of which there is one name or more.
pub struct Param {
    pub span: Span,
    pub names: Items<Span>,
    pub mode: Mode,
    pub subtype: SubInd,
}

impl Drop for Param {
    fn drop(self) {
        let Param {
            span: _,
            names,
            mode: _,
            subtype,
        } = self;
        drop(names);
        drop(subtype);
    }
}

/// An aspect, with its name and the value after `=>` (Ada RM 13.1.1).
pub struct Aspect {
    pub span: Span,
    pub name: Span,
    pub value: Option<Item<Expr>>,
}

impl Drop for Aspect {
    fn drop(self) {
        let Aspect {
            span: _,
            name: _,
            value,
        } = self;
        drop(value);
    }
}

/// The declarations and statements of a subprogram's body, and the name after its `end`.
pub struct Body<D> {
    pub declarations: Items<D>,
    pub statements: Items<Stmt>,
    pub end_name: Option<Span>,
}

impl<D: Drop> Drop for Body<D> {
    fn drop(self) {
        let Body {
            declarations,
            statements,
            end_name: _,
        } = self;
        drop(declarations);
        drop(statements);
    }
}

/// A subprogram's declaration or body (Ada RM 6.1, 6.3). A function has a result, and a procedure has none.
pub struct Sub<D> {
    pub span: Span,
    pub name: Span,
    pub params: Items<Param>,
    pub result: Option<Name<Expr>>,
    pub aspects: Items<Aspect>,
    pub body: Option<Body<D>>,
}

impl<D: Drop> Drop for Sub<D> {
    fn drop(self) {
        let Sub {
            span: _,
            name: _,
            params,
            result,
            aspects,
            body,
        } = self;
        drop(params);
        drop(result);
        drop(aspects);
        drop(body);
    }
}

/// A declaration.
pub struct Decl {
    pub span: Span,
    pub form: Boxed<DeclForm<Decl>>,
}

impl Drop for Decl {
    fn drop(self) {
        let Decl { span: _, form } = self;
        drop(form);
    }
}

/// The forms of a declaration over declarations, which have the type `D`.
pub enum DeclForm<D> {
    /// A type's name and definition.
    Type(Span, TypeDef),
    /// A subtype's name, and what it is a subtype of.
    Subtype(Span, SubInd),
    /// One name or more of objects.
    Object(Items<Span>, Object),
    Sub(Sub<D>),
    Pragma(Pragma),
    /// A use clause, with one name or more (Ada RM 8.4).
    Use(Items<Span>),
}

impl<D: Drop> Drop for DeclForm<D> {
    fn drop(self) {
        match self {
            DeclForm::Type(_, definition) => drop(definition),
            DeclForm::Subtype(_, subtype) => drop(subtype),
            DeclForm::Object(names, object) => {
                drop(names);
                drop(object);
            }
            DeclForm::Sub(sub) => drop(sub),
            DeclForm::Pragma(pragma) => drop(pragma),
            DeclForm::Use(names) => drop(names),
        }
    }
}
