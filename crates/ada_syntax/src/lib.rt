//! Syntax trees of Ada units, as they are written.
#![tactic(auto)]

mod declarations;
mod expressions;
mod statements;
mod units;

pub use declarations::{
    Aspect, Body, Bounds, Component, Decl, DeclForm, Index, IndexForm, Mode, Object, Param, Sub,
    SubInd, TypeDef, TypeForm,
};
pub use expressions::{
    Arg, ArgChoice, Arm, Attribute, BinaryOperator, Expr, ExprNode, Item, ItemForm, Name,
    Quantifier, Range, Suffix, UnaryOperator,
};
pub use statements::{Action, Alternative, Branch, Choice, LoopHead, Pragma, Stmt};
pub use units::{ContextItem, Package, PackageBody, SourceUnit, Unit, UnitForm};
