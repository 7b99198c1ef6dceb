//! Syntax trees from derivations.
#![tactic(auto)]

mod building;
mod declaration_rules;
mod expression_rules;
mod item_rules;
mod laws;
mod made;
mod name_rules;
mod rule_table;
mod rules;
mod statement_rules;
mod subprogram_rules;
mod type_rules;
mod unit_rules;
mod weave;

pub use ada_syntax::{
    Action, Alternative, Arg, ArgChoice, Arm, Aspect, Attribute, BinaryOperator, Body, Bounds,
    Branch, Choice, Component, ContextItem, Decl, DeclForm, Expr, ExprNode, Index, IndexForm, Item,
    ItemForm, LoopHead, Mode, Name, Object, Package, PackageBody, Param, Pragma, Quantifier, Range,
    SourceUnit, Stmt, Sub, SubInd, Suffix, TypeDef, TypeForm, UnaryOperator, Unit, UnitForm,
};
pub use building::build;
pub use grammar_table::Starved;
pub use laws::{has_tree, one_tree, tree_spelled};
