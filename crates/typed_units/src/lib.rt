//! Typed programs: expressions, statements, subprograms, and what a run takes and leaves.
#![tactic(auto)]

mod checks;
mod expressions;
mod operators;
mod programs;
mod statements;

pub use checks::{CheckKind, SiteKey, laws_of_sites, same_site};
pub use expressions::{
    Actual, Argument, Arm, Association, Expr, ExprNode, Fitted, Indexed, Step, Target,
};
pub use operators::{Bounds, Composite, Connective, Counted, Object, Quantifier, Relation};
pub use programs::{
    Class, Contract, Global, GlobalAspect, GlobalItem, GlobalMode, Inputs, Local, Mode, Param,
    Program, SlotList, Sub, Type,
};
pub use statements::{
    Action, Alternative, Branch, Choice, Demand, Direction, Head, LoopParts, Stmt, Way,
};
