//! Typed programs, and what a run starts with.

use crate::expressions::Expr;
use crate::statements::Stmt;
use ada_values::{ItemList, NameText, Place, ShapeList, Value};
use sqlite_items::Items;

/// The values of variables; None where nothing was ever set.
pub type SlotList = Items<Option<Value>>;

/// The class of a type (Ada RM 3.2). An array has the number of its index subtype.
#[derive(Clone, Copy, Debug, PartialEq, Eq)]
pub enum Class {
    /// A signed integer type.
    Signed,
    Modular,
    /// An enumeration other than `Boolean`.
    Enumeration,
    Boolean,
    Array(u32),
    Record,
}

/// A subtype: its name as it was declared, None where it is anonymous, and its type.
///
/// `of` is the number of the entry that stands for the type. An integer type has an anonymous entry with its base range as
/// bounds, right before its first subtype, which stands for it and is the subtype of its operators' results. Any other
/// type's first subtype stands for it. So two subtypes are of one type exactly where these numbers are one.
#[derive(Drop)]
pub struct Type {
    pub name: Option<NameText>,
    pub of: u32,
    pub class: Class,
}

/// A variable that a package declares, by its full name, with the number of its subtype, and its initial value where it
/// has one.
#[derive(Drop)]
pub struct Global {
    pub name: NameText,
    pub subtype: u32,
    pub initial: Option<Value>,
}

/// The mode of a parameter (Ada RM 6.1).
#[derive(Clone, Copy, Debug, PartialEq, Eq)]
pub enum Mode {
    In,
    Out,
    InOut,
}

/// A formal parameter, with the number of its subtype.
#[derive(Drop)]
pub struct Param {
    pub name: NameText,
    pub mode: Mode,
    pub subtype: u32,
}

/// A local object, with the number of its subtype. Its initial value is an assignment of the subprogram's opening.
#[derive(Drop)]
pub struct Local {
    pub name: NameText,
    pub subtype: u32,
    pub constant: bool,
}

/// A `Pre` or `Post`: the place of the aspect's name, and its condition.
#[derive(Drop)]
pub struct Contract {
    pub place: Place,
    pub condition: Expr,
}

/// How a `Global` aspect lists a variable (SPARK RM 6.1.4).
#[derive(Clone, Copy, Debug, PartialEq, Eq)]
pub enum GlobalMode {
    Input,
    Output,
    InOut,
}

#[derive(Clone, Copy, Debug, PartialEq, Eq)]
pub struct GlobalItem {
    pub mode: GlobalMode,
    pub global: u32,
}

/// A stated `Global`, with the place of the aspect's name.
#[derive(Drop)]
pub struct GlobalAspect {
    pub place: Place,
    pub items: Items<GlobalItem>,
}

/// A subprogram, with the place of its name in its body.
///
/// Its locals are numbered in order of declaration. The parameters of its `for` loops, the indexes of its quantified
/// expressions and its loops are numbered in the order of their text: `Pre`, `Post`, the declarative part, the statements.
#[derive(Drop)]
pub struct Sub {
    pub name: NameText,
    pub place: Place,
    pub params: Items<Param>,
    /// The number of the result's subtype, of a function alone.
    pub result: Option<u32>,
    pub pre: Option<Contract>,
    pub post: Option<Contract>,
    pub global: Option<GlobalAspect>,
    pub locals: Items<Local>,
    /// How many parameters of `for` loops it has, how many indexes of quantified expressions, and how many loops.
    pub turns: u32,
    pub indexes: u32,
    pub loops: u32,
    /// The initial values of the local objects as assignments, and the pragmas of the declarative part, in order.
    pub opening: Items<Stmt>,
    pub body: Items<Stmt>,
}

/// A typed program.
///
/// Its subtypes are numbered: `shapes` has the values of each, and `types`, of the same length, its name and its type.
/// Globals and subprograms stand in the order of the files as they were named, then of their declarations; the first
/// declaration of a subprogram counts.
#[derive(Drop)]
pub struct Program {
    pub shapes: ShapeList,
    pub types: Items<Type>,
    pub globals: Items<Global>,
    pub subs: Items<Sub>,
}

/// What a run starts with: a value for each `in` and `in out` parameter in order, and one for each global of the
/// program in order of declaration.
#[derive(Drop)]
pub struct Inputs {
    pub params: ItemList,
    pub globals: ItemList,
}
