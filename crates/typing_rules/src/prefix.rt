//! What names and ranges are while they are read (Ada RM 3.5, 4.1).

use ada_values::Place;
use front_codes::Refusal;
use sqlite_items::Items;
use type_base::{Access, Seen};
use typed_units::{Argument, Expr, Target};

/// What is found where something is read that has parts.
#[derive(Drop)]
pub enum Found<T> {
    /// A rule is broken in it; the first such.
    Refused(Refusal),
    /// Nothing can be said of it, since a declaration that it names is refused.
    Unknown,
    Is(T),
}

/// An attribute that is a function (Ada RM 3.5, 3.5.5).
#[derive(Clone, Copy)]
pub enum Mapping {
    Succ,
    Pred,
    Pos,
    Val,
}

/// A range: the number of the subtype that it names, or of that with the base range of its type, and its bounds.
#[derive(Drop)]
pub struct Between {
    pub subtype: u32,
    pub low: Expr,
    pub high: Expr,
}

/// What a range is before its context is looked at.
#[derive(Drop)]
pub enum Reach {
    Refused(Refusal),
    Unknown,
    /// Two universal numbers.
    Numbers(i128, i128),
    Between(Between),
}

/// An object or a part of it: whether it may be written, the numbers of the object's and of the part's subtype, and where it is.
#[derive(Drop)]
pub struct Part {
    pub access: Access,
    pub whole: u32,
    pub subtype: u32,
    pub target: Target<Expr>,
}

/// What a name is so far, before the next of its suffixes.
#[derive(Drop)]
pub enum Prefix {
    Package,
    /// The subtype of this number.
    Subtype(u32),
    /// The subprogram of this number, without arguments.
    Routine(u32),
    /// A procedure's call: its number and its arguments.
    Called(u32, Found<Items<Argument<Expr>>>),
    /// An attribute of the subtype of this number, with the place of its tick, before its argument.
    Mapping(Mapping, Place, u32),
    /// `'Range`, with the number of the index's type.
    Range(Between),
    /// A constant whose value is known, with the number of its type.
    Constant(u32, Expr),
    /// An object or a part of it.
    Part(Part),
    /// Any other value.
    Value(Seen),
}

/// A procedure's call: its number, and its arguments in the order of the text.
#[derive(Drop)]
pub struct Call {
    pub routine: u32,
    pub arguments: Items<Argument<Expr>>,
}
