//! Objects, bounds and the operators of expressions.

/// An object that a subprogram may name, by its number among its kind.
#[derive(Clone, Copy, Debug, PartialEq, Eq)]
pub enum Object {
    /// A parameter of the subprogram, in order.
    Param(u32),
    /// A local object of the subprogram, in order of declaration.
    Local(u32),
    /// A variable of a package, in order of declaration over the program.
    Global(u32),
    /// The parameter of a `for` loop, by its number in the subprogram.
    Turn(u32),
    /// The index of a quantified expression, by its number in the subprogram.
    Index(u32),
}

/// The parameter of a `for` loop, or the index of a quantified expression: its number in the subprogram, and that of its
/// subtype.
#[derive(Clone, Copy, Debug, PartialEq, Eq)]
pub struct Counted {
    pub number: u32,
    pub subtype: u32,
}

/// The numbers from `first` to `last`; none where `last` is the smaller.
#[derive(Clone, Copy, Debug, PartialEq, Eq)]
pub struct Bounds {
    pub first: i128,
    pub last: i128,
}

/// A relational operator (Ada RM 4.5.2): `=`, `/=`, `<`, `<=`, `>` and `>=`.
#[derive(Clone, Copy, Debug, PartialEq, Eq)]
pub enum Relation {
    Equal,
    Differs,
    Less,
    AtMost,
    Greater,
    AtLeast,
}

/// A logical operator or a short-circuit control form (Ada RM 4.5.1).
#[derive(Clone, Copy, Debug, PartialEq, Eq)]
pub enum Connective {
    And,
    Or,
    Xor,
    AndThen,
    OrElse,
}

/// `for all` or `for some` (Ada RM 4.5.8).
#[derive(Clone, Copy, Debug, PartialEq, Eq)]
pub enum Quantifier {
    All,
    Some,
}

/// What an aggregate gives: an array, or a record whose components are numbered from 0 (Ada RM 4.3).
#[derive(Clone, Copy, Debug, PartialEq, Eq)]
pub enum Composite {
    Array,
    Record,
}
