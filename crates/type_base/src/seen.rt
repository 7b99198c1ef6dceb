//! What is seen of an expression.

use ada_values::Op;
use front_codes::Refusal;
use name_library::Spot;
use typed_units::{Connective, Expr, Object, Relation};

/// What the context of an expression gives it.
#[derive(Clone, Copy)]
pub enum Want {
    Free,
    /// A subtype whose declaration is refused, so that nothing is known of it.
    Unknown,
    /// The type of this number: that of an operand beside another.
    Type(u32),
    /// The subtype of this number, for its constraint too: that of a target, a formal, a result, a component, an item or a
    /// qualification.
    Subtype(u32),
}

/// What is demanded of an operand's type.
#[derive(Clone, Copy)]
pub enum Demand {
    Any,
    /// An integer type.
    Integer,
    /// An integer or enumeration type.
    Ordered,
    /// Any type, and of arrays a constrained subtype.
    Comparable,
    /// Boolean.
    Truth,
}

/// What attributes may stand where an expression stands (Ada RM 6.1.1, SPARK RM 5.5.3).
#[derive(Clone, Copy)]
pub enum Moment {
    /// A postcondition.
    InPost,
    /// A pragma in the body of the loop of this number, with the number of its parameter where it is a `for` loop.
    InLoop(u32, Option<u32>),
    Elsewhere,
}

/// The parameter of a `for` loop (Ada RM 5.5), or the index of a quantified expression (Ada RM 4.5.8): the place of its
/// identifier, the number of its subtype, and the object that it is.
#[derive(Clone, Copy)]
pub struct Parameter {
    pub spot: Spot,
    pub subtype: u32,
    pub object: Object,
}

/// The families of operators of two operands (Ada RM 4.5).
#[derive(Clone, Copy)]
pub enum Family {
    Arithmetic(Op),
    Compare(Relation),
    Connect(Connective),
    /// `**`.
    Power,
}

/// What is seen of an expression.
#[derive(Drop)]
pub enum Seen {
    /// A rule is broken in it; the first such.
    Refused(Refusal),
    /// It has no type, since a declaration that it names is refused.
    Unknown,
    /// A universal number (Ada RM 4.9).
    Number(i128),
    /// An expression of the type of this number.
    Typed(u32, Expr),
}

/// What is seen of two operands that are to have one type.
#[derive(Drop)]
pub enum Agreed {
    Refused(Refusal),
    Unknown,
    Numbers(i128, i128),
    /// Two expressions of the type of this number; under `**` it is that of the former.
    Typed(u32, Expr, Expr),
}
