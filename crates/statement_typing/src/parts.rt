//! What is found of the parts of declarations, statements and programs.

use ada_text::Span;
use ada_values::{NameText, Place, Scalar, Value};
use front_codes::Refusal;
use name_library::Spot;
use sqlite_items::Items;
use type_base::{Discrete, Form, Subtype};
use typed_units::{Bounds, Choice, Contract, Expr, GlobalAspect, GlobalItem, Mode, Program};

/// What a subtype indication gives (Ada RM 3.2.2).
#[derive(Clone, Copy)]
pub enum Noted {
    /// A subtype that has an entry, by its number.
    Known(u32),
    /// One that has none yet.
    New(Subtype),
}

/// A range with static bounds: the number of the subtype that it names, or of that with the base range of its type, and its
/// bounds (Ada RM 3.6, 3.6.1).
#[derive(Clone, Copy)]
pub struct StaticRange {
    pub subtype: u32,
    pub bounds: Bounds,
}

/// The components of a record that have one subtype.
#[derive(Drop)]
pub struct Group {
    pub names: Items<Span>,
    pub subtype: Noted,
}

/// The index of an array: the number of its subtype, and the array's bounds where it has any (Ada RM 3.6).
#[derive(Clone, Copy)]
pub struct Indexes {
    pub subtype: u32,
    pub bounds: Option<Bounds>,
}

/// What the definition of a type gives (Ada RM 3.2.1).
pub enum Definition {
    /// An integer type, or a derived enumeration, by its first subtype.
    Integer(Discrete, Scalar),
    /// An enumeration, Boolean, or what is derived from a composite type.
    Single(Form),
    ArrayOf(Indexes, Noted),
    RecordOf(Items<Group>),
}

// Written out, so that crates that let a definition go need no proof of their own.
impl Drop for Definition {
    fn drop(self) {
        match self {
            Definition::RecordOf(groups) => drop(groups),
            Definition::Integer(_, _) | Definition::Single(_) | Definition::ArrayOf(_, _) => {}
        }
    }
}

/// Parameters of one mode and one subtype (Ada RM 6.1).
#[derive(Drop)]
pub struct Formals {
    pub names: Items<Span>,
    pub mode: Mode,
    pub subtype: u32,
}

/// A profile, with the number of a function's result subtype (Ada RM 6.1).
#[derive(Drop)]
pub struct Profile {
    pub formals: Items<Formals>,
    pub result: Option<u32>,
}

/// A global that is listed, with the place of its name (SPARK RM 6.1.4).
#[derive(Clone, Copy)]
pub struct Listed {
    pub place: Place,
    pub item: GlobalItem,
}

/// What an aspect states (Ada RM 6.1.1, SPARK RM 6.1.4).
pub enum Stated {
    Pre(Contract),
    Post(Contract),
    Global(GlobalAspect),
    /// One that is no contract.
    Nothing,
}

// Written out, so that crates that let an aspect go need no proof of their own.
impl Drop for Stated {
    fn drop(self) {
        match self {
            Stated::Pre(contract) | Stated::Post(contract) => drop(contract),
            Stated::Global(aspect) => drop(aspect),
            Stated::Nothing => {}
        }
    }
}

/// What an association of a static aggregate gives: the components in its ranges, or those of `others`, and their value.
#[derive(Drop)]
pub struct Share {
    pub ranges: Items<Bounds>,
    pub others: bool,
    pub value: Value,
}

/// The selector of a `case`: the numbers of its type and of its subtype, and itself (Ada RM 5.4).
#[derive(Drop)]
pub struct Selected {
    pub of: u32,
    pub subtype: u32,
    pub value: Expr,
}

/// A choice of a `case` that isn't `others`: its place, and its values (Ada RM 3.8.1).
#[derive(Clone, Copy)]
pub struct Spread {
    pub place: Place,
    pub choice: Choice,
    pub values: Bounds,
}

/// A variable of a package: its declaring identifier, and its full name.
#[derive(Drop)]
pub struct Variable {
    pub spot: Spot,
    pub name: NameText,
}

/// What the rules of types answer to a program.
#[derive(Drop)]
pub enum Answer {
    /// The first of the rules that it breaks.
    Refused(Refusal),
    /// The program, typed.
    Typed(Program),
}
