//! What a name stands for, and the rules that a name breaks.

/// A place of an identifier or of another token: its file's number from 0, and its first byte, from 0.
#[derive(Clone, Copy)]
pub struct Spot {
    pub file: u32,
    pub at: u32,
}

/// What an identifier stands for.
#[derive(Clone, Copy)]
pub enum Link {
    /// What the identifier at this place declares. Of two spellings of one declaration it is the first.
    Declared(Spot),
    /// A name of package Standard, by its number.
    Predefined(u32),
}

/// An identifier that is used, by its place, and what it stands for.
#[derive(Clone, Copy)]
pub struct Usage {
    pub spot: Spot,
    pub link: Link,
}

/// The rules of names. Of two that are broken at one place the one that stands first here is told.
#[derive(Clone, Copy)]
pub enum NameFault {
    /// A name that stands for no declaration before it, or a body without its declaration.
    UnknownName,
    /// A name that stands for two declarations.
    AmbiguousName,
    /// A second declaration of a name in its scope, or a second unit of a name.
    Duplicate,
    /// A second declaration as before, where both are subprograms or one is an enumeration literal.
    Overloaded,
    /// A with clause on a circle.
    WithCycle,
    /// A declaration without its body.
    MissingBody,
    /// A body that differs from its declaration, or a name after `end` that differs.
    SpecMismatch,
    /// What the profile leaves out.
    LeftOut,
}

/// A rule that is broken, and where.
#[derive(Clone, Copy)]
pub struct Fault {
    pub rule: NameFault,
    pub spot: Spot,
}
