//! What a walk over a file's tree tells of its names, in the order of the text.

/// An identifier: the number of its name, and its first byte in its file, from 0.
///
/// Two identifiers of a program have one number exactly where their texts are the same without regard to case (Ada RM 2.3).
/// The numbers from 0 to 28 are those of the names of package Standard (Ada RM A.1), and the first seven of these are in the
/// profile: `Boolean`, `False`, `True`, `Integer`, `Natural`, `Positive`, `Long_Long_Integer`.
#[derive(Clone, Copy)]
pub struct Ident {
    pub name: u32,
    pub at: u32,
}

/// What is declared inside a scope. Packages and subprograms are declared as their scopes open.
#[derive(Clone, Copy)]
pub enum Kind {
    /// A variable or a constant.
    Object,
    NamedNumber,
    Type,
    Subtype,
    /// An enumeration literal.
    Literal,
    Parameter,
    LoopParameter,
    /// The index of a quantified expression.
    Index,
    /// A component of a record.
    Component,
}

/// The mode of parameters (Ada RM 6.1). One that isn't written is `In`.
#[derive(Clone, Copy)]
pub enum Mode {
    In,
    Out,
    InOut,
}

/// What opens a scope, which is a declarative region (Ada RM 8.1).
#[derive(Clone, Copy)]
pub enum Scope {
    /// The declaration of a package.
    Package(Ident),
    PackageBody(Ident),
    /// A subprogram, with true for a body and false for a declaration alone.
    Subprogram(Ident, bool),
    /// A record's definition.
    Record,
    /// A loop with a parameter.
    Loop,
    /// A quantified expression.
    Quantified,
}

/// How a name is used.
#[derive(Clone, Copy)]
pub enum Manner {
    /// It must stand for something.
    Plain,
    /// As `Plain`, in an aspect of a subprogram.
    Aspect,
    /// The identifier alone is the choice of an aggregate. It may stand for something, and it may name a component.
    Choice,
}

/// What the text tells of names.
#[derive(Clone, Copy)]
pub enum Event {
    /// A name of a with clause (Ada RM 10.1.2).
    With(Ident),
    /// A name of a use clause before the unit (Ada RM 10.1.6).
    ContextUse(Ident),
    /// A name of a use clause among declarations (Ada RM 8.4).
    Use(Ident),
    Opens(Scope),
    /// The innermost scope closes. That of a package stays open to the end of its file.
    Closes,
    /// A declaration list of a package ends: its visible part, its private part or its body's declarations.
    ListEnds,
    /// An identifier is declared in the innermost scope. It is hidden until its declaration ends.
    Declares(Kind, Ident),
    /// The declaration of the identifiers ends, and they are visible from here on.
    DeclarationEnds,
    /// Parameters and their subtype's name end.
    ParametersEnd(Mode),
    /// The name of a function's result ends.
    ResultEnds,
    /// A subprogram's profile ends, and the subprogram is visible from here on.
    ProfileEnds,
    /// A name begins.
    Name(Ident, Manner),
    /// The identifier after a point, where the part before is identifiers and points alone. It follows that part directly.
    Selects(Ident),
    /// The name after an `end`.
    EndName(Ident),
    /// A construct that the profile leaves out, by the first byte of its first token.
    LeftOut(u32),
}
