//! What a name's form tells of its type without a context.

/// What a name is so far, as far as the names in it tell.
#[derive(Clone, Copy)]
pub enum Hint {
    Nothing,
    /// The subtype of this number.
    Subtype(u32),
    /// The subprogram of this number.
    Routine(u32),
    /// A value of the subtype of this number.
    Value(u32),
    /// An attribute that gives a value of the subtype of this number, before its argument.
    Function(u32),
}
