//! The rules of certificates.

/// A rule, by its code.
#[derive(Clone, Copy, Debug, PartialEq, Eq)]
pub enum Rule {
    /// Hypotheses and the negated conclusion.
    C1,
    /// Connectives and choices opened.
    C2,
    /// Propagation of unit clauses.
    C3,
    /// Sums of linear forms.
    C4,
    /// Two numbers are equal or one is less.
    C5,
    /// Instances of quantifiers.
    C6,
    /// New symbols for what a quantifier says is there.
    C7,
    /// Equals for equals.
    C8,
    /// Items and bounds of arrays.
    C9,
    /// Arrays with equal bounds and items.
    C10,
    /// Fields of records.
    C11,
    /// Division by a number.
    C12,
    /// Products of numbers that are at least 0.
    C13,
    /// Computed truth.
    C14,
}
