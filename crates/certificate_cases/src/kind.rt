//! The kinds of cases.

use case_lines::named;

/// What is asked of a goal's text.
#[derive(Clone, Copy)]
pub enum GoalKind {
    Text,
    Copy,
    Roles,
}

/// What is asked of a term or a formula, and a number of new symbols.
#[derive(Clone, Copy)]
pub enum SortKind {
    Sort,
    Number,
    Formula,
}

/// What is asked.
#[derive(Clone, Copy)]
pub enum Kind {
    /// The goal of the cases that follow.
    With,
    /// Of a goal.
    Goal(GoalKind),
    /// The text of a certificate.
    Cert,
    /// What the checker says of a certificate.
    Check,
    /// Whether a line is allowed.
    Line,
    /// The clause of a line.
    Clause,
    /// Of the sort of a term or a formula.
    Sort(SortKind),
    /// Whether a line follows from clauses.
    Follows,
}

const KINDS: [(&str, Kind); 12] = [
    ("with", Kind::With),
    ("goal", Kind::Goal(GoalKind::Text)),
    ("copy", Kind::Goal(GoalKind::Copy)),
    ("roles", Kind::Goal(GoalKind::Roles)),
    ("cert", Kind::Cert),
    ("check", Kind::Check),
    ("line", Kind::Line),
    ("clause", Kind::Clause),
    ("sort", Kind::Sort(SortKind::Sort)),
    ("number", Kind::Sort(SortKind::Number)),
    ("formula", Kind::Sort(SortKind::Formula)),
    ("follows", Kind::Follows),
];

/// The kind of this name.
pub fn kind_of(word: &[u8]) -> Option<Kind> {
    named(&KINDS, word)
}
