//! The kinds of cases, by the words that they take.

use case_lines::named;

/// What is asked of a term.
#[derive(Clone, Copy)]
pub enum TermKind {
    Text,
    Copy,
    Form,
    Tighten,
}

/// What is asked of a formula.
#[derive(Clone, Copy)]
pub enum FormulaKind {
    Text,
    Copy,
    Constant,
    Nameless,
    Truth,
    Negate,
}

/// What is asked of two numbers.
#[derive(Clone, Copy)]
pub enum NumbersKind {
    Divisor,
    Floor,
}

/// What is asked.
#[derive(Clone, Copy)]
pub enum Kind {
    /// Of a term.
    Term(TermKind),
    /// Of a formula.
    Formula(FormulaKind),
    /// The text of a sort.
    Sort,
    /// A copy of a sort.
    SortCopy,
    /// Which of two terms has the lesser text.
    Precedes,
    /// Whether two terms are the same.
    SameTerm,
    /// Whether two formulas are the same.
    SameFormula,
    /// Whether two sorts are the same.
    SameSort,
    /// A formula with a term for its outermost variable.
    Put,
    /// The same of a formula under other levels.
    PutUnder,
    /// The negation of a formula under other levels.
    NegateUnder,
    /// The number at the start of a text.
    Number,
    /// The word at the start of a text.
    Word,
    /// A scaled sum of two forms.
    AddScaled,
    /// Of two numbers.
    Numbers(NumbersKind),
    /// What the linear machine finds.
    Decide,
}

const KINDS: [(&str, Kind); 25] = [
    ("term", Kind::Term(TermKind::Text)),
    ("copy_term", Kind::Term(TermKind::Copy)),
    ("form", Kind::Term(TermKind::Form)),
    ("tighten", Kind::Term(TermKind::Tighten)),
    ("formula", Kind::Formula(FormulaKind::Text)),
    ("copy_formula", Kind::Formula(FormulaKind::Copy)),
    ("constant", Kind::Formula(FormulaKind::Constant)),
    ("nameless", Kind::Formula(FormulaKind::Nameless)),
    ("truth", Kind::Formula(FormulaKind::Truth)),
    ("negate", Kind::Formula(FormulaKind::Negate)),
    ("sort", Kind::Sort),
    ("copy_sort", Kind::SortCopy),
    ("precedes", Kind::Precedes),
    ("same_term", Kind::SameTerm),
    ("same_formula", Kind::SameFormula),
    ("same_sort", Kind::SameSort),
    ("put", Kind::Put),
    ("put_under", Kind::PutUnder),
    ("negate_under", Kind::NegateUnder),
    ("number", Kind::Number),
    ("word", Kind::Word),
    ("add_scaled", Kind::AddScaled),
    ("gcd", Kind::Numbers(NumbersKind::Divisor)),
    ("floor", Kind::Numbers(NumbersKind::Floor)),
    ("decide", Kind::Decide),
];

/// The kind of this name.
pub fn kind_of(word: &[u8]) -> Option<Kind> {
    named(&KINDS, word)
}
