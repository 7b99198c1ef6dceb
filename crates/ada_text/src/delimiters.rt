//! The delimiters (Ada RM 2.2).

/// A delimiter.
#[derive(Clone, Copy, Debug, PartialEq, Eq)]
pub enum Delimiter {
    /// `=>`
    Arrow,
    /// `..`
    DoubleDot,
    /// `**`
    DoubleStar,
    /// `:=`
    Assign,
    /// `/=`
    NotEqual,
    /// `>=`
    AtLeast,
    /// `<=`
    AtMost,
    /// `<>`
    Diamond,
    /// `(`
    Open,
    /// `)`
    Close,
    /// `,`
    Comma,
    /// `;`
    Semicolon,
    /// `:`
    Colon,
    /// `.`
    Dot,
    /// `'`
    Tick,
    /// `+`
    Plus,
    /// `-`
    Minus,
    /// `*`
    Star,
    /// `/`
    Slash,
    /// `=`
    Equal,
    /// `<`
    Less,
    /// `>`
    Greater,
    /// `|`
    Bar,
}

/// The delimiters of two bytes.
pub static PAIRS: [(u8, u8, Delimiter); 8] = [
    (b'=', b'>', Delimiter::Arrow),
    (b'.', b'.', Delimiter::DoubleDot),
    (b'*', b'*', Delimiter::DoubleStar),
    (b':', b'=', Delimiter::Assign),
    (b'/', b'=', Delimiter::NotEqual),
    (b'>', b'=', Delimiter::AtLeast),
    (b'<', b'=', Delimiter::AtMost),
    (b'<', b'>', Delimiter::Diamond),
];

/// The delimiters of one byte.
pub static SINGLES: [(u8, Delimiter); 15] = [
    (b'(', Delimiter::Open),
    (b')', Delimiter::Close),
    (b',', Delimiter::Comma),
    (b';', Delimiter::Semicolon),
    (b':', Delimiter::Colon),
    (b'.', Delimiter::Dot),
    (b'\'', Delimiter::Tick),
    (b'+', Delimiter::Plus),
    (b'-', Delimiter::Minus),
    (b'*', Delimiter::Star),
    (b'/', Delimiter::Slash),
    (b'=', Delimiter::Equal),
    (b'<', Delimiter::Less),
    (b'>', Delimiter::Greater),
    (b'|', Delimiter::Bar),
];
