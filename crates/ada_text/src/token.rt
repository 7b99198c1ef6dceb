//! Tokens, and why a text has none.

ghost use Rattle.std.specs.Prelude.{◌≡◌};

use crate::delimiters::Delimiter;
use crate::reserved::Reserved;
use sqlite_items::Items;
pub use std::alloc::AllocError as Starved;

/// The bytes of a text from one place up to another, in bytes from 0.
#[derive(Clone, Copy, Debug, PartialEq, Eq)]
pub struct Span {
    /// The first byte.
    pub from: u32,
    /// The byte after the last one.
    pub to: u32,
}

/// What a token is.
#[derive(Clone, Copy, Debug, PartialEq, Eq)]
pub enum TokenKind {
    /// An identifier.
    Id,
    /// A reserved word.
    Word(Reserved),
    /// A number from 0 to 2^127 - 1.
    Number(i128),
    /// A delimiter.
    Mark(Delimiter),
}

/// A token, whose text is the bytes of its span.
#[derive(Clone, Copy, Debug, PartialEq, Eq)]
pub struct Token {
    pub kind: TokenKind,
    pub span: Span,
}

/// Tokens in the order of the text.
pub type TokenList = Items<Token>;

/// Why a text has no tokens, with the place of the first fault in bytes from 0.
#[derive(Clone, Copy, Debug, PartialEq, Eq)]
pub enum LexFault {
    /// A byte that begins no token.
    BadByte(u32),
    /// The first byte of what begins as a number and is none.
    BadNumber(u32),
    /// The first byte of a number above 2^127 - 1.
    TooWide(u32),
    /// Memory was refused.
    Starved,
}

impl From<Starved> for LexFault {
    ghost use Rattle.ada_text.specs.declared.token.LexFault.TheVariants.{Starved};

    ghost from_gives = { λ _ fault. fault ≡ Starved };

    fn from(_error: Starved) -> LexFault {
        LexFault::Starved
    }
}
