//! What a derivation is, and why a token list has none.

ghost use Rattle.std.specs.Prelude.{◌≡◌};

use sqlite_items::Items;
pub use std::alloc::AllocError as Starved;

/// Numbers of productions.
pub type NumberList = Items<u8>;

/// A derivation: the productions that replace the leftmost phrase, one after another, by their number from 0.
#[derive(Debug, Drop)]
pub struct Derivation {
    pub productions: NumberList,
}

/// Why a token list has no derivation. Tokens count from 0.
#[derive(Clone, Copy, Debug, PartialEq, Eq)]
pub enum SyntaxFault {
    /// The first token after which nothing that can be derived goes on so. The end counts as a token.
    Unexpected(u32),
    /// The token that opens level 201.
    TooDeep(u32),
    /// Memory was refused.
    Starved,
}

impl From<Starved> for SyntaxFault {
    ghost use Rattle.grammar_table.specs.declared.answers.SyntaxFault.TheVariants.{Starved};

    ghost from_gives = { λ _ fault. fault ≡ Starved };

    fn from(_error: Starved) -> SyntaxFault {
        SyntaxFault::Starved
    }
}
