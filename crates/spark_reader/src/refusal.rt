//! Why a text isn't read.

ghost use Rattle.std.specs.Prelude.{◌≡◌, ◌≤◌, ℕ, List, length};
ghost use Rattle.spark_reader.specs.Reads.{Refuses, lex_place, place_of, told_place};

use ada_text::{LexFault, Starved};
use grammar_table::SyntaxFault;

/// Why a text isn't read. The first error is told, and those of its tokens come before those of the grammar.
#[derive(Clone, Copy, Debug, PartialEq, Eq)]
pub enum ReadRefusal {
    /// The first bytes that are no token, by their place in bytes from 0.
    Lex(LexFault),
    /// The first token that no file of the grammar goes on with, or that opens level 201, by its number from 0, and where it
    /// begins, in bytes from 0. The end of the text counts as a token.
    Syntax(SyntaxFault, u32),
    /// There was no memory.
    Starved,
}

/// The place of a fault of tokens.
fn lex_place(fault: LexFault) -> u32
    ensures { result ≡ lex_place fault }
{
    match fault {
        LexFault::BadByte(at) => at,
        LexFault::BadNumber(at) => at,
        LexFault::TooWide(at) => at,
        LexFault::Starved => 0,
    }
}

/// The place that a refusal tells.
fn told_place(refusal: ReadRefusal) -> u32
    ensures { result ≡ told_place refusal }
{
    match refusal {
        ReadRefusal::Lex(fault) => lex_place(fault),
        ReadRefusal::Syntax(_, at) => at,
        ReadRefusal::Starved => 0,
    }
}

impl ReadRefusal {
    /// The place of a refusal in its text, in bytes from 0: that of the byte, the number or the token, or the place after the
    /// last byte. It is 0 where there was no memory.
    pub fn place(self) -> u32
        ensures place { (text : List ℕ) → Refuses text self → result ≡ place_of text self }
        ensures within { (text : List ℕ) → Refuses text self → result ≤ length text }
    {
        told_place(self)
    }
}

impl From<Starved> for ReadRefusal {
    ghost use Rattle.std.specs.Prelude.{◌≡◌};
    ghost use Rattle.spark_reader.specs.declared.refusal.ReadRefusal.TheVariants.{Starved};

    ghost from_gives = { λ _ refusal. refusal ≡ Starved };

    fn from(_error: Starved) -> ReadRefusal {
        ReadRefusal::Starved
    }
}

impl From<LexFault> for ReadRefusal {
    ghost use Rattle.std.specs.Prelude.{◌≡◌};
    ghost use Rattle.spark_reader.specs.Reads.{of_lex};

    ghost from_gives = { λ fault refusal. refusal ≡ of_lex fault };

    fn from(fault: LexFault) -> ReadRefusal {
        match fault {
            LexFault::Starved => ReadRefusal::Starved,
            _ => ReadRefusal::Lex(fault),
        }
    }
}
