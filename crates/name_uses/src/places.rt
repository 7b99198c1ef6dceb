//! Where parts of an expression stand, and what lists of identifiers do.

ghost use Rattle.std.specs.Prelude.{◌≡◌};
ghost use Rattle.name_uses.specs.Asked.{is_attribute};
ghost use Rattle.name_uses.specs.Told.{mention};
ghost use Rattle.name_uses.specs.Uses.{group_in, is_global, manner_of};

use name_library::{Event, Ident, Kind, Manner};
use name_numbers::Word;

/// Where an expression stands.
#[derive(Clone, Copy)]
pub enum Within {
    /// In declarations and statements.
    Text,
    /// In a `Pre` or a `Post`.
    Contract,
    /// In a `Global`, where `null` and modes may stand (SPARK RM 6.1.4).
    Global,
}

/// What parentheses with several parts are.
#[derive(Clone, Copy)]
pub enum Brackets {
    /// An aggregate, or the operand of a qualification: an identifier alone before `=>` may be a component.
    Aggregate,
    /// Arguments: an identifier alone before `=>` is a formal's name.
    AfterName,
}

/// What a list of identifiers does.
#[derive(Clone, Copy)]
pub enum Listed {
    With,
    ContextUse,
    Use,
    Declared(Kind),
}

pub(crate) fn manner_of(within: Within) -> Manner
    ensures { result ≡ manner_of within }
{
    match within {
        Within::Text => Manner::Plain,
        Within::Contract | Within::Global => Manner::Aspect,
    }
}

pub(crate) fn is_global(within: Within) -> bool
    ensures { result ≡ is_global within }
{
    match within {
        Within::Text | Within::Contract => false,
        Within::Global => true,
    }
}

pub(crate) fn group_in(within: Within) -> Brackets
    ensures { result ≡ group_in within }
{
    match within {
        Within::Text | Within::Contract => Brackets::Aggregate,
        Within::Global => Brackets::AfterName,
    }
}

pub(crate) fn mention(listed: Listed, ident: Ident) -> Event
    ensures { result ≡ mention listed ident }
{
    match listed {
        Listed::With => Event::With(ident),
        Listed::ContextUse => Event::ContextUse(ident),
        Listed::Use => Event::Use(ident),
        Listed::Declared(kind) => Event::Declares(kind, ident),
    }
}

/// Whether a word is an attribute of the profile. `Range` is a reserved word.
pub(crate) fn is_attribute(word: Option<Word>) -> bool
    ensures { result ≡ is_attribute word }
{
    match word {
        Some(
            Word::First
            | Word::Last
            | Word::Length
            | Word::Succ
            | Word::Pred
            | Word::Pos
            | Word::Val
            | Word::Old
            | Word::Result
            | Word::LoopEntry,
        ) => true,
        _ => false,
    }
}
