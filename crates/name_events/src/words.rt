//! Where declarations stand, and what the words of pragmas and aspects are.

ghost use Rattle.std.specs.Prelude.{◌≡◌};
ghost use Rattle.name_events.specs.Asked.{is_check, is_on, is_private, is_subprogram, pragma_kind};
ghost use Rattle.name_events.specs.Declarations.{is_mode, within_aspect};

use name_numbers::Word;
use name_uses::Within;

/// Where declarations stand.
#[derive(Clone, Copy)]
pub(crate) enum Region {
    /// In the visible part of a package, with the number of the package's name.
    Visible(u32),
    Private,
    /// In a package's body, or before a unit.
    Body,
    Subprogram,
}

/// What a pragma is for.
#[derive(Clone, Copy)]
pub(crate) enum PragmaKind {
    /// `SPARK_Mode`.
    Mode,
    /// `Pure` and `Preelaborate` (Ada RM 10.2.1).
    Category,
    /// `Assert`, `Assume`, `Loop_Invariant` and `Loop_Variant`.
    Check,
    Other,
}

pub(crate) fn is_private(region: Region) -> bool
    ensures { result ≡ is_private region }
{
    matches!(region, Region::Private)
}

pub(crate) fn is_subprogram(region: Region) -> bool
    ensures { result ≡ is_subprogram region }
{
    matches!(region, Region::Subprogram)
}

pub(crate) fn is_check(kind: PragmaKind) -> bool
    ensures { result ≡ is_check kind }
{
    matches!(kind, PragmaKind::Check)
}

pub(crate) fn is_on(word: Option<Word>) -> bool
    ensures { result ≡ is_on word }
{
    matches!(word, Some(Word::On))
}

pub(crate) fn is_mode(word: Option<Word>) -> bool
    ensures { result ≡ is_mode word }
{
    matches!(word, Some(Word::SparkMode))
}

pub(crate) fn pragma_kind(word: Option<Word>) -> PragmaKind
    ensures { result ≡ pragma_kind word }
{
    match word {
        Some(Word::SparkMode) => PragmaKind::Mode,
        Some(Word::Pure | Word::Preelaborate) => PragmaKind::Category,
        Some(Word::Assert | Word::Assume | Word::LoopInvariant | Word::LoopVariant) => {
            PragmaKind::Check
        }
        _ => PragmaKind::Other,
    }
}

/// Where the value of an aspect stands that has an expression or names.
pub(crate) fn within_aspect(word: Option<Word>) -> Option<Within>
    ensures { result ≡ within_aspect word }
{
    match word {
        Some(Word::Pre | Word::Post) => Some(Within::Contract),
        Some(Word::Global) => Some(Within::Global),
        _ => None,
    }
}
