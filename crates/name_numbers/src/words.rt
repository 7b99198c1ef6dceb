//! The names that are known before any text is read.

ghost use Rattle.std.specs.Prelude.{◌≡◌, map};
ghost use Rattle.name_numbers.specs.Numbers.{word_at, word_of};

/// The names of package Standard (Ada RM A.1), in lower case: the numbers from 0 to 28. The first seven are in the profile.
pub static STANDARD_NAMES: [&[u8]; 29] = [
    b"boolean",
    b"false",
    b"true",
    b"integer",
    b"natural",
    b"positive",
    b"long_long_integer",
    b"float",
    b"character",
    b"wide_character",
    b"wide_wide_character",
    b"string",
    b"wide_string",
    b"wide_wide_string",
    b"duration",
    b"ascii",
    b"constraint_error",
    b"program_error",
    b"storage_error",
    b"tasking_error",
    b"numeric_error",
    b"short_short_integer",
    b"short_integer",
    b"long_integer",
    b"long_long_long_integer",
    b"short_float",
    b"long_float",
    b"long_long_float",
    b"standard",
];

/// A word that stands for something by itself, where no declaration is looked for.
#[derive(Clone, Copy, Debug, PartialEq, Eq)]
pub enum Word {
    /// Pragmas, of which the first is an aspect too.
    SparkMode,
    Pure,
    Preelaborate,
    Assert,
    Assume,
    LoopInvariant,
    LoopVariant,
    /// Aspects.
    Pre,
    Post,
    Global,
    /// Attributes. `Range` is a reserved word.
    First,
    Last,
    Length,
    Succ,
    Pred,
    Pos,
    Val,
    Old,
    Result,
    LoopEntry,
    /// Choices of pragmas and aspects.
    On,
    Check,
    Increases,
    Decreases,
    Input,
    Output,
    InOut,
}

/// The words with their texts in lower case: the numbers from 29 on.
pub static WORDS: [(&[u8], Word); 27] = [
    (b"spark_mode", Word::SparkMode),
    (b"pure", Word::Pure),
    (b"preelaborate", Word::Preelaborate),
    (b"assert", Word::Assert),
    (b"assume", Word::Assume),
    (b"loop_invariant", Word::LoopInvariant),
    (b"loop_variant", Word::LoopVariant),
    (b"pre", Word::Pre),
    (b"post", Word::Post),
    (b"global", Word::Global),
    (b"first", Word::First),
    (b"last", Word::Last),
    (b"length", Word::Length),
    (b"succ", Word::Succ),
    (b"pred", Word::Pred),
    (b"pos", Word::Pos),
    (b"val", Word::Val),
    (b"old", Word::Old),
    (b"result", Word::Result),
    (b"loop_entry", Word::LoopEntry),
    (b"on", Word::On),
    (b"check", Word::Check),
    (b"increases", Word::Increases),
    (b"decreases", Word::Decreases),
    (b"input", Word::Input),
    (b"output", Word::Output),
    (b"in_out", Word::InOut),
];

/// The word at a place of a table.
fn word_at(table: &[(&[u8], Word)], at: usize) -> Option<Word>
    ensures { result ≡ word_at (map (λ w. (w.0.now, w.1)) table.now) at }
{
    if at < table.len() {
        Some(table[at].1)
    } else {
        None
    }
}

/// The word that has a number.
#[tactic(auto, unfolding(crate::specs::Numbers::word_of, crate::specs::Numbers::words))]
pub fn word_of(number: u32) -> Option<Word>
    ensures { result ≡ word_of number }
{
    let number = number as usize;
    if number < STANDARD_NAMES.len() {
        None
    } else {
        word_at(&WORDS, number - STANDARD_NAMES.len())
    }
}
