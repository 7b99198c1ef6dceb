//! The words of the command line.

ghost use Rattle.std.specs.Prelude.{◌≡◌, ◌&&◌, codes};
ghost use Rattle.std.specs.Str.{bytes_eq};
ghost use Rattle.std.specs.Option.{option_map};
ghost use Rattle.std.specs.List.{list_all};
ghost use Rattle.gnatprove_core.specs.Words.{are_names, is_file_byte, is_file_name, files_of};

use ada_values::{NameText, WordList};

/// The most bytes of a file's name.
const LONGEST_NAME: usize = 255;

/// Whether a byte may stand in a file's name.
fn is_file_byte(byte: u8) -> bool
    ensures { result ≡ is_file_byte byte }
{
    byte.is_ascii_alphanumeric() || byte == b'_' || byte == b'.' || byte == b'/' || byte == b'-'
}

/// Whether all of the bytes may stand in a file's name.
#[tactic(auto, using(std::proofs::lemmas::List::Folds::list_all_at, std::proofs::lemmas::List::Folds::list_all_more))]
fn are_file_bytes(bytes: &[u8]) -> bool
    ensures { result ≡ list_all is_file_byte bytes.now }
{
    for byte in bytes {
        if !is_file_byte(*byte) {
            return false;
        }
    }
    true
}

/// Whether the bytes are a file's name.
fn is_file_name(name: &[u8]) -> bool
    ensures { result ≡ is_file_name name.now }
{
    match name {
        [] => false,
        [first, ..] => *first != b'-' && are_file_bytes(name) && name.len() <= LONGEST_NAME,
    }
}

/// Whether each of the names is a file's name.
#[tactic(auto, using(std::proofs::lemmas::List::Folds::list_all_at, std::proofs::lemmas::List::Folds::list_all_more))]
fn are_file_names(names: &[NameText]) -> bool
    ensures { result ≡ list_all is_file_name names.now }
{
    for name in names {
        if !is_file_name(name.as_bytes()) {
            return false;
        }
    }
    true
}

/// Whether there is a name, and each is a file's.
fn are_names(names: &[NameText]) -> bool
    ensures { result ≡ are_names names.now }
{
    match names {
        [] => false,
        [_, ..] => are_file_names(names),
    }
}

/// Whether these are the words `prove FILE..`.
fn is_prove(word: &NameText, names: &[NameText]) -> bool
    ensures { result ≡ (bytes_eq word.now (codes "prove") && are_names names.now) }
{
    word.is(b"prove") && are_names(names)
}

/// The files that the words `prove FILE..` name, of which there is one or more. No other words have a reading.
pub fn files_of(words: &WordList) -> Option<&[NameText]>
    ensures { option_map (λ names. names.now) result ≡ files_of words.now }
{
    match words.as_slice() {
        [] => None,
        [word, names @ ..] => {
            if is_prove(word, names) {
                Some(names)
            } else {
                None
            }
        }
    }
}
