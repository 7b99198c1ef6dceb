//! What cases and answers are made of.

use crate::fault::{CaseFault, made};
use ada_values::{NameText, WordList};
use case_lines::{push_shown, words_of};
use sqlite_items::Items;
use std::alloc::{AllocError, Global};

/// Adds bytes in quotes.
pub fn push_quoted(out: &mut String, bytes: &[u8]) -> Result<(), AllocError> {
    out.push('"')?;
    push_shown(out, bytes)?;
    out.push('"')
}

/// The words of a word that holds several.
pub fn split(alloc: Global, text: &[u8]) -> Result<case_lines::WordList, CaseFault> {
    match words_of(alloc, text) {
        Ok(words) => Ok(words),
        Err(fault) => Err(CaseFault::from(fault)),
    }
}

/// A word as a name.
pub fn name_of(alloc: Global, word: &[u8]) -> Result<NameText, CaseFault> {
    made(NameText::from_bytes(alloc, word))
}

fn push_name(alloc: Global, names: &mut WordList, word: &[u8]) -> Result<(), CaseFault> {
    made(names.push(name_of(alloc, word)?))
}

/// The words of a text as names.
pub fn names(alloc: Global, text: &[u8]) -> Result<WordList, CaseFault> {
    let words = split(alloc, text)?;
    let mut names = Items::new(alloc);
    for word in words.as_slice() {
        push_name(alloc, &mut names, word.as_slice())?;
    }
    Ok(names)
}
