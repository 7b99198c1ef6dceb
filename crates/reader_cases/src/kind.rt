//! The kinds of cases.

ghost use Rattle.std.specs.Prelude.{◌<◌, ◌^◌, length};

use crate::forms::push_form;
use crate::reading::{Shown, push_derived, push_read};
use crate::texts::{push_count, push_places, push_tokens};
use crate::trees::{push_declaration, push_extent, push_statement, push_unit, push_value};
use case_lines::named;
use std::alloc::{AllocError, Global};

/// What a case asks of a text.
#[derive(Clone, Copy)]
enum Kind {
    Tokens,
    Count,
    Places,
    Productions,
    Grammar,
    Read,
    Value,
    Statement,
    Declaration,
    Unit,
    Extent,
    Form,
}

const KINDS: [(&str, Kind); 12] = [
    ("tokens", Kind::Tokens),
    ("count", Kind::Count),
    ("places", Kind::Places),
    ("productions", Kind::Productions),
    ("grammar", Kind::Grammar),
    ("read", Kind::Read),
    ("value", Kind::Value),
    ("statement", Kind::Statement),
    ("declaration", Kind::Declaration),
    ("unit", Kind::Unit),
    ("extent", Kind::Extent),
    ("form", Kind::Form),
];

/// A text of so many bytes, or of more, isn't tried.
const TOO_LONG: usize = 1 << 31;

/// The answer to a kind of case.
fn push_of_kind(alloc: Global, out: &mut String, kind: Kind, text: &[u8]) -> Result<(), AllocError>
    requires { length text.now < 2 ^ 31 }
{
    match kind {
        Kind::Tokens => push_tokens(alloc, out, text),
        Kind::Count => push_count(alloc, out, text),
        Kind::Places => push_places(out, text),
        Kind::Productions => push_derived(alloc, out, Shown::Numbers, text),
        Kind::Grammar => push_derived(alloc, out, Shown::Word, text),
        Kind::Read => push_read(alloc, out, text),
        Kind::Value => push_value(alloc, out, text),
        Kind::Statement => push_statement(alloc, out, text),
        Kind::Declaration => push_declaration(alloc, out, text),
        Kind::Unit => push_unit(alloc, out, text),
        Kind::Extent => push_extent(alloc, out, text),
        Kind::Form => push_form(alloc, out, text),
    }
}

/// The answer to a text, of which a word says what is asked.
fn push_of_text(
    alloc: Global,
    out: &mut String,
    word: &[u8],
    text: &[u8],
) -> Result<(), AllocError> {
    match named(&KINDS, word) {
        Some(kind) if text.len() < TOO_LONG => push_of_kind(alloc, out, kind, text),
        _ => out.push_str("no such case"),
    }
}

/// The answer to the words of a case.
pub fn push_answer(alloc: Global, out: &mut String, words: &[Vec<u8>]) -> Result<(), AllocError> {
    match words {
        [kind, text] => push_of_text(alloc, out, kind.as_slice(), text.as_slice()),
        _ => out.push_str("no such case"),
    }
}
