//! What stands in a text at the spans of a tree.

ghost use Rattle.std.specs.Prelude.{◌≡◌, ◌<◌, ◌-◌, ◌^◌, length};
ghost use Rattle.first_form.specs.Spelled.{is_word, place_at, text_at};

use crate::names::same_name;
use ada_text::{Span, line_col};
use ada_values::Place;

/// The bytes of a span. What lies past the end of the text is left out.
pub fn text_at(text: &[u8], span: Span) -> &[u8]
    ensures { result.now ≡ text_at text.entry.now span }
{
    let rest = &text[text.len().min(span.from as usize)..];
    let count = span.to.saturating_sub(span.from);
    &rest[..rest.len().min(count as usize)]
}

/// Whether a span is this word, in any case.
pub fn is_word(text: &[u8], span: Span, word: &[u8]) -> bool
    ensures { result ≡ is_word text.now span word.now }
{
    same_name(text_at(text, span), word)
}

/// The place of a span's first byte.
pub fn place_at(text: &[u8], span: Span) -> Place
    requires { length text.now < 2 ^ 32 - 1 }
    ensures { result ≡ place_at text.now span }
{
    let at = span.from.min(text.len() as u32);
    let (line, column) = line_col(text, at);
    Place {
        file: 0,
        line,
        column,
    }
}
