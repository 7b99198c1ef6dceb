//! Events that are added to those before.

ghost use Rattle.std.specs.Prelude.{◌≡◌, OnOk};
ghost use Rattle.name_numbers.specs.Numbers.{number_at};
ghost use Rattle.name_uses.specs.Told.{ident, left_out, listed_onto, opened};

use crate::Starved;
use crate::places::{Listed, mention};
use ada_text::Span;
use name_library::{Event, Ident, Kind, Scope};
use name_numbers::NameTable;
use sqlite_items::Items;

/// An identifier with the number of its name.
pub fn ident(names: &NameTable, span: Span) -> Ident
    ensures { result ≡ ident (number_at names.now) span }
{
    Ident {
        name: names.number_at(span.from),
        at: span.from,
    }
}

/// Tells that a construct that begins at a byte is left out, where the test holds.
pub fn push_left_out(found: &mut Items<Event>, test: bool, at: u32) -> Result<(), Starved>
    ensures { OnOk result (found.new ≡ left_out test at found.old) }
{
    if test {
        found.push(Event::LeftOut(at))
    } else {
        Ok(())
    }
}

/// Tells that a scope opens with a declaration.
pub fn push_opened(
    found: &mut Items<Event>,
    scope: Scope,
    kind: Kind,
    ident: Ident,
) -> Result<(), Starved>
    ensures { OnOk result (found.new ≡ opened scope kind ident found.old) }
{
    found.push(Event::Opens(scope))?;
    found.push(Event::Declares(kind, ident))
}

/// Tells of a list's identifiers.
pub fn push_listed(
    found: &mut Items<Event>,
    names: &NameTable,
    listed: Listed,
    spans: &Items<Span>,
) -> Result<(), Starved>
    ensures { OnOk result (found.new ≡ listed_onto (number_at names.now) listed found.old spans.now) }
{
    for span in spans.as_slice() {
        found.push(mention(listed, ident(names, *span)))?;
    }
    Ok(())
}
