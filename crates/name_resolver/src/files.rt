//! What is made of each file: the numbers of its names, its lines and what it tells of names.

ghost use Rattle.std.specs.Prelude.{◌≡◌, ◌<◌, ◌^◌, IfOk, length, map};
ghost use Rattle.std.specs.List.{sum_by};
ghost use Rattle.text_lines.specs.Lines.{line_starts};
ghost use Rattle.name_numbers.specs.Numbers.{numbered};
ghost use Rattle.name_resolver.specs.Resolved.{all_events, events_in, texts_of};

use ada_syntax::SourceUnit;
use name_events::events_of;
use name_library::Event;
use name_numbers::{NameTable, number_names};
use sqlite_items::Items;
use std::alloc::{AllocError, Global};
use text_lines::Lines;

/// A file's text and the tree of its unit.
pub struct SourceFile {
    pub text: Items<u8>,
    pub unit: SourceUnit,
}

impl Drop for SourceFile {
    fn drop(self) {
        let SourceFile { text, unit } = self;
        drop(text);
        drop(unit);
    }
}

/// The numbers of the identifiers' names, for each file.
pub fn tables_of(alloc: Global, files: &[SourceFile]) -> Result<Items<NameTable>, AllocError>
    requires { sum_by (λ f. length f.text) files.now < 2 ^ 31 }
    ensures { IfOk result (λ tables. tables ≡ numbered (texts_of files.now)) }
{
    let mut texts = Vec::new(alloc);
    for file in files {
        texts.push(file.text.as_slice())?;
    }
    number_names(alloc, texts.as_slice())
}

/// The lines of each file.
pub fn lines_of(alloc: Global, files: &[SourceFile]) -> Result<Items<Lines>, AllocError>
    requires { sum_by (λ f. length f.text) files.now < 2 ^ 31 }
    ensures { IfOk result (λ lines. lines ≡ map line_starts (texts_of files.now)) }
{
    let mut lines = Items::new(alloc);
    for file in files {
        lines.push(Lines::new(alloc, file.text.as_slice())?)?;
    }
    Ok(lines)
}

/// What a file tells of names.
#[tactic(auto, unfolding(crate::specs::Resolved::events_in))]
fn events_in(
    alloc: Global,
    table: &NameTable,
    file: &SourceFile,
) -> Result<Items<Event>, AllocError>
    ensures { IfOk result (λ found. found ≡ events_in table.now file.now) }
{
    events_of(alloc, table, &file.unit)
}

/// What each file tells of names.
pub fn all_events(
    alloc: Global,
    mut tables: &[NameTable],
    mut files: &[SourceFile],
) -> Result<Items<Items<Event>>, AllocError>
    ensures { IfOk result (λ found. found ≡ all_events tables.entry.now files.entry.now) }
{
    let mut found = Items::new(alloc);
    while let [table, more_tables @ ..] = tables {
        let [file, more_files @ ..] = files else {
            return Ok(found);
        };
        found.push(events_in(alloc, table, file)?)?;
        tables = more_tables;
        files = more_files;
    }
    Ok(found)
}
