//! The lines that stand in place of a report.

ghost use Rattle.std.specs.Prelude.{◌≡◌, IfOk};
ghost use Rattle.gnatprove_core.specs.Texts.{usage_text, no_file_text, read_fault_text, limit_text, error_text};

use ada_values::{ByteList, NameText, Place, Starved};
use gnat_report::push_place;
use sqlite_items::Items;
use std::alloc::Global;

/// The line for words without a reading.
pub fn usage_text(alloc: Global) -> Result<ByteList, Starved>
    ensures { IfOk result (λ text. text ≡ usage_text) }
{
    let mut text = Vec::new(alloc);
    text.extend_from_slice(b"gnatprove: usage\n")?;
    Ok(Items::from_vec(text))
}

/// The line for a file that is missing.
pub fn no_file_text(alloc: Global, name: &NameText) -> Result<ByteList, Starved>
    ensures { IfOk result (λ text. text ≡ no_file_text name.now) }
{
    let mut text = Vec::new(alloc);
    text.extend_from_slice(b"gnatprove: no file: ")?;
    text.extend_from_slice(name.as_bytes())?;
    text.extend_from_slice(b"\n")?;
    Ok(Items::from_vec(text))
}

/// The line for a file that could not be read.
pub fn read_fault_text(alloc: Global, name: &NameText) -> Result<ByteList, Starved>
    ensures { IfOk result (λ text. text ≡ read_fault_text name.now) }
{
    let mut text = Vec::new(alloc);
    text.extend_from_slice(b"gnatprove: read fault: ")?;
    text.extend_from_slice(name.as_bytes())?;
    text.extend_from_slice(b"\n")?;
    Ok(Items::from_vec(text))
}

/// The line for a quantity that passed its limit.
pub fn limit_text(alloc: Global, quantity: &str) -> Result<ByteList, Starved>
    ensures { IfOk result (λ text. text ≡ limit_text quantity.now) }
{
    let mut text = Vec::new(alloc);
    text.extend_from_slice(b"gnatprove: limit: ")?;
    text.extend_from_slice(quantity.as_bytes())?;
    text.extend_from_slice(b"\n")?;
    Ok(Items::from_vec(text))
}

/// The line for a refusal at a line and a column, with its code.
pub fn error_text(
    alloc: Global,
    name: &NameText,
    line: u32,
    column: u32,
    code: &str,
) -> Result<ByteList, Starved>
    ensures { IfOk result (λ text. text ≡ error_text name.now line column code.now) }
{
    let place = Place {
        file: 0,
        line,
        column,
    };
    let mut text = Vec::new(alloc);
    text.extend_from_slice(name.as_bytes())?;
    push_place(alloc, &mut text, place)?;
    text.extend_from_slice(b"error: ")?;
    text.extend_from_slice(code.as_bytes())?;
    text.extend_from_slice(b"\n")?;
    Ok(Items::from_vec(text))
}
