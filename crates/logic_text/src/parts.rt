//! Numbers as parts of a text, each with a space before it.

ghost use Rattle.std.specs.Prelude.{◌≡◌, ◌++◌, OnOk};
ghost use Rattle.logic_text.specs.Certs.{spaced_number, spaced_whole};

use logic_terms::{Starved, push_number, push_whole};
use std::alloc::Global;

/// Adds a space and a number.
pub fn push_spaced_number(alloc: Global, text: &mut Vec<u8>, number: u64) -> Result<(), Starved>
    ensures { OnOk result (text.new.items ≡ text.old.items ++ spaced_number number) }
{
    text.extend_from_slice(b" ")?;
    push_number(alloc, text, number)
}

/// Adds a space and a whole number.
pub fn push_spaced_whole(alloc: Global, text: &mut Vec<u8>, number: i128) -> Result<(), Starved>
    ensures { OnOk result (text.new.items ≡ text.old.items ++ spaced_whole number) }
{
    text.extend_from_slice(b" ")?;
    push_whole(alloc, text, number)
}
