//! The entries of a map from names to bytes.
ghost use Rattle.std.specs.Prelude.{◌≡◌, IfOk};
ghost use Rattle.std.specs.Str.{bytes_eq};

use ada_values::{ByteList, NameText, Starved};
use sqlite_items::Items;
use std::alloc::Global;

/// A name and the bytes that are kept under it.
#[derive(Debug, Drop)]
pub struct Entry {
    pub name: NameText,
    pub bytes: ByteList,
}

/// The entries of a map. Of two entries of one name the first counts.
pub type EntryList = Items<Entry>;

impl Entry {
    /// An entry of this name with these bytes.
    pub fn copied(alloc: Global, name: &NameText, bytes: &ByteList) -> Result<Entry, Starved>
        ensures name { IfOk result (λ entry. entry.name ≡ name.now) }
        ensures bytes { IfOk result (λ entry. entry.bytes ≡ bytes.now) }
    {
        Ok(Entry {
            name: name.copy(alloc)?,
            bytes: ByteList::from_slice(alloc, bytes.as_slice())?,
        })
    }

    /// Whether the entry has this name.
    pub fn has_name(&self, name: &NameText) -> bool
        ensures { result ≡ bytes_eq self.now.name name.now }
    {
        self.name.as_bytes() == name.as_bytes()
    }
}
