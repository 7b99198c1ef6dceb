//! Texts and the lists of them.

ghost use Rattle.std.specs.Prelude.{◌≡◌, ◌↔◌, IfOk, IsTrue, string_bytes};

use crate::Starved;
use sqlite_items::Items;
use std::alloc::Global;
use std::marker::Model;

/// Bytes, as a file holds them.
pub type ByteList = Items<u8>;

/// Names in order.
pub type NameList = Items<NameText>;

/// The words of a command line, in order, without the program's own name.
pub type WordList = Items<NameText>;

/// The text of a name, which contracts see as the list of its bytes.
#[derive(Debug)]
pub struct NameText {
    bytes: Vec<u8>,
}

// Written out, so that crates that let names go need no proof of theirs.
impl Drop for NameText {
    fn drop(self) {
        let NameText { bytes } = self;
        drop(bytes);
    }
}

impl Model for NameText {
    ghost use Rattle.std.specs.Prelude.{List, ℕ};

    ghost Value = { List ℕ };

    ghost view = { λ name. name.bytes.items };
}

impl NameText {
    /// A name of these bytes.
    pub fn from_bytes(alloc: Global, bytes: &[u8]) -> Result<NameText, Starved>
        ensures { IfOk result (λ name. name ≡ bytes.now) }
    {
        let bytes = Vec::from_slice(alloc, bytes)?;
        Ok(NameText { bytes })
    }

    /// A name of this text.
    pub fn from_text(alloc: Global, text: &str) -> Result<NameText, Starved>
        ensures { IfOk result (λ name. name ≡ text.now) }
    {
        NameText::from_bytes(alloc, text.as_bytes())
    }

    /// A copy of the name.
    pub fn copy(&self, alloc: Global) -> Result<NameText, Starved>
        ensures { IfOk result (λ name. name ≡ self.now) }
    {
        NameText::from_bytes(alloc, self.as_bytes())
    }

    /// The bytes of the name.
    pub fn as_bytes(&self) -> &[u8]
        ensures { result.now ≡ self.now }
    {
        self.bytes.as_slice()
    }

    /// Whether the name has these bytes.
    pub fn is(&self, bytes: &[u8]) -> bool
        ensures { IsTrue result ↔ (self.now ≡ bytes.now) }
    {
        self.as_bytes() == bytes
    }
}
