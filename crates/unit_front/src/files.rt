//! The files of a program, and why they may be refused.

use ada_values::{ByteList, NameText, Starved};
use front_codes::Refusal;
use name_resolver::{NameRefusal, SourceFile};
use sqlite_items::Items;

/// A file: its name and its bytes.
pub struct NamedBytes {
    pub name: NameText,
    pub bytes: ByteList,
}

impl Drop for NamedBytes {
    fn drop(self) {
        let NamedBytes { name, bytes } = self;
        drop(name);
        drop(bytes);
    }
}

/// The files of a program, in the order in which they were named.
pub type FileList = Items<NamedBytes>;

/// The texts of files with their trees, in the order of the files.
pub type SourceList = Items<SourceFile>;

/// Why files are refused.
#[derive(Clone, Copy)]
pub enum FrontRefusal {
    /// The first broken rule: lexical rules come before the grammar, and this before the rules of names; then the order of files
    /// and places decides.
    Refused(Refusal),
    /// There was no memory.
    Starved,
}

impl From<Starved> for FrontRefusal {
    ghost use Rattle.std.specs.Prelude.{◌≡◌};
    ghost use Rattle.unit_front.specs.declared.files.FrontRefusal.TheVariants as front;

    ghost from_gives = { λ _ refusal. refusal ≡ front.Starved };

    fn from(_error: Starved) -> FrontRefusal {
        FrontRefusal::Starved
    }
}

impl From<NameRefusal> for FrontRefusal {
    ghost use Rattle.std.specs.Prelude.{◌≡◌};
    ghost use Rattle.unit_front.specs.Naming.{by_names};

    ghost from_gives = { λ names refusal. refusal ≡ by_names names };

    fn from(refusal: NameRefusal) -> FrontRefusal {
        match refusal {
            NameRefusal::Refused(refusal) => FrontRefusal::Refused(refusal),
            NameRefusal::Starved => FrontRefusal::Starved,
        }
    }
}
