//! The identifiers of a file.

ghost use Rattle.std.specs.Prelude.{◌≡◌};
ghost use Rattle.name_numbers.specs.Numbers.{AreRising, number_at};

use name_library::Ident;
use sqlite_items::Items;
use std::marker::Model;

/// The identifiers of a file with the numbers of their names, in the order of the text.
#[derive(Drop)]
pub struct NameTable {
    idents: Items<Ident>,
}

impl Model for NameTable {
    ghost use Rattle.std.specs.Prelude.{List};
    ghost use Rattle.name_library.specs.declared.events.Ident.{Ident};
    ghost use Rattle.name_numbers.specs.Numbers.{AreRising};

    ghost Value = { List Ident };

    ghost view = { λ t. t.idents };

    ghost invariant = { λ t. AreRising 0 t.idents };
}

impl NameTable {
    /// The table of identifiers, each of which begins after the one before.
    pub fn new(idents: Items<Ident>) -> NameTable
        requires { AreRising 0 idents }
        ensures { result ≡ idents }
    {
        NameTable { idents }
    }

    /// The number of the name of the identifier that begins at a byte of the file, from 0; 0 where there is none.
    pub fn number_at(&self, at: u32) -> u32
        ensures { result ≡ number_at self.now at }
    {
        let mut rest = self.idents.as_slice();
        while !rest.is_empty() {
            let middle = rest.len() / 2;
            let ident = rest[middle];
            if ident.at == at {
                return ident.name;
            }
            if ident.at < at {
                rest = &rest[middle + 1..];
            } else {
                rest = &rest[..middle];
            }
        }
        0
    }
}
