//! The subprograms of a program that is being typed.

ghost use Rattle.std.specs.Prelude.{◌≡◌, ◌<◌, [], ◌∷◌, ◌++◌, Some, length, slice_get, slice_set, option_copied, OnErr, OnOk};

use sqlite_items::Items;
use std::alloc::{AllocError, Global};
use std::marker::Model;
use typed_units::Sub;

/// Subprograms by their numbers, each of which can be taken out for another. Contracts see the list of them.
pub struct Subs {
    items: Vec<Sub>,
}

// Written out, so that crates that let these go need no proof of their own.
impl Drop for Subs {
    fn drop(self) {
        let Subs { items } = self;
        drop(items);
    }
}

impl Model for Subs {
    ghost use Rattle.std.specs.Prelude.{List};
    ghost use Rattle.std.specs.Coded.{coded_list};
    ghost use Rattle.typed_units.specs.contracts.programs.Sub as sub;
    ghost use Rattle.typed_units.specs.declared.programs.Sub.{Sub};

    ghost Value = { List Sub };

    ghost coded = { coded_list sub.the_row.coded };

    ghost view = { λ s. s.items.items };
}

impl Subs {
    /// No subprograms.
    pub fn new(alloc: Global) -> Subs
        ensures { result ≡ [] }
    {
        Subs {
            items: Vec::new(alloc),
        }
    }

    /// How many there are.
    pub fn len(&self) -> usize
        ensures { result ≡ length self.now }
    {
        self.items.len()
    }

    /// The subprogram of a number.
    pub fn get(&self, number: u32) -> Option<&Sub>
        ensures { option_copied result ≡ slice_get self.now number }
    {
        self.items.get(number as usize)
    }

    /// Adds a subprogram at the end.
    pub fn push(&mut self, sub: Sub) -> Result<(), AllocError>
        ensures ok { OnOk result (self.new ≡ self.old ++ sub ∷ []) }
        ensures err { OnErr result (self.new ≡ self.old) }
    {
        match self.items.push(sub) {
            Ok(()) => Ok(()),
            Err(failed) => {
                drop(failed);
                Err(AllocError)
            }
        }
    }

    /// Puts a subprogram in the place of that of a number, which it gives.
    pub fn replace(&mut self, number: u32, sub: Sub) -> Sub
        requires { number < length self.now }
        ensures old { slice_get self.old number ≡ Some result }
        ensures new { self.new ≡ slice_set self.old number sub }
    {
        std::mem::replace(&mut self.items[number as usize], sub)
    }

    /// The subprograms themselves.
    pub fn into_items(self) -> Items<Sub>
        ensures { result ≡ self }
    {
        let Subs { items } = self;
        Items::from_vec(items)
    }
}
