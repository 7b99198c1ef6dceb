//! The declarations of one scope.

ghost use Rattle.std.specs.Prelude.{◌≡◌, [], ◌∷◌, ◌++◌, None, length, OnOk};
ghost use Rattle.name_frames.specs.Entries.{body_entry, entry_of, place_of, with_body};

use name_library::Spot;
use sqlite_items::Items;
use std::alloc::{AllocError, Global};
use std::collections::BTreeMap;
use std::marker::Model;

/// What a declaration declares.
#[derive(Clone, Copy)]
pub enum Sort {
    /// An object, a named number, a type, a subtype, a parameter, an index or a component.
    Plain,
    /// An enumeration literal.
    Literal,
    Package,
    /// A subprogram: whether its body has come, and the number of its profile.
    Subprogram(bool, usize),
}

/// A declaration: its name, the place of its first spelling, and its number among those of its scope, from 0.
#[derive(Clone, Copy)]
pub struct Entry {
    pub name: u32,
    pub spot: Spot,
    pub sort: Sort,
    pub number: usize,
}

/// The declarations of a scope in the order of the text, where a name has one. Contracts see the list of them.
pub struct Entries {
    list: Items<Entry>,
    /// By its name, the place of a declaration in the list.
    places: BTreeMap<u32, usize>,
}

impl Model for Entries {
    ghost use Rattle.std.specs.Prelude.{List};
    ghost use Rattle.name_frames.specs.declared.entries.Entry.{Entry};

    ghost Value = { List Entry };

    ghost use Rattle.name_frames.specs.Entries.{IsIndex};

    ghost view = { λ e. e.list };

    ghost invariant = { λ e. IsIndex e.places e.list };
}

impl Drop for Entries {
    fn drop(self) {
        let Entries { list, places } = self;
        drop(list);
        drop(places);
    }
}

fn body_of(entry: Entry, profile: usize) -> Entry
    ensures { result ≡ body_entry profile entry }
{
    Entry {
        name: entry.name,
        spot: entry.spot,
        sort: Sort::Subprogram(true, profile),
        number: entry.number,
    }
}

impl Entries {
    /// No declarations.
    pub fn new(alloc: Global) -> Entries
        ensures { result ≡ [] }
    {
        Entries {
            list: Items::new(alloc),
            places: BTreeMap::new(alloc),
        }
    }

    /// How many declarations there are.
    pub fn len(&self) -> usize
        ensures { result ≡ length self.now }
    {
        self.list.len()
    }

    /// The declarations in the order of the text.
    pub fn as_slice(&self) -> &[Entry]
        ensures { result.now ≡ self.now }
    {
        self.list.as_slice()
    }

    fn place_of(&self, name: u32) -> Option<usize>
        ensures { result ≡ place_of name self.now }
    {
        self.places.get(&name).copied()
    }

    /// The declaration of a name. Logarithmic in their number.
    pub fn entry_of(&self, name: u32) -> Option<Entry>
        ensures { result ≡ entry_of name self.now }
    {
        match self.place_of(name) {
            Some(place) => self.list.get(place).copied(),
            None => None,
        }
    }

    /// Adds a declaration of a name that has none. Fails where memory runs out; which declarations are left then is not said.
    pub fn push(&mut self, alloc: Global, entry: Entry) -> Result<(), AllocError>
        requires { entry_of entry.name self.old ≡ None }
        ensures { OnOk result (self.new ≡ self.old ++ entry ∷ []) }
    {
        let place = self.list.len();
        self.list.push(entry)?;
        match self.places.insert(entry.name, place) {
            Ok(_) => Ok(()),
            Err(_) => {
                self.list = Items::new(alloc);
                self.places = BTreeMap::new(alloc);
                Err(AllocError)
            }
        }
    }

    /// Notes that the body of a subprogram has come, whose profile has this number.
    pub fn set_body(&mut self, name: u32, profile: usize)
        ensures { self.new ≡ with_body name profile self.old }
    {
        let place = match self.place_of(name) {
            Some(place) => place,
            None => return,
        };
        let entry = match self.list.get(place) {
            Some(entry) => body_of(*entry, profile),
            None => return,
        };
        self.list.set(place, entry);
    }
}
