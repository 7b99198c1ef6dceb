//! What names stand for.

ghost use Rattle.std.specs.Prelude.{◌≡◌, [], OnOk};
ghost use Rattle.std.specs.Prelude.{slice_get};
ghost use Rattle.type_base.specs.Lookups.{AreRising, is_there, meaning_in, meaning_of, place_in, with_in_file, with_meaning};

use crate::Starved;
use name_library::Spot;
use std::alloc::Global;
use std::marker::Model;
use typed_units::Object;

/// Whether an object may be written, and where not, why (Ada RM 3.3).
#[derive(Clone, Copy)]
pub enum Access {
    Variable,
    Constant,
    InParameter,
    LoopParameter,
}

/// What a declared name stands for.
#[derive(Clone, Copy)]
pub enum Entity {
    /// Its declaration is refused, or isn't reached yet, so nothing can be demanded of it.
    Unknown,
    Package,
    /// The subtype of this number.
    Subtype(u32),
    /// The subprogram of this number.
    Routine(u32),
    /// A named number (Ada RM 3.3.2).
    Number(i128),
    /// A literal of the enumeration of this number, by its position; `True` is 1 and `False` 0.
    Literal(u32, i128),
    /// A constant of this scalar subtype with a static value; `True` is 1 and `False` 0.
    Static(u32, i128),
    /// A package's constant of this composite subtype: the number of its value.
    Constant(u32, u32),
    /// Any other object, of this subtype.
    Object(u32, Object, Access),
}

/// The first byte of a declaring identifier in its file, and what it stands for.
#[derive(Clone, Copy)]
pub struct Meaning {
    pub at: u32,
    pub entity: Entity,
}

/// What the declaring identifiers of a file stand for, in the order of the text. Contracts see the list of these.
pub struct FileMeanings {
    items: Vec<Meaning>,
}

// Written out, so that crates that let these go need no proof of their own.
impl Drop for FileMeanings {
    fn drop(self) {
        let FileMeanings { items } = self;
        drop(items);
    }
}

impl Model for FileMeanings {
    ghost use Rattle.std.specs.Prelude.{List};
    ghost use Rattle.type_base.specs.declared.entities.Meaning.{Meaning};
    ghost use Rattle.type_base.specs.Lookups.{AreRising};

    ghost Value = { List Meaning };

    ghost view = { λ f. f.items.items };

    ghost invariant = { λ f. AreRising 0 f.items.items };
}

/// What the declaring identifiers of a program stand for, file by file. Contracts see a list of lists.
pub struct EntityTable {
    files: Vec<FileMeanings>,
}

// Written out, so that crates that let these go need no proof of their own.
impl Drop for EntityTable {
    fn drop(self) {
        let EntityTable { files } = self;
        drop(files);
    }
}

impl Model for EntityTable {
    ghost use Rattle.std.specs.Prelude.{List};
    ghost use Rattle.type_base.specs.declared.entities.Meaning.{Meaning};

    ghost Value = { List (List Meaning) };

    ghost view = { λ t. t.files.items };
}

impl FileMeanings {
    /// No meanings.
    pub fn new(alloc: Global) -> FileMeanings
        ensures { result ≡ [] }
    {
        FileMeanings {
            items: Vec::new(alloc),
        }
    }

    /// What the declaring identifier at a byte stands for, `Unknown` where none is declared there. In logarithmic time.
    pub fn get(&self, at: u32) -> Entity
        ensures { result ≡ meaning_in self.now at }
    {
        let mut rest = self.items.as_slice();
        while !rest.is_empty() {
            let middle = rest.len() / 2;
            let found = rest[middle];
            if found.at == at {
                return found.entity;
            }
            if found.at < at {
                rest = &rest[middle + 1..];
            } else {
                rest = &rest[..middle];
            }
        }
        Entity::Unknown
    }
}

/// How many meanings stand before a byte. In constant time where all of them do.
#[tactic(auto, using(crate::proofs::Places::after, crate::proofs::Places::before, crate::proofs::Places::most))]
fn place_in(items: &[Meaning], at: u32) -> usize
    requires { AreRising 0 items.now }
    ensures { result ≡ place_in items.now at }
{
    let mut place = items.len();
    while 0 < place {
        if items[place - 1].at < at {
            return place;
        }
        place -= 1;
    }
    0
}

/// Whether a meaning stands at a byte, where so many stand before it.
fn is_there(items: &[Meaning], place: usize, at: u32) -> bool
    ensures { result ≡ is_there items.now place at }
{
    match items.get(place) {
        Some(meaning) => meaning.at == at,
        None => false,
    }
}

impl FileMeanings {
    /// Adds a meaning, which takes the place of another at its byte. In constant time where it stands after all others.
    #[tactic(auto, using(crate::proofs::Places::inserted, crate::proofs::Places::replaced, crate::proofs::Places::there, crate::proofs::Places::most, crate::proofs::Places::rising_inserted, crate::proofs::Places::rising_replaced))]
    pub fn put(&mut self, at: u32, entity: Entity) -> Result<(), Starved>
        ensures { OnOk result (self.new ≡ with_meaning self.old at entity) }
    {
        let place = place_in(self.items.as_slice(), at);
        let meaning = Meaning { at, entity };
        if is_there(self.items.as_slice(), place, at) {
            self.items[place] = meaning;
            return Ok(());
        }
        match self.items.insert(place, meaning) {
            Ok(()) => Ok(()),
            Err(_) => Err(Starved),
        }
    }
}

impl EntityTable {
    /// A table without files.
    pub fn new(alloc: Global) -> EntityTable
        ensures { result ≡ [] }
    {
        EntityTable {
            files: Vec::new(alloc),
        }
    }

    /// What the declaring identifier at a place stands for, `Unknown` where none is declared there.
    pub fn get(&self, spot: Spot) -> Entity
        ensures { result ≡ meaning_of (slice_get self.now spot.file) spot.at }
    {
        match self.files.get(spot.file as usize) {
            Some(file) => file.get(spot.at),
            None => Entity::Unknown,
        }
    }

    /// Adds what the declaring identifier at a place stands for, in place of what it stood for before.
    #[tactic(auto, using(crate::proofs::Places::padded, crate::proofs::Places::within))]
    pub fn put(&mut self, alloc: Global, spot: Spot, entity: Entity) -> Result<(), Starved>
        ensures { OnOk result (self.new ≡ with_in_file self.old spot.file spot.at entity) }
    {
        let file = spot.file as usize;
        while self.files.len() <= file {
            self.files.push(FileMeanings::new(alloc))?;
        }
        self.files[file].put(spot.at, entity)
    }
}
