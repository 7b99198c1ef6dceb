//! What is declared over the whole program: subtypes, components, subprograms and their formals, constants.

ghost use Rattle.std.specs.Prelude.{◌≡◌};
ghost use Rattle.std.specs.Option.{option_copied};
ghost use Rattle.type_base.specs.Lookups.{component_at, constant_at, entity_at, form_at, formal_at, routine_at, subtype_at, type_at};

use crate::entities::{Entity, EntityTable};
use crate::subtypes::Subtypes;
use ada_values::{Scalar, Value};
use name_library::Spot;
use sqlite_items::Items;
use typed_units::{Bounds, Mode};

/// What sort of numbers a subtype has (Ada RM 3.2, 3.5).
#[derive(Clone, Copy)]
pub enum Discrete {
    /// A signed integer type.
    Signed,
    Modular,
    /// An enumeration other than `Boolean`.
    Enumeration,
}

/// The form of a subtype.
#[derive(Clone, Copy)]
pub enum Form {
    /// Whole numbers, or the positions of an enumeration.
    Number(Discrete, Scalar),
    /// `Boolean`.
    Truth,
    /// An array: the numbers of the index's and the item's subtypes, and the bounds where it is constrained (Ada RM 3.6).
    Array {
        index: u32,
        bounds: Option<Bounds>,
        item: u32,
    },
    /// A record: so many components of the world, from `first` on (Ada RM 3.8).
    Record {
        first: u32,
        count: u32,
    },
}

/// A subtype: the number of the entry that stands for its type, and its form. Two subtypes are of one type exactly where
/// these numbers are one. An integer type has an entry with its base range as bounds, right before its first subtype, which
/// stands for it; any other type's first subtype stands for it.
#[derive(Clone, Copy)]
pub struct Subtype {
    pub of: u32,
    pub form: Form,
}

/// A component of a record: the number of its name, and of its subtype.
#[derive(Clone, Copy)]
pub struct Component {
    pub name: u32,
    pub subtype: u32,
}

/// A formal parameter: the number of its name, its mode, and the number of its subtype (Ada RM 6.1).
#[derive(Clone, Copy)]
pub struct Formal {
    pub name: u32,
    pub mode: Mode,
    pub subtype: u32,
}

/// A subprogram: so many formals of the world, from `first` on, and the number of a function's result subtype.
#[derive(Clone, Copy)]
pub struct Routine {
    pub first: u32,
    pub count: u32,
    pub result: Option<u32>,
}

/// What is declared so far, over the whole program. Subtypes and constants are numbered in the order in which they came, the
/// subtypes of package Standard first; subprograms by the numbers that they have in the program.
pub struct World {
    pub subtypes: Subtypes,
    pub components: Items<Component>,
    pub formals: Items<Formal>,
    pub routines: Items<Routine>,
    /// The values of the constants of composite subtypes.
    pub constants: Items<Value>,
    pub entities: EntityTable,
}

// Written out, so that crates that let a world go need no proof of their own.
impl Drop for World {
    fn drop(self) {
        let World {
            subtypes,
            components,
            formals,
            routines,
            constants,
            entities,
        } = self;
        drop(subtypes);
        drop(components);
        drop(formals);
        drop(routines);
        drop(constants);
        drop(entities);
    }
}

impl World {
    /// The subtype of a number.
    pub fn subtype(&self, number: u32) -> Option<Subtype>
        ensures { result ≡ subtype_at self.now number }
    {
        self.subtypes.get(number)
    }

    /// The form of the subtype of a number.
    pub fn form(&self, number: u32) -> Option<Form>
        ensures { result ≡ form_at self.now number }
    {
        self.subtypes.form(number)
    }

    /// The number of the type of the subtype of a number.
    pub fn type_of(&self, number: u32) -> Option<u32>
        ensures { result ≡ type_at self.now number }
    {
        match self.subtypes.get(number) {
            Some(subtype) => Some(subtype.of),
            None => None,
        }
    }

    /// The component of a number, among those of all records.
    pub fn component(&self, number: u32) -> Option<Component>
        ensures { result ≡ component_at self.now number }
    {
        self.components.get(number as usize).copied()
    }

    /// The formal of a number, among those of all subprograms.
    pub fn formal(&self, number: u32) -> Option<Formal>
        ensures { result ≡ formal_at self.now number }
    {
        self.formals.get(number as usize).copied()
    }

    /// The subprogram of a number.
    pub fn routine(&self, number: u32) -> Option<Routine>
        ensures { result ≡ routine_at self.now number }
    {
        self.routines.get(number as usize).copied()
    }

    /// The value of the constant of a number.
    pub fn constant(&self, number: u32) -> Option<&Value>
        ensures { option_copied result ≡ constant_at self.now number }
    {
        self.constants.get(number as usize)
    }

    /// What the declaring identifier at a place stands for, `Unknown` where none is declared there.
    pub fn entity(&self, spot: Spot) -> Entity
        ensures { result ≡ entity_at self.now spot }
    {
        self.entities.get(spot)
    }
}
