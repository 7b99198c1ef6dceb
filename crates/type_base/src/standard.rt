//! The subtypes and names of package Standard (Ada RM A.1).

ghost use Rattle.std.specs.Prelude.{◌≡◌, negsuc, IfOk};
ghost use Rattle.ada_values.specs.Scalars.{integer_last};
ghost use Rattle.type_base.specs.Standard.{integer_base, linked, long_base, long_last, predefined, signed, standard, standard_subtypes};

use crate::entities::{Entity, EntityTable};
use crate::subtypes::Subtypes;
use crate::world::{Discrete, Form, Subtype, World};
use ada_values::{INTEGER_FIRST, INTEGER_LAST, Scalar};
use name_library::Link;
use sqlite_items::Items;
use std::alloc::{AllocError, Global};

/// The number of the subtype Boolean.
pub const BOOLEAN: u32 = 0;

/// The number of the entry that stands for the type of Integer, with its base range as bounds.
pub const INTEGER_BASE: u32 = 1;

/// The number of the subtype Integer.
pub const INTEGER: u32 = 2;

/// The number of the subtype Natural.
pub const NATURAL: u32 = 3;

/// The number of the subtype Positive.
pub const POSITIVE: u32 = 4;

/// The number of the entry that stands for the type of Long_Long_Integer.
pub const LONG_BASE: u32 = 5;

/// The number of the subtype Long_Long_Integer.
pub const LONG: u32 = 6;

/// The first value of Long_Long_Integer (Ada RM 3.5.4).
const LONG_FIRST: i128 = -9_223_372_036_854_775_808;

/// The last value of Long_Long_Integer.
const LONG_LAST: i128 = 9_223_372_036_854_775_807;

/// A subtype of Integer's type, from a value to the last.
fn integer_from(lo: i128) -> Subtype
    ensures { result ≡ signed integer_base integer_last lo }
{
    let scalar = Scalar {
        lo,
        hi: INTEGER_LAST,
        base_lo: INTEGER_FIRST,
        base_hi: INTEGER_LAST,
        modulus: None,
    };
    Subtype {
        of: INTEGER_BASE,
        form: Form::Number(Discrete::Signed, scalar),
    }
}

/// The subtype Long_Long_Integer.
fn long() -> Subtype
    ensures { result ≡ signed long_base long_last (negsuc long_last) }
{
    let scalar = Scalar {
        lo: LONG_FIRST,
        hi: LONG_LAST,
        base_lo: LONG_FIRST,
        base_hi: LONG_LAST,
        modulus: None,
    };
    Subtype {
        of: LONG_BASE,
        form: Form::Number(Discrete::Signed, scalar),
    }
}

/// The subtypes of Standard.
fn standard_subtypes(alloc: Global) -> Result<Subtypes, AllocError>
    ensures { IfOk result (λ s. s ≡ standard_subtypes) }
{
    let mut subtypes = Subtypes::new(alloc);
    let boolean = Subtype {
        of: BOOLEAN,
        form: Form::Truth,
    };
    subtypes.push(boolean)?;
    subtypes.push(integer_from(INTEGER_FIRST))?;
    subtypes.push(integer_from(INTEGER_FIRST))?;
    subtypes.push(integer_from(0))?;
    subtypes.push(integer_from(1))?;
    subtypes.push(long())?;
    subtypes.push(long())?;
    Ok(subtypes)
}

impl World {
    /// A world in which package Standard alone is declared.
    pub fn standard(alloc: Global) -> Result<World, AllocError>
        ensures { IfOk result (λ w. w ≡ standard) }
    {
        let subtypes = standard_subtypes(alloc)?;
        Ok(World {
            subtypes,
            components: Items::new(alloc),
            formals: Items::new(alloc),
            routines: Items::new(alloc),
            constants: Items::new(alloc),
            entities: EntityTable::new(alloc),
        })
    }

    /// What an identifier of this link stands for.
    pub fn linked(&self, link: Link) -> Entity
        ensures { result ≡ linked self.now link }
    {
        match link {
            Link::Declared(spot) => self.entity(spot),
            Link::Predefined(number) => predefined(number),
        }
    }
}

/// What a name of Standard stands for, by its number among these; `Unknown` where the profile leaves it out.
pub fn predefined(number: u32) -> Entity
    ensures { result ≡ predefined number }
{
    match number {
        0 => Entity::Subtype(BOOLEAN),
        1 => Entity::Literal(BOOLEAN, 0),
        2 => Entity::Literal(BOOLEAN, 1),
        3 => Entity::Subtype(INTEGER),
        4 => Entity::Subtype(NATURAL),
        5 => Entity::Subtype(POSITIVE),
        6 => Entity::Subtype(LONG),
        _ => Entity::Unknown,
    }
}
