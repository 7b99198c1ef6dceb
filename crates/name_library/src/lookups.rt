//! All units of a program, with what the rules of names ask of them at hand.

ghost use Rattle.std.specs.Prelude.{◌≡◌, ℕ, [], ◌++◌, IfOk, OnOk};
ghost use Rattle.std.specs.BTreeMap.{get};
ghost use Rattle.std.specs.Ordering.{nat_cmp};
ghost use Rattle.std.specs.Option.{option_copied, option_to_list};
ghost use Rattle.name_library.specs.Library.{declaration_of, else_unit, is_part, library, package_at, same_spot, unit_as, unit_at};

use crate::events::Event;
use crate::library::{LibraryUnit, Part, unit_of};
use crate::links::Spot;
use sqlite_items::Items;
use std::alloc::{AllocError, Global};
use std::collections::BTreeMap;
use std::marker::Model;

/// All units, in the order of their files. Contracts see it as the list of them.
pub struct Library {
    units: Items<LibraryUnit>,
    /// By its name, the number of the unit that a with clause of the name means.
    declarations: BTreeMap<u32, usize>,
}

impl Model for Library {
    ghost use Rattle.std.specs.Prelude.{◌≡◌, ℕ, List};
    ghost use Rattle.std.specs.BTreeMap.{get};
    ghost use Rattle.std.specs.Ordering.{nat_cmp};
    ghost use Rattle.name_library.specs.declared.library.LibraryUnit.{LibraryUnit};

    ghost Value = { List LibraryUnit };

    ghost use Rattle.name_library.specs.Library.{declaration_of, unit_at};

    ghost view = { λ a. a.units };

    ghost invariant = { λ a. (n : ℕ) → unit_at a.units (get nat_cmp a.declarations n) ≡ declaration_of a.units n };
}

impl Drop for Library {
    fn drop(self) {
        let Library {
            units,
            declarations,
        } = self;
        drop(units);
        drop(declarations);
    }
}

/// Whether two places are one.
pub fn same_spot(spot: Spot, other: Spot) -> bool
    ensures { result ≡ same_spot spot other }
{
    spot.file == other.file && spot.at == other.at
}

fn is_part(part: Part, other: Part) -> bool
    ensures { result ≡ is_part part other }
{
    match part {
        Part::PackageDeclaration => matches!(other, Part::PackageDeclaration),
        Part::PackageBody => matches!(other, Part::PackageBody),
        Part::SubprogramDeclaration => matches!(other, Part::SubprogramDeclaration),
        Part::SubprogramBody => matches!(other, Part::SubprogramBody),
    }
}

fn put_unit(units: &mut Items<LibraryUnit>, unit: Option<LibraryUnit>) -> Result<(), AllocError>
    ensures { OnOk result (units.new ≡ units.old ++ option_to_list unit) }
{
    match unit {
        Some(unit) => units.push(unit),
        None => Ok(()),
    }
}

/// The units of files. Want of memory is also told where there are 2^32 files or more, since places count them by 32 bits.
fn units_of(alloc: Global, mut files: &[Items<Event>]) -> Result<Items<LibraryUnit>, AllocError>
    ensures { IfOk result (λ units. units ≡ library files.entry.now) }
{
    let mut units = Items::new(alloc);
    let mut number: u32 = 0;
    while let [events, rest @ ..] = files {
        let unit = unit_of(alloc, number, events.as_slice())?;
        put_unit(&mut units, unit)?;
        let Some(next) = number.checked_add(1) else {
            return Err(AllocError);
        };
        number = next;
        files = rest;
    }
    Ok(units)
}

/// The numbers with those of the first units of a part, each at its name, in place of what stood there.
fn numbered(
    mut numbers: BTreeMap<u32, usize>,
    units: &[LibraryUnit],
    part: Part,
) -> Result<BTreeMap<u32, usize>, AllocError>
    ensures { IfOk result (λ new. (n : ℕ) → unit_at units.now (get nat_cmp new n) ≡ else_unit (unit_as part n units.now) (unit_at units.now (get nat_cmp numbers n))) }
{
    let mut left = units.len();
    while left > 0 {
        left -= 1;
        let unit = &units[left];
        if is_part(part, unit.part) {
            numbers.insert(unit.name, left)?;
        }
    }
    Ok(numbers)
}

fn declarations_of(alloc: Global, units: &[LibraryUnit]) -> Result<BTreeMap<u32, usize>, AllocError>
    ensures { IfOk result (λ numbers. (n : ℕ) → unit_at units.now (get nat_cmp numbers n) ≡ declaration_of units.now n) }
{
    let bodies = numbered(BTreeMap::new(alloc), units, Part::SubprogramBody)?;
    let subprograms = numbered(bodies, units, Part::SubprogramDeclaration)?;
    numbered(subprograms, units, Part::PackageDeclaration)
}

fn first_as(mut units: &[LibraryUnit], part: Part, name: u32) -> Option<&LibraryUnit>
    ensures { option_copied result ≡ unit_as part name units.entry.now }
{
    while let [unit, rest @ ..] = units {
        if is_part(part, unit.part) && unit.name == name {
            return Some(unit);
        }
        units = rest;
    }
    None
}

fn first_at(mut units: &[LibraryUnit], spot: Spot) -> Option<&LibraryUnit>
    ensures { option_copied result ≡ package_at units.entry.now spot }
{
    while let [unit, rest @ ..] = units {
        if is_part(Part::PackageDeclaration, unit.part) && same_spot(unit.spot, spot) {
            return Some(unit);
        }
        units = rest;
    }
    None
}

impl Library {
    /// The units of files by their events, in the order of the files. Want of memory is told too where there are 2^32 files or more.
    pub fn new(alloc: Global, files: &[Items<Event>]) -> Result<Library, AllocError>
        ensures { IfOk result (λ all. all ≡ library files.now) }
    {
        let units = units_of(alloc, files)?;
        let declarations = declarations_of(alloc, units.as_slice())?;
        Ok(Library {
            units,
            declarations,
        })
    }

    pub fn units(&self) -> &[LibraryUnit]
        ensures { result.now ≡ self.now }
    {
        self.units.as_slice()
    }

    /// The number among the units of what a with clause of a name means (Ada RM 10.1.4).
    pub fn number_of_declaration(&self, name: u32) -> Option<usize>
        ensures { unit_at self.now result ≡ declaration_of self.now name }
    {
        self.declarations.get(&name).copied()
    }

    /// What a with clause of a name means.
    pub fn declaration_of(&self, name: u32) -> Option<&LibraryUnit>
        ensures { option_copied result ≡ declaration_of self.now name }
    {
        match self.declarations.get(&name) {
            Some(number) => self.units.get(*number),
            None => None,
        }
    }

    /// The package whose declaration stands at a place.
    pub fn package_at(&self, spot: Spot) -> Option<&LibraryUnit>
        ensures { option_copied result ≡ package_at self.now spot }
    {
        first_at(self.units.as_slice(), spot)
    }

    /// The first unit of a part and a name.
    pub fn unit_as(&self, part: Part, name: u32) -> Option<&LibraryUnit>
        ensures { option_copied result ≡ unit_as part name self.now }
    {
        first_as(self.units.as_slice(), part, name)
    }
}
