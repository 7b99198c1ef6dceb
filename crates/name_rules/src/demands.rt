//! What is demanded of units: their names, bodies with their declarations, and no circles of with clauses (Ada RM 7.2, 10.1).

ghost use Rattle.std.specs.Prelude.{◌≡◌, ◌++◌, OnOk};
ghost use Rattle.name_library.specs.Chains.{chains};
ghost use Rattle.name_library.specs.Library.{goes_with};
ghost use Rattle.name_rules.specs.Faults.{all_units, circles, has_body, has_declaration, has_twice, is_twice, unit_faults, unless};

use name_library::{
    Fault, Ident, Library, LibraryUnit, NameFault, Part, Spot, Starved, chains, leads_back,
};
use sqlite_items::Items;
use std::alloc::Global;

/// The names of package Standard have the numbers below this one.
const STANDARD_NAMES: u32 = 29;

/// Tells a broken rule where its demand isn't met.
pub(crate) fn unless(
    faults: &mut Items<Fault>,
    met: bool,
    rule: NameFault,
    spot: Spot,
) -> Result<(), Starved>
    ensures { OnOk result (faults.new ≡ faults.old ++ unless met rule spot) }
{
    if met {
        return Ok(());
    }
    faults.push(Fault { rule, spot })
}

/// Whether a unit of one part is the declaration for a body of the other, or the body for a declaration.
fn goes_with(part: Part, other: Part) -> bool
    ensures { result ≡ goes_with part other }
{
    match part {
        Part::PackageDeclaration => matches!(other, Part::PackageBody),
        Part::PackageBody => matches!(other, Part::PackageDeclaration),
        Part::SubprogramDeclaration => matches!(other, Part::SubprogramBody),
        Part::SubprogramBody => matches!(other, Part::SubprogramDeclaration),
    }
}

fn is_twice(earlier: &LibraryUnit, unit: &LibraryUnit) -> bool
    ensures { result ≡ is_twice earlier.now unit.now }
{
    earlier.spot.file < unit.spot.file
        && earlier.name == unit.name
        && !goes_with(unit.part, earlier.part)
}

fn has_twice(mut units: &[LibraryUnit], unit: &LibraryUnit) -> bool
    ensures { result ≡ has_twice units.entry.now unit.now }
{
    while let [earlier, rest @ ..] = units {
        if is_twice(earlier, unit) {
            return true;
        }
        units = rest;
    }
    false
}

fn has_declaration(library: &Library, unit: &LibraryUnit) -> bool
    ensures { result ≡ has_declaration library.now unit.now unit.now.part }
{
    match unit.part {
        Part::PackageBody => library
            .unit_as(Part::PackageDeclaration, unit.name)
            .is_some(),
        _ => true,
    }
}

fn has_body(library: &Library, unit: &LibraryUnit) -> bool
    ensures { result ≡ has_body library.now unit.now unit.now.part }
{
    match unit.part {
        Part::SubprogramDeclaration => library.unit_as(Part::SubprogramBody, unit.name).is_some(),
        _ => true,
    }
}

fn put_circles(
    faults: &mut Items<Fault>,
    library: &Library,
    all: &[Items<u32>],
    file: u32,
    mut withs: &[Ident],
) -> Result<(), Starved>
    requires { all.now ≡ chains library.now }
    ensures { OnOk result (faults.new ≡ faults.old ++ circles library.now file withs.entry.now) }
{
    while let [with, rest @ ..] = withs {
        let spot = Spot { file, at: with.at };
        let met = !leads_back(library, all, with.name, file);
        unless(faults, met, NameFault::WithCycle, spot)?;
        withs = rest;
    }
    Ok(())
}

fn put_unit_faults(
    faults: &mut Items<Fault>,
    library: &Library,
    all: &[Items<u32>],
    unit: &LibraryUnit,
) -> Result<(), Starved>
    requires { all.now ≡ chains library.now }
    ensures { OnOk result (faults.new ≡ faults.old ++ unit_faults library.now unit.now) }
{
    let is_new = unit.name >= STANDARD_NAMES;
    let is_only = !has_twice(library.units(), unit);
    let is_declared = has_declaration(library, unit);
    let is_complete = has_body(library, unit);
    unless(faults, is_new, NameFault::Duplicate, unit.spot)?;
    unless(faults, is_only, NameFault::Duplicate, unit.spot)?;
    unless(faults, is_declared, NameFault::UnknownName, unit.spot)?;
    unless(faults, is_complete, NameFault::MissingBody, unit.spot)?;
    put_circles(faults, library, all, unit.spot.file, unit.withs.as_slice())
}

fn put_units(
    faults: &mut Items<Fault>,
    library: &Library,
    all: &[Items<u32>],
) -> Result<(), Starved>
    requires { all.now ≡ chains library.now }
    ensures { OnOk result (faults.new ≡ faults.old ++ all_units library.now library.now) }
{
    let mut units = library.units();
    while let [unit, rest @ ..] = units {
        put_unit_faults(faults, library, all, unit)?;
        units = rest;
    }
    Ok(())
}

/// Tells the broken rules of all units.
pub(crate) fn put_all_units(
    alloc: Global,
    faults: &mut Items<Fault>,
    library: &Library,
) -> Result<(), Starved>
    ensures { OnOk result (faults.new ≡ faults.old ++ all_units library.now library.now) }
{
    let all = chains(alloc, library)?;
    put_units(faults, library, all.as_slice())
}
