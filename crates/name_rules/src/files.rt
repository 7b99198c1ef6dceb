//! What is found in each file, and what is demanded where it ends (Ada RM 7.2).

ghost use Rattle.std.specs.Prelude.{◌≡◌, ◌++◌, IfOk, OnOk};
ghost use Rattle.name_library.specs.Chains.{own_declaration};
ghost use Rattle.name_scopes.specs.State.{carried, start};
ghost use Rattle.name_rules.specs.Faults.{AllKept, all_files, all_usages, bodies, end_faults, ended, events_of, file_faults, first_found, firsts_from, found_from, found_in, has_subprogram, is_subprogram, lacks_body, state_from, without_body};

use crate::demands::unless;
use name_frames::{Entry, Sort};
use name_library::{
    Event, Fault, Library, LibraryUnit, NameFault, Part, Starved, Usage, own_declaration,
};
use name_scopes::{Findings, Scopes};
use sqlite_items::{Items, at};
use std::alloc::Global;
use std::collections::BTreeMap;

fn lacks_body(sort: Sort) -> bool
    ensures { result ≡ lacks_body sort }
{
    matches!(sort, Sort::Subprogram(false, _))
}

fn is_subprogram(sort: Sort) -> bool
    ensures { result ≡ is_subprogram sort }
{
    matches!(sort, Sort::Subprogram(_, _))
}

fn has_subprogram(mut entries: &[Entry]) -> bool
    ensures { result ≡ has_subprogram entries.entry.now }
{
    while let [entry, rest @ ..] = entries {
        if is_subprogram(entry.sort) {
            return true;
        }
        entries = rest;
    }
    false
}

fn put_bodies(faults: &mut Items<Fault>, mut entries: &[Entry]) -> Result<(), Starved>
    ensures { OnOk result (faults.new ≡ faults.old ++ bodies entries.entry.now) }
{
    while let [entry, rest @ ..] = entries {
        unless(
            faults,
            !lacks_body(entry.sort),
            NameFault::MissingBody,
            entry.spot,
        )?;
        entries = rest;
    }
    Ok(())
}

fn put_without_body(
    faults: &mut Items<Fault>,
    unit: &LibraryUnit,
    entries: &[Entry],
    has_body: bool,
) -> Result<(), Starved>
    ensures { OnOk result (faults.new ≡ faults.old ++ without_body unit.now entries.now has_body) }
{
    if has_body {
        return Ok(());
    }
    unless(
        faults,
        !has_subprogram(entries),
        NameFault::MissingBody,
        unit.spot,
    )?;
    put_bodies(faults, entries)
}

fn put_end_faults(
    faults: &mut Items<Fault>,
    library: &Library,
    unit: &LibraryUnit,
    had_subprogram: bool,
    entries: &[Entry],
) -> Result<(), Starved>
    ensures { OnOk result (faults.new ≡ faults.old ++ end_faults library.now unit.now had_subprogram entries.now unit.now.part) }
{
    match unit.part {
        Part::PackageDeclaration => {
            let has_body = library.unit_as(Part::PackageBody, unit.name).is_some();
            put_without_body(faults, unit, entries, has_body)
        }
        Part::PackageBody => {
            let is_declared = library
                .unit_as(Part::PackageDeclaration, unit.name)
                .is_some();
            unless(
                faults,
                !is_declared || had_subprogram,
                NameFault::SpecMismatch,
                unit.spot,
            )?;
            put_bodies(faults, entries)
        }
        _ => Ok(()),
    }
}

fn events_of(files: &[Items<Event>], file: u32) -> &[Event]
    ensures { result.now ≡ events_of files.now file }
{
    match at(files, file as usize) {
        Some(events) => events.as_slice(),
        None => &[],
    }
}

/// What is found in a unit's file, and the rules that are broken where it ends.
pub(crate) struct Found {
    findings: Findings,
    ends: Items<Fault>,
}

impl Drop for Found {
    fn drop(self) {
        let Found { findings, ends } = self;
        drop(findings);
        drop(ends);
    }
}

/// Goes through a unit's file from what it begins with. What is left is what a body finds.
fn go_through(
    alloc: Global,
    files: &[Items<Event>],
    library: &Library,
    unit: &LibraryUnit,
    state: &mut Scopes,
) -> Result<Found, Starved>
    ensures found { IfOk result (λ found. found ≡ found_from files.now library.now unit.now state.old) }
    ensures state { OnOk result (state.new ≡ carried unit.now.spot.file (state_from files.now library.now unit.now state.old)) }
{
    let had_subprogram = has_subprogram(state.top.entries.as_slice());
    state.go_on(alloc, library, events_of(files, unit.spot.file))?;
    let mut ends = Items::new(alloc);
    put_end_faults(
        &mut ends,
        library,
        unit,
        had_subprogram,
        state.top.entries.as_slice(),
    )?;
    Ok(Found {
        findings: state.carry(alloc, unit.spot.file),
        ends,
    })
}

/// Goes through the file of a unit that goes on from no other, and keeps what its body finds.
fn go_first(
    alloc: Global,
    kept: &mut BTreeMap<u32, Scopes>,
    files: &[Items<Event>],
    library: &Library,
    unit: &LibraryUnit,
) -> Result<Found, Starved>
    requires { AllKept files.now library.now kept.old }
    ensures found { IfOk result (λ found. found ≡ found_from files.now library.now unit.now (start unit.now.spot.file)) }
    ensures kept { OnOk result (AllKept files.now library.now kept.new) }
{
    let mut state = Scopes::start(alloc, unit.spot.file)?;
    let found = go_through(alloc, files, library, unit, &mut state)?;
    kept.insert(unit.spot.file, state)?;
    Ok(found)
}

/// What is found in a unit's file, where it goes on from no other.
fn first_found(
    alloc: Global,
    kept: &mut BTreeMap<u32, Scopes>,
    files: &[Items<Event>],
    library: &Library,
    unit: &LibraryUnit,
) -> Result<Option<Found>, Starved>
    requires { AllKept files.now library.now kept.old }
    ensures found { IfOk result (λ found. found ≡ first_found files.now library.now unit.now (own_declaration library.now unit.now.name unit.now.part)) }
    ensures kept { OnOk result (AllKept files.now library.now kept.new) }
{
    match own_declaration(library, unit.name, unit.part) {
        Some(_) => Ok(None),
        None => Ok(Some(go_first(alloc, kept, files, library, unit)?)),
    }
}

/// What is found in the files of units that go on from no other. What their bodies find is kept.
fn firsts(
    alloc: Global,
    kept: &mut BTreeMap<u32, Scopes>,
    files: &[Items<Event>],
    library: &Library,
) -> Result<Items<Option<Found>>, Starved>
    requires { AllKept files.now library.now kept.old }
    ensures found { IfOk result (λ all. all ≡ firsts_from files.now library.now library.now) }
    ensures kept { OnOk result (AllKept files.now library.now kept.new) }
{
    let mut all = Items::new(alloc);
    let mut units = library.units();
    while let [unit, rest @ ..] = units {
        all.push(first_found(alloc, kept, files, library, unit)?)?;
        units = rest;
    }
    Ok(all)
}

/// What a body finds at the end of a file. It is kept for one body; for another, where a unit has two, the file is gone through again.
#[tactic(auto, using(crate::proofs::Stored::kept_less))]
fn kept_state(
    alloc: Global,
    kept: &mut BTreeMap<u32, Scopes>,
    files: &[Items<Event>],
    library: &Library,
    file: u32,
) -> Result<Scopes, Starved>
    requires { AllKept files.now library.now kept.old }
    ensures state { IfOk result (λ state. state ≡ carried file (ended files.now library.now file)) }
    ensures kept { AllKept files.now library.now kept.new }
{
    match kept.remove(&file) {
        Some(state) => Ok(state),
        None => ended_state(alloc, files, library, file),
    }
}

fn ended_state(
    alloc: Global,
    files: &[Items<Event>],
    library: &Library,
    file: u32,
) -> Result<Scopes, Starved>
    ensures { IfOk result (λ state. state ≡ carried file (ended files.now library.now file)) }
{
    let mut state = Scopes::start(alloc, file)?;
    state.go_on(alloc, library, events_of(files, file))?;
    drop(state.carry(alloc, file));
    Ok(state)
}

/// Goes through a body's file from where that of its declaration ends.
fn go_second(
    alloc: Global,
    kept: &mut BTreeMap<u32, Scopes>,
    files: &[Items<Event>],
    library: &Library,
    unit: &LibraryUnit,
    declaration: u32,
) -> Result<Found, Starved>
    requires { AllKept files.now library.now kept.old }
    ensures found { IfOk result (λ found. found ≡ found_from files.now library.now unit.now (carried unit.now.spot.file (ended files.now library.now declaration))) }
    ensures kept { AllKept files.now library.now kept.new }
{
    let mut state = kept_state(alloc, kept, files, library, declaration)?;
    drop(state.carry(alloc, unit.spot.file));
    go_through(alloc, files, library, unit, &mut state)
}

fn put_faults(all: &mut Items<Fault>, mut more: &[Fault]) -> Result<(), Starved>
    ensures { OnOk result (all.new ≡ all.old ++ more.entry.now) }
{
    while let [fault, rest @ ..] = more {
        all.push(*fault)?;
        more = rest;
    }
    Ok(())
}

fn put_usages(all: &mut Items<Usage>, mut more: &[Usage]) -> Result<(), Starved>
    ensures { OnOk result (all.new ≡ all.old ++ more.entry.now) }
{
    while let [usage, rest @ ..] = more {
        all.push(*usage)?;
        more = rest;
    }
    Ok(())
}

fn put_found(
    faults: &mut Items<Fault>,
    usages: &mut Items<Usage>,
    found: &Found,
) -> Result<(), Starved>
    ensures faults { OnOk result (faults.new ≡ faults.old ++ (found.now.findings.faults ++ found.now.ends)) }
    ensures usages { OnOk result (usages.new ≡ usages.old ++ found.now.findings.usages) }
{
    put_usages(usages, found.findings.usages.as_slice())?;
    put_faults(faults, found.findings.faults.as_slice())?;
    put_faults(faults, found.ends.as_slice())
}

#[tactic(auto, using(crate::proofs::Stored::by_first, crate::proofs::Stored::by_declaration))]
fn put_file(
    alloc: Global,
    faults: &mut Items<Fault>,
    usages: &mut Items<Usage>,
    kept: &mut BTreeMap<u32, Scopes>,
    files: &[Items<Event>],
    library: &Library,
    unit: &LibraryUnit,
    first: &Option<Found>,
) -> Result<(), Starved>
    requires kept { AllKept files.now library.now kept.old }
    requires first { first.now ≡ first_found files.now library.now unit.now (own_declaration library.now unit.now.name unit.now.part) }
    ensures faults { OnOk result (faults.new ≡ faults.old ++ file_faults files.now library.now unit.now) }
    ensures usages { OnOk result (usages.new ≡ usages.old ++ (found_in files.now library.now unit.now).findings.usages) }
    ensures kept { OnOk result (AllKept files.now library.now kept.new) }
{
    match own_declaration(library, unit.name, unit.part) {
        Some(declaration) => {
            let file = declaration.spot.file;
            let found = go_second(alloc, kept, files, library, unit, file)?;
            put_found(faults, usages, &found)
        }
        None => match first {
            Some(found) => put_found(faults, usages, found),
            None => Ok(()),
        },
    }
}

fn put_files(
    alloc: Global,
    faults: &mut Items<Fault>,
    usages: &mut Items<Usage>,
    kept: &mut BTreeMap<u32, Scopes>,
    files: &[Items<Event>],
    library: &Library,
    mut firsts: &[Option<Found>],
) -> Result<(), Starved>
    requires kept { AllKept files.now library.now kept.old }
    requires firsts { firsts.now ≡ firsts_from files.now library.now library.now }
    ensures faults { OnOk result (faults.new ≡ faults.old ++ all_files files.now library.now library.now) }
    ensures usages { OnOk result (usages.new ≡ usages.old ++ all_usages files.now library.now library.now) }
{
    let mut units = library.units();
    while let [unit, rest @ ..] = units {
        let [first, more @ ..] = firsts else {
            break;
        };
        put_file(alloc, faults, usages, kept, files, library, unit, first)?;
        units = rest;
        firsts = more;
    }
    Ok(())
}

/// Tells the broken rules of all files, and what their identifiers stand for. Each file is gone through once.
pub(crate) fn put_all_files(
    alloc: Global,
    faults: &mut Items<Fault>,
    usages: &mut Items<Usage>,
    files: &[Items<Event>],
    library: &Library,
) -> Result<(), Starved>
    ensures faults { OnOk result (faults.new ≡ faults.old ++ all_files files.now library.now library.now) }
    ensures usages { OnOk result (usages.new ≡ usages.old ++ all_usages files.now library.now library.now) }
{
    let mut kept = BTreeMap::new(alloc);
    let all = firsts(alloc, &mut kept, files, library)?;
    put_files(
        alloc,
        faults,
        usages,
        &mut kept,
        files,
        library,
        all.as_slice(),
    )
}
