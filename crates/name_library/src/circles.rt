//! What units depend on, circles (Ada RM 10.1.2), and an order in which each unit comes after what it depends on.

ghost use Rattle.std.specs.Prelude.{◌≡◌, ℕ, [], ◌∷◌, ◌++◌, IfOk, OnOk, find, slice_get};
ghost use Rattle.std.specs.Option.{option_copied};
ghost use Rattle.name_library.specs.Library.{contains};
ghost use Rattle.name_library.specs.Chains.{all_in, chains, dependences, file_added, is_next, leads_back, merged, dependence_of, next_added, one_onwards, onwards, order, own_declaration, reached, stands_in, turns, unit_added, withs_added};

use crate::events::Ident;
use crate::library::{LibraryUnit, Part};
use crate::lookups::Library;
use sqlite_items::{Items, at};
use std::alloc::{AllocError, Global};

/// A unit's file, and the files of what it depends on (Ada RM 10.1.1), each once.
pub struct Dependence {
    pub file: u32,
    pub on: Items<u32>,
}

impl Drop for Dependence {
    fn drop(self) {
        let Dependence { file: _, on } = self;
        drop(on);
    }
}

/// Whether a number stands in a list.
pub fn contains(number: u32, mut numbers: &[u32]) -> bool
    ensures { result ≡ contains number numbers.entry.now }
{
    while let [first, rest @ ..] = numbers {
        if number == *first {
            return true;
        }
        numbers = rest;
    }
    false
}

fn add_file(files: &mut Items<u32>, file: u32) -> Result<(), AllocError>
    ensures { OnOk result (files.new ≡ file_added files.old file) }
{
    if contains(file, files.as_slice()) {
        return Ok(());
    }
    files.push(file)
}

fn add_unit(files: &mut Items<u32>, unit: Option<&LibraryUnit>) -> Result<(), AllocError>
    ensures { OnOk result (files.new ≡ unit_added files.old (option_copied unit.entry)) }
{
    match unit {
        Some(unit) => add_file(files, unit.spot.file),
        None => Ok(()),
    }
}

fn add_withs(
    files: &mut Items<u32>,
    library: &Library,
    mut withs: &[Ident],
) -> Result<(), AllocError>
    ensures { OnOk result (files.new ≡ withs_added library.now files.old withs.entry.now) }
{
    while let [with, rest @ ..] = withs {
        add_unit(files, library.declaration_of(with.name))?;
        withs = rest;
    }
    Ok(())
}

/// The declaration that a body of a name goes with. `None` where there is none, and for what is no body.
pub fn own_declaration(library: &Library, name: u32, part: Part) -> Option<&LibraryUnit>
    ensures { option_copied result ≡ own_declaration library.now name part }
{
    match part {
        Part::PackageBody => library.unit_as(Part::PackageDeclaration, name),
        Part::SubprogramBody => library.unit_as(Part::SubprogramDeclaration, name),
        _ => None,
    }
}

fn dependence_of(
    alloc: Global,
    library: &Library,
    unit: &LibraryUnit,
) -> Result<Dependence, AllocError>
    ensures { IfOk result (λ found. found ≡ dependence_of library.now unit.now) }
{
    let mut files = Items::new(alloc);
    add_withs(&mut files, library, unit.withs.as_slice())?;
    add_unit(&mut files, own_declaration(library, unit.name, unit.part))?;
    Ok(Dependence {
        file: unit.spot.file,
        on: files,
    })
}

/// What each unit depends on: the declarations that it withs, and that of a body.
pub fn dependences(alloc: Global, library: &Library) -> Result<Items<Dependence>, AllocError>
    ensures { IfOk result (λ all. all ≡ dependences library.now) }
{
    let mut all = Items::new(alloc);
    let mut units = library.units();
    while let [unit, rest @ ..] = units {
        all.push(dependence_of(alloc, library, unit)?)?;
        units = rest;
    }
    Ok(all)
}

fn merge(files: &mut Items<u32>, mut more: &[u32]) -> Result<(), AllocError>
    ensures { OnOk result (files.new ≡ merged files.old more.entry.now) }
{
    while let [file, rest @ ..] = more {
        add_file(files, *file)?;
        more = rest;
    }
    Ok(())
}

fn merge_if_reached(files: &mut Items<u32>, dependence: &Dependence) -> Result<(), AllocError>
    ensures { OnOk result (files.new ≡ one_onwards dependence.now files.old) }
{
    if contains(dependence.file, files.as_slice()) {
        return merge(files, dependence.on.as_slice());
    }
    Ok(())
}

fn go_onwards(files: &mut Items<u32>, mut all: &[Dependence]) -> Result<(), AllocError>
    ensures { OnOk result (files.new ≡ onwards all.entry.now files.old) }
{
    while let [dependence, rest @ ..] = all {
        merge_if_reached(files, dependence)?;
        all = rest;
    }
    Ok(())
}

/// The files to which chains of what units depend on lead from a file, itself among them.
pub fn reached(alloc: Global, all: &[Dependence], file: u32) -> Result<Items<u32>, AllocError>
    ensures { IfOk result (λ files. files ≡ reached all.now file) }
{
    let mut files = Items::new(alloc);
    files.push(file)?;
    let mut left = all;
    while let [_, rest @ ..] = left {
        let before = files.len();
        go_onwards(&mut files, all)?;
        if files.len() == before {
            break;
        }
        left = rest;
    }
    Ok(files)
}

/// Of each unit the files to which chains lead from its own.
pub fn chains(alloc: Global, library: &Library) -> Result<Items<Items<u32>>, AllocError>
    ensures { IfOk result (λ all. all ≡ chains library.now) }
{
    let all = dependences(alloc, library)?;
    let mut found = Items::new(alloc);
    let mut units = library.units();
    while let [unit, rest @ ..] = units {
        found.push(reached(alloc, all.as_slice(), unit.spot.file)?)?;
        units = rest;
    }
    Ok(found)
}

fn stands_in(all: &[Items<u32>], number: usize, file: u32) -> bool
    ensures { result ≡ stands_in file (slice_get all.now number) }
{
    match at(all, number) {
        Some(files) => contains(file, files.as_slice()),
        None => false,
    }
}

/// Whether a chain leads from what a with clause of a name means back to a file, by the chains of the library.
#[tactic(auto, using(crate::proofs::Marked::by_number))]
pub fn leads_back(library: &Library, all: &[Items<u32>], name: u32, file: u32) -> bool
    requires { all.now ≡ chains library.now }
    ensures { result ≡ leads_back library.now name file }
{
    match library.number_of_declaration(name) {
        Some(number) => stands_in(all, number, file),
        None => false,
    }
}

fn all_in(mut files: &[u32], done: &[u32]) -> bool
    ensures { result ≡ all_in files.entry.now done.now }
{
    while let [file, rest @ ..] = files {
        if !contains(*file, done) {
            return false;
        }
        files = rest;
    }
    true
}

fn is_next(done: &[u32], dependence: &Dependence) -> bool
    ensures { result ≡ is_next done.now dependence.now }
{
    !contains(dependence.file, done) && all_in(dependence.on.as_slice(), done)
}

fn next<'a>(mut all: &'a [Dependence], done: &[u32]) -> Option<&'a Dependence>
    ensures { option_copied result ≡ find (is_next done.now) all.entry.now }
{
    while let [dependence, rest @ ..] = all {
        if is_next(done, dependence) {
            return Some(dependence);
        }
        all = rest;
    }
    None
}

fn add_next(done: &mut Items<u32>, all: &[Dependence]) -> Result<(), AllocError>
    ensures { OnOk result (done.new ≡ next_added done.old (find (is_next done.old) all.now)) }
{
    match next(all, done.as_slice()) {
        Some(dependence) => done.push(dependence.file),
        None => Ok(()),
    }
}

/// The files of the units in an order in which each comes after what it depends on. What is on a circle, or depends on one, is left out.
pub fn order(alloc: Global, library: &Library) -> Result<Items<u32>, AllocError>
    ensures { IfOk result (λ files. files ≡ order library.now) }
{
    let all = dependences(alloc, library)?;
    let mut done = Items::new(alloc);
    take_turns(&mut done, all.as_slice())?;
    Ok(done)
}

fn take_turns(done: &mut Items<u32>, all: &[Dependence]) -> Result<(), AllocError>
    ensures { OnOk result (done.new ≡ turns all.now all.now done.old) }
{
    let mut left = all;
    while let [_, rest @ ..] = left {
        add_next(done, all)?;
        left = rest;
    }
    Ok(())
}
