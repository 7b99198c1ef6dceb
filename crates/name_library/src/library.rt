//! The units of a program, and what a package exports.

ghost use Rattle.std.specs.Prelude.{◌≡◌, ℕ, [], ◌++◌, ◌<◌, ◌^◌, IfOk, OnOk};
ghost use Rattle.std.specs.BTreeMap.{get};
ghost use Rattle.std.specs.Ordering.{nat_cmp};
ghost use Rattle.std.specs.Option.{option_copied};
ghost use Rattle.name_library.specs.Library.{declared_at, depth_after, export_named, exported_by, exports, exports_by, is_end, opened_ident, part_of, unit_after, unit_opened};

use crate::events::{Event, Ident, Scope};
use crate::links::Spot;
use sqlite_items::Items;
use std::alloc::{AllocError, Global};
use std::collections::BTreeMap;
use std::marker::Model;

/// What a unit is (Ada RM 10.1.1).
#[derive(Clone, Copy)]
pub enum Part {
    PackageDeclaration,
    PackageBody,
    SubprogramDeclaration,
    SubprogramBody,
}

/// A declaration in the visible part of a package (Ada RM 7.1).
#[derive(Clone, Copy)]
pub struct Export {
    pub name: u32,
    pub spot: Spot,
}

/// What a package exports, in the order of the text. Contracts see it as the list of the declarations.
pub struct Exports {
    list: Items<Export>,
    /// Of each name the first declaration.
    first: BTreeMap<u32, Export>,
}

impl Model for Exports {
    ghost use Rattle.std.specs.Prelude.{◌≡◌, ℕ, List};
    ghost use Rattle.std.specs.BTreeMap.{get};
    ghost use Rattle.std.specs.Ordering.{nat_cmp};
    ghost use Rattle.name_library.specs.declared.library.Export.{Export};

    ghost Value = { List Export };

    ghost use Rattle.name_library.specs.Library.{export_named};

    ghost view = { λ a. a.list };

    ghost invariant = { λ a. (n : ℕ) → get nat_cmp a.first n ≡ export_named n a.list };
}

impl Drop for Exports {
    fn drop(self) {
        let Exports { list, first } = self;
        drop(list);
        drop(first);
    }
}

/// Of each name the first declaration.
fn first_of_each(alloc: Global, list: &[Export]) -> Result<BTreeMap<u32, Export>, AllocError>
    ensures { IfOk result (λ first. (n : ℕ) → get nat_cmp first n ≡ export_named n list.now) }
{
    let mut first = BTreeMap::new(alloc);
    let mut left = list.len();
    while left > 0 {
        left -= 1;
        let export = list[left];
        first.insert(export.name, export)?;
    }
    Ok(first)
}

impl Exports {
    pub(crate) fn new(alloc: Global, list: Items<Export>) -> Result<Exports, AllocError>
        ensures { IfOk result (λ it. it ≡ list) }
    {
        let first = first_of_each(alloc, list.as_slice())?;
        Ok(Exports { list, first })
    }

    /// The declaration of a name, the first where there are several.
    pub fn named(&self, name: u32) -> Option<Export>
        ensures { result ≡ export_named name self.now }
    {
        self.first.get(&name).copied()
    }
}

/// A unit: its name and where that stands, the names of its with clauses, and what a package exports.
pub struct LibraryUnit {
    pub name: u32,
    pub spot: Spot,
    pub part: Part,
    pub withs: Items<Ident>,
    pub exports: Exports,
}

impl Drop for LibraryUnit {
    fn drop(self) {
        let LibraryUnit {
            name: _,
            spot: _,
            part: _,
            withs,
            exports,
        } = self;
        drop(withs);
        drop(exports);
    }
}

/// The name of the package or the subprogram whose scope opens.
pub fn opened_ident(scope: Scope) -> Option<Ident>
    ensures { result ≡ opened_ident scope }
{
    match scope {
        Scope::Package(name) => Some(name),
        Scope::PackageBody(name) => Some(name),
        Scope::Subprogram(name, _) => Some(name),
        Scope::Record => None,
        Scope::Loop => None,
        Scope::Quantified => None,
    }
}

fn declared_at(depth: usize, event: Event) -> Option<Ident>
    ensures { result ≡ declared_at depth event }
{
    if depth > 0 {
        return None;
    }
    match event {
        Event::Declares(_, name) => Some(name),
        Event::Opens(scope) => opened_ident(scope),
        _ => None,
    }
}

fn depth_after(depth: usize, event: Event) -> usize
    requires { depth < 2 ^ 63 }
    ensures { result ≡ depth_after depth event }
{
    match event {
        Event::Opens(_) => depth + 1,
        Event::Closes => depth.saturating_sub(1),
        _ => depth,
    }
}

fn is_end(depth: usize, event: Event) -> bool
    ensures { result ≡ is_end depth event }
{
    if depth > 0 {
        return false;
    }
    matches!(event, Event::ListEnds)
}

fn put(found: &mut Items<Export>, file: u32, name: Option<Ident>) -> Result<(), AllocError>
    ensures { OnOk result (found.new ≡ found.old ++ exported_by file name) }
{
    match name {
        Some(ident) => found.push(Export {
            name: ident.name,
            spot: Spot { file, at: ident.at },
        }),
        None => Ok(()),
    }
}

/// What a package exports, by the events after its scope opened: the declarations up to the end of the list, in order.
#[tactic(auto, using(crate::proofs::Walked::ended, crate::proofs::Walked::goes_on))]
fn read_exports(alloc: Global, file: u32, mut events: &[Event]) -> Result<Items<Export>, AllocError>
    ensures { IfOk result (λ found. found ≡ exports file 0 events.entry.now) }
{
    let mut found = Items::new(alloc);
    let mut depth = 0;
    while let [event, rest @ ..] = events {
        if is_end(depth, *event) {
            break;
        }
        put(&mut found, file, declared_at(depth, *event))?;
        depth = depth_after(depth, *event);
        events = rest;
    }
    Ok(found)
}

fn part_of(scope: Scope) -> Part
    ensures { result ≡ part_of scope }
{
    match scope {
        Scope::PackageBody(_) => Part::PackageBody,
        Scope::Subprogram(_, false) => Part::SubprogramDeclaration,
        Scope::Subprogram(_, true) => Part::SubprogramBody,
        _ => Part::PackageDeclaration,
    }
}

fn exports_by(alloc: Global, file: u32, part: Part, events: &[Event]) -> Result<Exports, AllocError>
    ensures { IfOk result (λ found. found ≡ exports_by file part events.now) }
{
    let found = match part {
        Part::PackageDeclaration => read_exports(alloc, file, events)?,
        _ => Items::new(alloc),
    };
    Exports::new(alloc, found)
}

fn unit_opened(
    alloc: Global,
    file: u32,
    scope: Scope,
    withs: Items<Ident>,
    events: &[Event],
) -> Result<Option<LibraryUnit>, AllocError>
    ensures { IfOk result (λ found. found ≡ unit_opened file scope withs (opened_ident scope) events.now) }
{
    let Some(ident) = opened_ident(scope) else {
        drop(withs);
        return Ok(None);
    };
    let part = part_of(scope);
    match exports_by(alloc, file, part, events) {
        Ok(exports) => Ok(Some(LibraryUnit {
            name: ident.name,
            spot: Spot { file, at: ident.at },
            part,
            withs,
            exports,
        })),
        Err(error) => {
            drop(withs);
            Err(error)
        }
    }
}

/// The unit of a file, by its number and its events. `None` where no unit opens among them, which no file's walk tells.
pub fn unit_of(
    alloc: Global,
    file: u32,
    mut events: &[Event],
) -> Result<Option<LibraryUnit>, AllocError>
    ensures { IfOk result (λ found. found ≡ unit_after file [] events.entry.now) }
{
    let mut withs = Items::new(alloc);
    while let [event, rest @ ..] = events {
        match *event {
            Event::With(name) => withs.push(name)?,
            Event::Opens(scope) => return unit_opened(alloc, file, scope, withs, rest),
            _ => {}
        }
        events = rest;
    }
    drop(withs);
    Ok(None)
}
