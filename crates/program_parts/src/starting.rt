//! What is there before the first declaration is typed.

ghost use Rattle.std.specs.Prelude.{◌≡◌, [], IfOk, map};
ghost use Rattle.program_scope.specs.Homes.{file_of};
ghost use Rattle.program_parts.specs.Starts.{start_with};
ghost use Rattle.statement_typing.specs.Units as units;

use crate::Starved;
use crate::packages::declared_text;
use ada_values::{NameText, Place};
use name_library::Spot;
use program_scope::File;
use sqlite_items::Items;
use statement_typing::{Draft, Subs, Variable};
use std::alloc::Global;
use type_base::{Routine, World};
use typed_units::{Global as Object, Sub};

fn no_routine(_spot: Spot) -> Routine
    ensures { result ≡ units.no_routine _spot }
{
    Routine {
        first: 0,
        count: 0,
        result: None,
    }
}

fn blank_sub(alloc: Global, name: &[u8]) -> Result<Sub, Starved>
    ensures { IfOk result (λ sub. sub ≡ units.blank_sub name.now) }
{
    let name = NameText::from_bytes(alloc, name)?;
    Ok(Sub {
        name,
        place: Place {
            file: 0,
            line: 0,
            column: 0,
        },
        params: Items::new(alloc),
        result: None,
        pre: None,
        post: None,
        global: None,
        locals: Items::new(alloc),
        turns: 0,
        indexes: 0,
        loops: 0,
        opening: Items::new(alloc),
        body: Items::new(alloc),
    })
}

fn blank_subs(alloc: Global, files: &[File], mut routines: &[Spot]) -> Result<Subs, Starved>
    ensures { IfOk result (λ subs. subs ≡ map (λ s. units.blank_sub (units.declared_text (map file_of files.now) s)) routines.entry.now) }
{
    let mut subs = Subs::new(alloc);
    while let [routine, rest @ ..] = routines {
        let sub = blank_sub(alloc, declared_text(files, *routine))?;
        subs.push(sub)?;
        routines = rest;
    }
    Ok(subs)
}

fn blank_routines(alloc: Global, mut routines: &[Spot]) -> Result<Items<Routine>, Starved>
    ensures { IfOk result (λ found. found ≡ map units.no_routine routines.entry.now) }
{
    let mut found = Items::new(alloc);
    while let [routine, rest @ ..] = routines {
        found.push(no_routine(*routine))?;
        routines = rest;
    }
    Ok(found)
}

fn blank_globals(alloc: Global, mut variables: &[Variable]) -> Result<Items<Object>, Starved>
    ensures { IfOk result (λ found. found ≡ map units.blank_global variables.entry.now) }
{
    let mut found = Items::new(alloc);
    while let [variable, rest @ ..] = variables {
        let name = variable.name.copy(alloc)?;
        found.push(Object {
            name,
            subtype: 0,
            initial: None,
        })?;
        variables = rest;
    }
    Ok(found)
}

fn standard_names(alloc: Global) -> Result<Items<Option<NameText>>, Starved>
    ensures { IfOk result (λ names. names ≡ units.standard_names) }
{
    let mut names = Items::new(alloc);
    names.push(Some(NameText::from_bytes(alloc, b"Boolean")?))?;
    names.push(None)?;
    names.push(Some(NameText::from_bytes(alloc, b"Integer")?))?;
    names.push(Some(NameText::from_bytes(alloc, b"Natural")?))?;
    names.push(Some(NameText::from_bytes(alloc, b"Positive")?))?;
    names.push(None)?;
    names.push(Some(NameText::from_bytes(alloc, b"Long_Long_Integer")?))?;
    Ok(names)
}

fn start_world(alloc: Global, routines: &[Spot]) -> Result<World, Starved>
    ensures { IfOk result (λ world. world ≡ (start_with [] [] routines.now).world) }
{
    let mut world = World::standard(alloc)?;
    world.routines = blank_routines(alloc, routines)?;
    Ok(world)
}

/// A program of these files, of which nothing but package Standard is typed: its variables and its subprograms have their names
/// alone. `Err` where memory was refused.
pub fn start(
    alloc: Global,
    files: &[File],
    variables: &[Variable],
    routines: &[Spot],
) -> Result<Draft, Starved>
    ensures { IfOk result (λ draft. draft ≡ start_with (map file_of files.now) variables.now routines.now) }
{
    let world = start_world(alloc, routines)?;
    let names = standard_names(alloc)?;
    let globals = blank_globals(alloc, variables)?;
    let subs = blank_subs(alloc, files, routines)?;
    Ok(Draft {
        world,
        names,
        globals,
        subs,
        locals: Items::new(alloc),
        opening: Items::new(alloc),
    })
}
