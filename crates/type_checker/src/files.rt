//! The files of a program, in an order in which each unit stands after the declarations that it withs (Ada RM 10.1.4).

ghost use Rattle.std.specs.Prelude.{◌≡◌, ◌<◌, ◌^◌, [], IfOk, None, OnOk, length, map, option_map, slice_get};
ghost use Rattle.program_scope.specs.Homes.{file_of};
ghost use Rattle.statement_typing.specs.Tellings as tellings;
ghost use Rattle.statement_typing.specs.Units as units;
ghost use Rattle.type_checker.specs.Sources as seen;

use crate::Starved;
use crate::units::unit_declared;
use name_resolver::{Named, SourceFile};
use program_scope::{File, Home, SpotRanks};
use reading_scope::Numbers;
use sqlite_items::Items;
use statement_typing::Draft;
use std::alloc::{AllocError, Global};
use type_base::Refusal;

/// The file of a number, where there is one with all that is to be known of it.
fn file_at<'a>(sources: &'a [SourceFile], named: &'a Named, number: u32) -> Option<File<'a>>
    ensures { option_map file_of result ≡ seen.file_at number sources.now named.now.tables named.now.lines named.now.links }
{
    let at = number as usize;
    let source = sqlite_items::at(sources, at)?;
    let names = sqlite_items::at(named.tables.as_slice(), at)?;
    let starts = sqlite_items::at(named.lines.as_slice(), at)?;
    Some(File {
        unit: &source.unit,
        number,
        text: source.text.as_slice(),
        lines: starts,
        links: &named.links,
        names,
    })
}

/// The files as the rules of types see them. `Err` where memory was refused, as it is for 2^32 files or more.
pub(crate) fn files_of<'a>(
    alloc: Global,
    sources: &'a [SourceFile],
    named: &'a Named,
) -> Result<Items<File<'a>>, Starved>
    ensures { IfOk result (λ files. map file_of files ≡ seen.files_of sources.now named.now.tables named.now.lines named.now.links) }
{
    let mut files = Items::new(alloc);
    let mut number: u32 = 0;
    while let Some(file) = file_at(sources, named, number) {
        files.push(file)?;
        let Some(next) = number.checked_add(1) else {
            return Err(AllocError);
        };
        number = next;
    }
    Ok(files)
}

/// What all files of a program share where their declarations stand.
#[derive(Clone, Copy)]
pub(crate) struct Shared<'a> {
    pub globals: &'a SpotRanks,
    pub routines: &'a SpotRanks,
    pub numbers: &'a Numbers,
}

/// The unit of the file of a number is typed. `Err` where memory was refused.
#[tactic(auto, using(program_parts::proofs::Dropped::one_of_mapped))]
fn file_declared(
    alloc: Global,
    files: &[File],
    shared: Shared,
    number: u32,
    draft: &mut Draft,
    told: Option<Refusal>,
) -> Result<Option<Refusal>, Starved>
    requires globals { shared.globals.now ≡ map (λ v. v.spot) (units.variables (map file_of files.now) (map file_of files.now)) }
    requires routines { shared.routines.now ≡ units.routines (map file_of files.now) }
    requires numbers { shared.numbers.now ≡ [] }
    ensures draft { OnOk result (draft.new ≡ units.file_declared (map file_of files.now) (slice_get (map file_of files.now) number) draft.old) }
    ensures told { IfOk result (λ t. t ≡ tellings.file_told (map file_of files.now) (slice_get (map file_of files.now) number) draft.old told) }
{
    match sqlite_items::at(files, number as usize) {
        None => Ok(told),
        Some(file) => {
            let home = Home {
                file,
                own: None,
                numbers: shared.numbers,
                globals: shared.globals,
                routines: shared.routines,
            };
            unit_declared(alloc, &home, file.unit.unit.form.get(), draft, told)
        }
    }
}

/// The units of files are typed, in this order of their numbers. `Err` where memory was refused.
pub(crate) fn files_declared(
    alloc: Global,
    files: &[File],
    shared: Shared,
    mut order: &[u32],
    draft: &mut Draft,
) -> Result<Option<Refusal>, Starved>
    requires globals { shared.globals.now ≡ map (λ v. v.spot) (units.variables (map file_of files.now) (map file_of files.now)) }
    requires routines { shared.routines.now ≡ units.routines (map file_of files.now) }
    requires numbers { shared.numbers.now ≡ [] }
    ensures draft { OnOk result (draft.new ≡ units.files_declared (map file_of files.now) order.entry.now draft.old) }
    ensures told { IfOk result (λ t. t ≡ tellings.files_told (map file_of files.now) order.entry.now draft.old None) }
{
    let mut told = None;
    while let [number, rest @ ..] = order {
        told = file_declared(alloc, files, shared, *number, draft, told)?;
        order = rest;
    }
    Ok(told)
}
