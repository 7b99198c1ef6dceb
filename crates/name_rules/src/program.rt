//! What the rules of names say of a program.

ghost use Rattle.std.specs.Prelude.{◌≡◌, IfOk};
ghost use Rattle.name_rules.specs.Faults.{answer, told};

use crate::demands::put_all_units;
use crate::files::put_all_files;
use crate::first::first_fault;
use name_library::{Event, Fault, Library, Starved, Usage};
use sqlite_items::Items;
use std::alloc::Global;

/// What the rules of names say of a program.
pub enum Answer {
    /// The first of the rules that are broken, by file, place and rule.
    Refused(Fault),
    /// What each identifier stands for, in the order of files and of the text.
    Named(Items<Usage>),
}

fn told(first: Option<Fault>, usages: Items<Usage>) -> Answer
    ensures { result ≡ told first usages }
{
    match first {
        Some(fault) => {
            drop(usages);
            Answer::Refused(fault)
        }
        None => Answer::Named(usages),
    }
}

/// The first broken rule of a program, or what each of its identifiers stands for, by the events of its files.
///
/// `Starved` tells want of memory, which is also told where there are 2^32 files or more.
pub fn answer_of(alloc: Global, files: &[Items<Event>]) -> Result<Answer, Starved>
    ensures { IfOk result (λ found. found ≡ answer files.now) }
{
    let library = Library::new(alloc, files)?;
    let mut faults = Items::new(alloc);
    let mut usages = Items::new(alloc);
    put_all_units(alloc, &mut faults, &library)?;
    put_all_files(alloc, &mut faults, &mut usages, files, &library)?;
    Ok(told(first_fault(faults.as_slice()), usages))
}
