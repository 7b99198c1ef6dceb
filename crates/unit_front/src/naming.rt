//! The names of all files.

ghost use Rattle.std.specs.Prelude.{◌≡◌, ◌<◌, ◌^◌, IfErr, IfOk, length, map};
ghost use Rattle.std.specs.List.{sum_by};
ghost use Rattle.name_library.specs.Chains.{IsFileOrder};
ghost use Rattle.name_library.specs.Library.{library};
ghost use Rattle.name_numbers.specs.Numbers.{numbered};
ghost use Rattle.name_resolver.specs.Resolved as sources;
ghost use Rattle.name_resolver.specs.Resolved.{events_of, order_by};
ghost use Rattle.text_lines.specs.Lines.{line_starts};
ghost use Rattle.unit_front.specs.Naming.{AreNamed, AreRefused};
ghost use Rattle.unit_front.specs.Reading.{texts_of};

use crate::files::{FrontRefusal, NamedBytes, SourceList};
use crate::trees::read_files;
use name_resolver::{Named, resolve};
use std::alloc::Global;

/// The files of a program that obeys the rules of names, with what their identifiers stand for.
pub struct NamedFiles {
    pub files: SourceList,
    pub named: Named,
}

impl Drop for NamedFiles {
    fn drop(self) {
        let NamedFiles { files, named } = self;
        drop(files);
        drop(named);
    }
}

impl NamedFiles {
    /// The files alone.
    pub fn into_files(self) -> SourceList
        ensures { result ≡ self.files }
    {
        let NamedFiles { files, named } = self;
        drop(named);
        files
    }
}

/// The texts of files with their syntax trees and what their names stand for, or the first refusal: lexical errors of all files
/// come before those of the grammar, these before broken rules of names, and then the order of files and places decides. A file
/// is told by its number from 0.
///
/// The files have fewer than 2^31 bytes in all.
pub fn name_files(alloc: Global, files: &[NamedBytes]) -> Result<NamedFiles, FrontRefusal>
    requires few { length files.now < 2 ^ 32 }
    requires short { sum_by (λ f. length f.bytes) files.now < 2 ^ 31 }
    ensures named { IfOk result (λ p. AreNamed (texts_of files.now) p.files p.named.links) }
    ensures tables { IfOk result (λ p. p.named.tables ≡ numbered (sources.texts_of p.files)) }
    ensures lines { IfOk result (λ p. p.named.lines ≡ map line_starts (sources.texts_of p.files)) }
    ensures order { IfOk result (λ p. p.named.order ≡ order_by (events_of p.files)) }
    ensures whole { IfOk result (λ p. IsFileOrder (library (events_of p.files)) (length p.files) p.named.order) }
    ensures refused { IfErr result (λ r. AreRefused (texts_of files.now) r) }
{
    let sources = read_files(alloc, files)?;
    match resolve(alloc, sources.as_slice()) {
        Ok(named) => Ok(NamedFiles {
            files: sources,
            named,
        }),
        Err(refusal) => Err(refusal.into()),
    }
}
