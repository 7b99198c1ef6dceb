//! All files are read.

ghost use Rattle.std.specs.Prelude.{◌≡◌, ◌<◌, ◌≤◌, ◌-◌, ◌^◌, IfErr, IfOk, OnOk, length};
ghost use Rattle.unit_front.specs.Reading.{AreShort, HaveFirst, HaveTrees, IsOf, texts_of};
ghost use Rattle.unit_front.specs.Sofar.{HaveLed, else_refusal, noted, refusal_in};

use crate::files::{FrontRefusal, NamedBytes, SourceList};
use crate::reading::{FileRead, read_file};
use ada_values::Starved;
use front_codes::Refusal;
use sqlite_items::Items;
use std::alloc::Global;

/// What was found in the files so far: the first refusal of each stage, and the trees.
pub struct Sofar {
    pub lexical: Option<Refusal>,
    pub syntactic: Option<Refusal>,
    pub files: SourceList,
}

impl Drop for Sofar {
    fn drop(self) {
        let Sofar {
            lexical: _,
            syntactic: _,
            files,
        } = self;
        drop(files);
    }
}

fn else_refusal(first: Option<Refusal>, other: Option<Refusal>) -> Option<Refusal>
    ensures { result ≡ else_refusal first other }
{
    match first {
        Some(refusal) => Some(refusal),
        None => other,
    }
}

impl Sofar {
    fn note(&mut self, file: FileRead) -> Result<(), Starved>
        ensures { OnOk result (self.new ≡ noted self.old file) }
    {
        match file {
            FileRead::Lexical(refusal) => {
                self.lexical = else_refusal(self.lexical, Some(refusal));
                Ok(())
            }
            FileRead::Syntactic(refusal) => {
                self.syntactic = else_refusal(self.syntactic, Some(refusal));
                Ok(())
            }
            FileRead::Tree(file) => self.files.push(file),
        }
    }

    /// The trees, or the first refusal.
    fn into_trees(self) -> Result<SourceList, FrontRefusal>
        ensures trees { IfOk result (λ files. (refusal_in self ≡ None) × (files ≡ self.files)) }
        ensures refused { IfErr result (λ r. (f : Refusal) × (refusal_in self ≡ Some f) × (r ≡ FrontRefusal.Refused f)) }
    {
        let first = else_refusal(self.lexical, self.syntactic);
        let Sofar {
            lexical: _,
            syntactic: _,
            files,
        } = self;
        match first {
            Some(refusal) => {
                drop(files);
                Err(FrontRefusal::Refused(refusal))
            }
            None => Ok(files),
        }
    }
}

/// What is found in all files.
#[tactic(auto, using(crate::proofs::Leading::at_start))]
fn found_in(alloc: Global, mut files: &[NamedBytes]) -> Result<Sofar, Starved>
    requires few { length files.now < 2 ^ 32 }
    requires short { AreShort (texts_of files.now) }
    ensures { IfOk result (λ found. HaveLed (texts_of files.entry.now) found) }
{
    let mut found = Sofar {
        lexical: None,
        syntactic: None,
        files: Items::new(alloc),
    };
    let mut number = 0;
    while let [file, rest @ ..] = files {
        found.note(read_file(alloc, number, file.bytes.as_slice())?)?;
        number += 1;
        files = rest;
    }
    Ok(found)
}

/// The syntax trees of files, in their order, or the first refusal: lexical errors of all files come before those of the
/// grammar, and then the order of the files decides. A file is told by its number from 0.
///
/// There are fewer than 2^32 files, each of fewer than 2^32 - 1 bytes.
#[tactic(auto, using(crate::proofs::Leading::refusal_in_file))]
pub fn read_files(alloc: Global, files: &[NamedBytes]) -> Result<SourceList, FrontRefusal>
    requires few { length files.now < 2 ^ 32 }
    requires short { AreShort (texts_of files.now) }
    ensures trees { IfOk result (λ found. HaveTrees (texts_of files.now) found) }
    ensures refused { IfErr result (λ r. HaveFirst (texts_of files.now) r) }
    ensures file { IfErr result (λ r. IsOf (length files.now) r) }
{
    found_in(alloc, files)?.into_trees()
}
