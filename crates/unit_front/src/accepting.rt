//! Acceptance by the rules of texts, names and types.

ghost use Rattle.std.specs.Prelude.{◌<◌, ◌^◌, IfErr, IfOk, length};
ghost use Rattle.std.specs.List.{sum_by};
ghost use Rattle.unit_front.specs.Accepting.{AreTyped, AreUntyped};
ghost use Rattle.unit_front.specs.Reading.{texts_of};

use crate::files::{FrontRefusal, NamedBytes, SourceList};
use crate::naming::name_files;
use statement_typing::Answer;
use std::alloc::Global;
use type_checker::type_check;
use typed_units::Program;

/// The texts of an accepted program with their syntax trees, and the program, typed.
pub struct AcceptedFiles {
    pub files: SourceList,
    pub program: Program,
}

impl Drop for AcceptedFiles {
    fn drop(self) {
        let AcceptedFiles { files, program } = self;
        drop(files);
        drop(program);
    }
}

/// The program of these files, typed, or the first refusal: lexical errors of all files come before those of the grammar, these
/// before broken rules of names, these before broken rules of types, and then the order of files and places decides. A file is
/// told by its number from 0. `Starved` where memory was refused.
///
/// The files have fewer than 2^31 bytes in all.
pub fn accept(alloc: Global, files: &[NamedBytes]) -> Result<AcceptedFiles, FrontRefusal>
    requires few { length files.now < 2 ^ 32 }
    requires short { sum_by (λ f. length f.bytes) files.now < 2 ^ 31 }
    ensures typed { IfOk result (λ p. AreTyped (texts_of files.now) p.files p.program) }
    ensures refused { IfErr result (λ r. AreUntyped (texts_of files.now) r) }
{
    let sources = name_files(alloc, files)?;
    match type_check(alloc, sources.files.as_slice(), &sources.named) {
        Ok(Answer::Typed(program)) => Ok(AcceptedFiles {
            files: sources.into_files(),
            program,
        }),
        Ok(Answer::Refused(refusal)) => Err(FrontRefusal::Refused(refusal)),
        Err(_) => Err(FrontRefusal::Starved),
    }
}
