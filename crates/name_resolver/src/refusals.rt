//! The refusal of a broken rule of names.

ghost use Rattle.std.specs.Prelude.{◌≡◌, ◌-◌, ◌<◌, ◌^◌, length};
ghost use Rattle.std.specs.List.{sum_by};
ghost use Rattle.name_resolver.specs.Resolved.{code_of, place_of, refusal_of, text_of};
ghost use Rattle.text_lines.specs.Lines.{place_in};

use crate::files::SourceFile;
use ada_text::line_col;
use ada_values::Place;
use front_codes::{Code, Refusal};
use name_library::{Fault, NameFault, Spot};
use std::alloc::AllocError;

/// Why the names of a program aren't resolved.
#[derive(Clone, Copy)]
pub enum NameRefusal {
    /// The first rule of names that is broken, and where.
    Refused(Refusal),
    /// Memory was refused.
    Starved,
}

impl From<AllocError> for NameRefusal {
    ghost use Rattle.name_resolver.specs.declared.refusals.NameRefusal.TheVariants.{Starved};

    ghost from_gives = { λ _ refusal. refusal ≡ Starved };

    fn from(_error: AllocError) -> NameRefusal {
        NameRefusal::Starved
    }
}

fn code_of(rule: NameFault) -> Code
    ensures { result ≡ code_of rule }
{
    match rule {
        NameFault::UnknownName => Code::UnknownName,
        NameFault::AmbiguousName => Code::AmbiguousName,
        NameFault::Duplicate => Code::Duplicate,
        NameFault::Overloaded => Code::Overloaded,
        NameFault::WithCycle => Code::WithCycle,
        NameFault::MissingBody => Code::MissingBody,
        NameFault::SpecMismatch => Code::SpecMismatch,
        NameFault::LeftOut => Code::LeftOut,
    }
}

/// The place of a byte of a text. A byte past the end stands at the end.
fn place_in(text: &[u8], file: u32, at: u32) -> Place
    requires { length text.now < 2 ^ 32 - 1 }
    ensures { result ≡ place_in text.now file at }
{
    let (line, column) = line_col(text, at.min(text.len() as u32));
    Place { file, line, column }
}

/// The text of a file by its number; none where there is no such file.
fn text_of(files: &[SourceFile], number: usize) -> &[u8]
    requires { sum_by (λ f. length f.text) files.now < 2 ^ 31 }
    ensures value { result.now ≡ text_of files.now number }
    ensures short { length result.now < 2 ^ 31 }
{
    if number < files.len() {
        files[number].text.as_slice()
    } else {
        &[]
    }
}

/// The place of a byte of a file.
fn place_of(files: &[SourceFile], spot: Spot) -> Place
    requires { sum_by (λ f. length f.text) files.now < 2 ^ 31 }
    ensures { result ≡ place_of files.now spot }
{
    place_in(text_of(files, spot.file as usize), spot.file, spot.at)
}

pub fn refusal_of(files: &[SourceFile], fault: Fault) -> Refusal
    requires { sum_by (λ f. length f.text) files.now < 2 ^ 31 }
    ensures { result ≡ refusal_of files.now fault }
{
    Refusal {
        code: code_of(fault.rule),
        place: place_of(files, fault.spot),
    }
}
