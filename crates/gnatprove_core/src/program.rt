//! The answer to the texts of files.

ghost use Rattle.std.specs.Prelude.{◌≡◌, ◌≢◌, ◌<◌, ◌≤◌, ◌-◌, ◌^◌, IfOk, [], length, unwrap_or};
ghost use Rattle.std.specs.Option.{option_copied};
ghost use Rattle.first_form.specs.Form.{IsForm};
ghost use Rattle.first_form.specs.Places.{first_unknown};
ghost use Rattle.first_form.specs.Tree.{form_of};
ghost use Rattle.unit_front.specs.Reading.{texts_of};
ghost use Rattle.gnatprove_core.specs.Answers.{AnswersForm, AnswersRead, AnswersTree, AnswersTrees, RefusesAt, most_files, most_source_bytes, name_at, source_bytes};

use crate::answer::{Answer, refusal};
use crate::report::report;
use ada_tree::SourceUnit;
use ada_values::{NameText, Starved};
use first_form::{FirstForm, FormFault, first_unknown, form_of};
use front_codes::{Refusal, text_of};
use name_resolver::SourceFile;
use std::alloc::Global;
use unit_front::{FrontRefusal, NamedBytes, accept};

/// The answer to a form.
fn answer_form(alloc: Global, name: &NameText, form: &FirstForm) -> Result<Answer, Starved>
    requires { IsForm form.now }
    ensures { IfOk result (λ answer. AnswersForm name.now form.now (first_unknown form.now) answer.status answer.text) }
{
    match first_unknown(form) {
        Some(_) => refusal(alloc, name, 1, 1, "NotBuilt"),
        None => report(alloc, name, form),
    }
}

/// The answer to the tree of the only file.
fn answer_tree(
    alloc: Global,
    name: &NameText,
    bytes: &[u8],
    unit: &SourceUnit,
) -> Result<Answer, Starved>
    requires { length bytes.now < 2 ^ 32 - 1 }
    ensures { IfOk result (λ answer. AnswersTree name.now (form_of bytes.now unit.now) answer.status answer.text) }
{
    match form_of(alloc, bytes, unit) {
        Ok(form) => answer_form(alloc, name, &form),
        Err(FormFault::NotBuilt) => refusal(alloc, name, 1, 1, "NotBuilt"),
        Err(FormFault::Starved) => Err(Starved),
    }
}

/// The answer to the trees of files.
fn answer_trees(
    alloc: Global,
    files: &[NamedBytes],
    sources: &[SourceFile],
) -> Result<Answer, Starved>
    requires some { files.now ≢ [] }
    requires short { source_bytes files.now ≤ most_source_bytes }
    ensures { IfOk result (λ answer. AnswersTrees files.now sources.now answer.status answer.text) }
{
    match files {
        [file] => match sources {
            [source] => answer_tree(alloc, &file.name, file.bytes.as_slice(), &source.unit),
            _ => refusal(alloc, &file.name, 1, 1, "NotBuilt"),
        },
        [file, ..] => refusal(alloc, &file.name, 1, 1, "NotBuilt"),
        [] => unreachable!(),
    }
}

/// The name of the file of this number, where there is one.
fn name_at(mut files: &[NamedBytes], mut number: u32) -> Option<&NameText>
    ensures { unwrap_or (option_copied result) [] ≡ name_at files.entry.now number }
{
    while let [file, rest @ ..] = files {
        if number == 0 {
            return Some(&file.name);
        }
        number -= 1;
        files = rest;
    }
    None
}

/// The answer to a refusal of one of the files.
fn answer_refusal(alloc: Global, files: &[NamedBytes], refused: Refusal) -> Result<Answer, Starved>
    ensures { IfOk result (λ answer. RefusesAt files.now refused answer.status answer.text) }
{
    let (line, column) = (refused.place.line, refused.place.column);
    match name_at(files, refused.place.file) {
        Some(name) => refusal(alloc, name, line, column, text_of(refused.code)),
        None => {
            let nameless = NameText::from_bytes(alloc, b"")?;
            refusal(alloc, &nameless, line, column, text_of(refused.code))
        }
    }
}

/// The answer to the texts of files that are within the limits.
pub fn answer_read(alloc: Global, files: &[NamedBytes]) -> Result<Answer, Starved>
    requires some { files.now ≢ [] }
    requires few { length files.now ≤ most_files }
    requires short { source_bytes files.now ≤ most_source_bytes }
    ensures { IfOk result (λ answer. AnswersRead files.now answer.status answer.text) }
{
    match accept(alloc, files) {
        Ok(program) => answer_trees(alloc, files, program.files.as_slice()),
        Err(FrontRefusal::Refused(refused)) => answer_refusal(alloc, files, refused),
        Err(FrontRefusal::Starved) => Err(Starved),
    }
}
