//! Files are got from the keeper.

ghost use Rattle.std.specs.Prelude.{◌≡◌, ◌≢◌, ◌≤◌, IfOk, None, [], length, nat_le};
ghost use Rattle.keeper_io.specs.Causes.{Rose};
ghost use Rattle.gnatprove_core.specs.Answers.{Answers, AnswersFrom, AnswersGot, most_files, most_source_bytes, source_bytes};
ghost use Rattle.gnatprove_core.specs.Words.{files_of as files_named};

use crate::answer::{Answer, fault, missing, past_limit, usage};
use crate::program::answer_read;
use crate::status::Status;
use crate::words::files_of;
use ada_values::{NameText, Starved, WordList};
use keeper_io::{KeepFault, Keeper};
use sqlite_items::Items;
use std::alloc::Global;
use unit_front::NamedBytes;

/// The most files of a program.
const MOST_FILES: usize = 64;

/// The most bytes that these may have in all.
const MOST_SOURCE_BYTES: usize = 1048576;

/// Whether the files have no more bytes in all than they may have.
fn are_within(mut files: &[NamedBytes]) -> bool
    ensures { result ≡ nat_le (source_bytes files.entry.now) most_source_bytes }
{
    let mut left = MOST_SOURCE_BYTES;
    while let [file, rest @ ..] = files {
        if file.bytes.len() > left {
            return false;
        }
        left -= file.bytes.len();
        files = rest;
    }
    true
}

/// The answer to files that were got.
fn answer_got(alloc: Global, files: &[NamedBytes]) -> Result<Answer, Starved>
    requires some { files.now ≢ [] }
    requires few { length files.now ≤ most_files }
    ensures { IfOk result (λ answer. AnswersGot files.now answer.status answer.text) }
{
    if are_within(files) {
        answer_read(alloc, files)
    } else {
        past_limit(alloc, "source bytes")
    }
}

/// The answer to files of these names, in order.
#[tactic(auto, using(crate::proofs::Getting::at_first))]
fn answer_from<K: Keeper>(
    alloc: Global,
    mut names: &[NameText],
    files: &mut K,
) -> Result<Answer, Starved>
    requires some { names.now ≢ [] }
    requires few { length names.now ≤ most_files }
    ensures answer { IfOk result (λ answer. AnswersFrom (K.told files.old) [] names.entry.now answer.status answer.text) }
    ensures fault { IfOk result (λ answer. answer.status ≡ Status.ReadFault → Rose (K.get_faults files.old) (K.get_faults files.new)) }
    ensures kept { IfOk result (λ answer. (answer.status ≡ Status.ReadFault → ⊥) → K.get_faults files.new ≡ K.get_faults files.old) }
    ensures map { K.told files.new ≡ K.told files.old }
    ensures puts { K.put_faults files.new ≡ K.put_faults files.old }
{
    let mut got = Items::new(alloc);
    while let [name, rest @ ..] = names {
        let copy = name.copy(alloc)?;
        match files.get(alloc, name) {
            Ok(Some(bytes)) => got.push(NamedBytes { name: copy, bytes })?,
            Ok(None) => return missing(alloc, name),
            Err(KeepFault::Failed) => return fault(alloc, name),
            Err(KeepFault::Starved) => return Err(Starved),
        }
        names = rest;
    }
    answer_got(alloc, got.as_slice())
}

/// The answer to the words.
pub fn answer_to<K: Keeper>(
    alloc: Global,
    words: &WordList,
    files: &mut K,
) -> Result<Answer, Starved>
    ensures answer { IfOk result (λ answer. Answers (K.told files.old) words.now answer.status answer.text) }
    ensures fault { IfOk result (λ answer. answer.status ≡ Status.ReadFault → Rose (K.get_faults files.old) (K.get_faults files.new)) }
    ensures kept { IfOk result (λ answer. (answer.status ≡ Status.ReadFault → ⊥) → K.get_faults files.new ≡ K.get_faults files.old) }
    ensures map { K.told files.new ≡ K.told files.old }
    ensures puts { K.put_faults files.new ≡ K.put_faults files.old }
    ensures untouched { files_named words.now ≡ None → files.new ≡ files.old }
{
    let Some(names) = files_of(words) else {
        return usage(alloc);
    };
    if names.len() <= MOST_FILES {
        answer_from(alloc, names, files)
    } else {
        past_limit(alloc, "files")
    }
}
