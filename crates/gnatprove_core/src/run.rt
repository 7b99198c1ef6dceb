//! A run of the program on one thread.

ghost use Rattle.std.specs.Prelude.{◌≡◌, None};
ghost use Rattle.keeper_io.specs.Causes.{Rose};
ghost use Rattle.gnatprove_core.specs.Statuses.{IsAnswer};
ghost use Rattle.gnatprove_core.specs.Answers.{Ends, IsCut};
ghost use Rattle.gnatprove_core.specs.Sound.{IsComplete, IsSound};
ghost use Rattle.gnatprove_core.specs.Words.{files_of};

use crate::files::answer_to;
use crate::status::Status;
use ada_values::WordList;
use keeper_io::{Keeper, Sink, write_all};
use std::alloc::Global;

/// Runs the program on the words of its command line, without the program's own name: reads the files that they name from
/// the keeper, writes the answer to the sink, and says how it ended. `Proved` says that no run of the file's program fails
/// at any check. Words without a reading leave the keeper as it was.
///
/// It starts no thread, waits for nobody, and always returns. `Starved` may come at any point, and then nothing was
/// written.
pub fn run_alone<K: Keeper, S: Sink>(
    alloc: Global,
    words: &WordList,
    files: &mut K,
    out: &mut S,
) -> Status
    ensures ends { Ends (K.told files.old) words.now result (S.written out.old) (S.written out.new) }
    ensures sound { IsSound (K.told files.old) words.now (S.written out.old) (S.written out.new) }
    ensures complete { IsComplete (K.told files.old) words.now result }

    ensures read_fault { result ≡ Status.ReadFault → Rose (K.get_faults files.old) (K.get_faults files.new) }
    ensures cut { result ≡ Status.WriteFault → IsCut (K.told files.old) words.now (K.get_faults files.old) (K.get_faults files.new) (S.written out.old) (S.written out.new) }
    ensures no_read_fault { IsAnswer result → K.get_faults files.new ≡ K.get_faults files.old }
    ensures write_fault { result ≡ Status.WriteFault → Rose (S.faults out.old) (S.faults out.new) }
    ensures no_write_fault { (result ≡ Status.WriteFault → ⊥) → S.faults out.new ≡ S.faults out.old }

    ensures files_stay { K.told files.new ≡ K.told files.old }
    ensures no_puts { K.put_faults files.new ≡ K.put_faults files.old }
    ensures untouched { files_of words.now ≡ None → files.new ≡ files.old }
{
    let Ok(answer) = answer_to(alloc, words, files) else {
        return Status::Starved;
    };
    match write_all(out, answer.text.as_slice()) {
        Ok(()) => answer.status,
        Err(_) => Status::WriteFault,
    }
}
