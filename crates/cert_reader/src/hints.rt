//! The numbers of earlier lines at the end of a line.

ghost use Rattle.std.specs.Prelude.{◌≡◌, ◌<◌, ◌≤◌, ◌++◌, ℕ, List, length, drop, IfOk, IfErr};
ghost use Rattle.term_reader.specs.Bytes.{first};
ghost use Rattle.logic_text.specs.Certs.{numbers_text};
ghost use Rattle.term_reader.specs.Phases.{IsUpTo, IsBadAt};
ghost use Rattle.cert_reader.specs.Phases.{hints as hints_phase, ended, Has};

use crate::numbers::read_index;
use cert_lines::HintList;
use sqlite_items::Items;
use std::alloc::Global;
use term_reader::{ReadFault, byte_at};

/// Reads a space and a number.
fn read_hint(bytes: &[u8], at: usize, hints: &mut HintList) -> Result<usize, ReadFault>
    requires place { at ≤ length bytes.now }
    requires space { first (drop at bytes.now) ≡ 32 }
    ensures before { IfOk result (λ to. at < to) }
    ensures inside { IfOk result (λ to. to ≤ length bytes.now) }
    ensures text { IfOk result (λ to. (s : List ℕ)
        → s ≡ numbers_text hints.old ++ drop at bytes.now
        → s ≡ numbers_text hints.new ++ drop to bytes.now) }
    ensures on { IfOk result (λ to. IsUpTo (Has hints_phase) (drop at bytes.now) (Has hints_phase) (drop to bytes.now)) }
    ensures fault { IfErr result (λ f. IsBadAt (Has hints_phase) bytes.now at f) }
{
    match read_index(bytes, at) {
        Err(fault) => Err(fault),
        Ok(read) => match hints.push(read.value) {
            Err(_) => Err(ReadFault::Starved),
            Ok(()) => Ok(read.to),
        },
    }
}

/// Hints that are read, and the place after them.
#[derive(Drop)]
pub struct Hints {
    pub hints: HintList,
    pub to: usize,
}

/// Reads numbers up to the end of the line.
pub fn read_hints(alloc: Global, bytes: &[u8], at: usize) -> Result<Hints, ReadFault>
    requires { at ≤ length bytes.now }
    ensures before { IfOk result (λ r. at ≤ r.to) }
    ensures inside { IfOk result (λ r. r.to ≤ length bytes.now) }
    ensures text { IfOk result (λ r. drop at bytes.now ≡ numbers_text r.hints ++ drop r.to bytes.now) }
    ensures on { IfOk result (λ r. IsUpTo (Has hints_phase) (drop at bytes.now) (Has ended) (drop r.to bytes.now)) }
    ensures fault { IfErr result (λ f. IsBadAt (Has hints_phase) bytes.now at f) }
{
    let mut hints = Items::new(alloc);
    let mut to = at;
    while byte_at(bytes, to) == 32 {
        match read_hint(bytes, to, &mut hints) {
            Err(fault) => return Err(fault),
            Ok(next) => to = next,
        }
    }
    Ok(Hints { hints, to })
}
