//! A sink in memory.
ghost use Rattle.std.specs.Prelude.{◌≡◌, ◌-◌, ◌^◌, ◌<◌, [], length, min, IfOk, IsErr, Some};

use crate::failing_calls::{CallList, FailingCalls};
use crate::sink::{Failed, Sink};
use std::alloc::Global;

/// A sink in memory, which tells what was written. Listed calls fail, and so does one that finds no memory.
#[derive(Debug, Drop)]
pub struct ListSink {
    written: Vec<u8>,
    calls: FailingCalls,
    most: usize,
    faults: u64,
    ghost takes_some: { 0 < most },
}

impl ListSink {
    /// An empty sink. The calls of `write` of these numbers fail, counted from 1.
    pub fn new(alloc: Global, failing: CallList) -> ListSink
        ensures empty { result.written.items ≡ [] }
        ensures failing { result.calls ≡ record { made = 0; failing = failing } }
        ensures most { result.most ≡ 2 ^ 64 - 1 }
        ensures no_faults { result.faults ≡ 0 }
    {
        ListSink::taking(alloc, failing, usize::MAX)
    }

    /// Such a sink, of which one call takes at most this many bytes.
    pub fn taking(alloc: Global, failing: CallList, most: usize) -> ListSink
        requires { 0 < most }
        ensures empty { result.written.items ≡ [] }
        ensures failing { result.calls ≡ record { made = 0; failing = failing } }
        ensures most { result.most ≡ most }
        ensures no_faults { result.faults ≡ 0 }
    {
        ListSink {
            written: Vec::new(alloc),
            calls: FailingCalls { made: 0, failing },
            most,
            faults: 0,
        }
    }

    /// The bytes written.
    pub fn bytes(&self) -> &[u8]
        ensures { result.now ≡ self.now.written.items }
    {
        self.written.as_slice()
    }

    /// How many calls of `write` were made, up to 2^64 - 1.
    pub fn calls(&self) -> u64
        ensures { result ≡ self.now.calls.made }
    {
        self.calls.made
    }
}

impl Sink for ListSink {
    ghost use Rattle.keeper_io.specs.Causes.{HasCause};
    ghost use Rattle.keeper_io.specs.Doubles.{one_more, NextFails};
    ghost use Rattle.keeper_io.specs.Pieces.{TakesSome, AddsTaken};

    ghost written = { λ sink. Some sink.written.items };

    ghost faults = { λ sink. sink.faults };

    fn write(&mut self, piece: &[u8]) -> Result<usize, Failed>
        ensures taken { TakesSome result piece.now }
        ensures bytes { AddsTaken (Some self.old.written.items) (Some self.new.written.items) result piece.now }
        ensures cause { HasCause self.old.faults self.new.faults result }

        ensures count { IfOk result (λ n. n ≡ min (length piece.now) self.old.most) }
        ensures listed { NextFails self.old.calls → IsErr result }
        ensures counted { self.new.calls ≡ record self.old.calls { made = one_more self.old.calls.made } }
        ensures most { self.new.most ≡ self.old.most }
    {
        let count = piece.len().min(self.most);
        if !self.calls.next_fails() && self.written.extend_from_slice(&piece[..count]).is_ok() {
            return Ok(count);
        }
        self.faults = self.faults.saturating_add(1);
        Err(Failed)
    }
}
