//! Standard output as a sink.
ghost use Rattle.std.specs.Prelude.{◌≡◌, IfOk, IfErr, None};
ghost use Rattle.std.specs.IoError.{error_kind};
ghost use Rattle.keeper_io.specs.Decisions.{decision_on_count, EitherWay};
ghost use Rattle.keeper_io.specs.Pieces.{TakesSome};

use crate::sink::{Failed, Sink};
use std::io;
use std::io::ErrorKind;

/// The standard output of the runtime `R`. It doesn't tell what was written.
#[derive(Drop)]
pub struct OutSink<R> {
    to: R,
    faults: u64,
}

/// How often a write that was interrupted is tried again.
const MOST_TRIES: u32 = 1000;

impl<R: Print> OutSink<R> {
    /// The standard output of the runtime.
    pub fn new(to: R) -> OutSink<R>
        ensures { result ≡ record { to = to; faults = 0 } }
    {
        OutSink { to, faults: 0 }
    }
}

/// What is to be done after a write.
#[derive(Clone, Copy, Debug, PartialEq, Eq)]
enum Decision {
    /// So many bytes were taken.
    Take(usize),
    /// The write was interrupted, and is to be tried again.
    TryAgain,
    /// The write failed.
    Fail,
}

/// The decision on the result of a write, where so many bytes were given. No bytes taken of some is a failure, and so is each
/// error but an interruption.
fn decision_on(written: io::Result<usize>, given: usize) -> Decision
    ensures count { IfOk written (λ n. result ≡ decision_on_count n given) }
    ensures error { IfErr written (λ e. EitherWay (error_kind e ≡ ErrorKind.Interrupted) (result ≡ Decision.TryAgain) (result ≡ Decision.Fail)) }
{
    match written {
        Ok(0) if 0 < given => Decision::Fail,
        Ok(count) => Decision::Take(count),
        Err(error) if error.kind() == ErrorKind::Interrupted => Decision::TryAgain,
        Err(_) => Decision::Fail,
    }
}

/// Writes once, and again while that is interrupted.
fn write_some<R: Print>(to: &R, piece: &[u8]) -> Result<usize, Failed>
    ensures { TakesSome result piece.now }
{
    for _ in 0..MOST_TRIES {
        match decision_on(to.write_some(piece), piece.len()) {
            Decision::Take(count) => return Ok(count),
            Decision::TryAgain => {}
            Decision::Fail => return Err(Failed),
        }
    }
    Err(Failed)
}

impl<R: Print> Sink for OutSink<R> {
    ghost written = { λ _. None };

    ghost faults = { λ sink. sink.faults };

    fn write(&mut self, piece: &[u8]) -> Result<usize, Failed> {
        let answer = write_some(&self.to, piece);
        if answer.is_err() {
            self.faults = self.faults.saturating_add(1);
        }
        answer
    }
}
