//! A sink of bytes, such as standard output.
ghost use Rattle.std.specs.Prelude.{◌≡◌, ℕ, List, OnOk, OnErr};
ghost use Rattle.std.specs.declared.option.Option.{Option};
ghost use Rattle.std.specs.Io.KnownBytes.{append_known};
ghost use Rattle.keeper_io.specs.Causes.{HasCause};
ghost use Rattle.keeper_io.specs.Pieces.{TakesSome, AddsTaken, AddsPart};

use thiserror::Error;

/// The answer of a sink that failed, and has counted that.
#[derive(Clone, Copy, Debug, PartialEq, Eq, Error)]
#[error("the sink failed")]
pub struct Failed;

/// What bytes are written to.
pub trait Sink {
    /// The bytes written, where the sink tells them.
    ghost written: { Self → Option (List ℕ) };

    /// How often the sink has failed, up to 2^64 - 1.
    ghost faults: { Self → ℕ };

    /// Writes some first bytes of the piece, and answers how many. `Failed` wrote nothing.
    fn write(&mut self, piece: &[u8]) -> Result<usize, Failed>
        ensures taken { TakesSome result piece.now }
        ensures bytes { AddsTaken (written self.old) (written self.new) result piece.now }
        ensures cause { HasCause (faults self.old) (faults self.new) result };
}

/// Writes the whole piece, in as many writes as that takes. After `Failed` a first part of it was written.
pub fn write_all<S: Sink>(out: &mut S, piece: &[u8]) -> Result<(), Failed>
    ensures whole { OnOk result (S.written out.new ≡ append_known (S.written out.old) piece.now) }
    ensures part { OnErr result (AddsPart (S.written out.old) (S.written out.new) piece.now) }
    ensures cause { HasCause (S.faults out.old) (S.faults out.new) result }
{
    let mut done = 0;
    while done < piece.len() {
        done += out.write(&piece[done..])?;
    }
    Ok(())
}
