//! A keeper of named bytes, such as a folder of files.
ghost use Rattle.std.specs.Prelude.{◌≡◌, ℕ, IfOk, OnOk, IsErrOf, Some};
ghost use Rattle.std.specs.declared.option.Option.{Option};
ghost use Rattle.keeper_io.specs.Causes.{HasKeepCause};
ghost use Rattle.keeper_io.specs.Maps.{Map, Holds, OthersStay};

use ada_values::{ByteList, NameText, Starved};
use std::alloc::Global;
use thiserror::Error;

/// Why a keeper has no answer.
#[derive(Clone, Copy, Debug, PartialEq, Eq, Error)]
pub enum KeepFault {
    /// The keeper failed, and has counted that.
    #[error("the keeper failed")]
    Failed,
    /// There was no memory.
    #[error("out of memory")]
    Starved,
}

impl From<Starved> for KeepFault {
    ghost use Rattle.keeper_io.specs.declared.keeper.KeepFault.TheVariants.{Starved};

    ghost from_gives = { λ _ fault. fault ≡ Starved };

    fn from(_error: Starved) -> KeepFault {
        KeepFault::Starved
    }
}

/// A map from names to bytes that is kept outside the program.
pub trait Keeper {
    /// The map, where the keeper tells it.
    ghost told: { Self → Option Map };

    /// How often `get` has failed, up to 2^64 - 1.
    ghost get_faults: { Self → ℕ };

    /// How often `put` has failed, up to 2^64 - 1.
    ghost put_faults: { Self → ℕ };

    /// The bytes that are kept under the name, or None where the keeper lacks it.
    fn get(&mut self, alloc: Global, name: &NameText) -> Result<Option<ByteList>, KeepFault>
        ensures found { IfOk result (λ bytes. Holds (told self.old) name.now bytes) }
        ensures map { told self.new ≡ told self.old }
        ensures cause { HasKeepCause (get_faults self.old) (get_faults self.new) result }
        ensures other_count { put_faults self.new ≡ put_faults self.old };

    /// Keeps the bytes under the name, in place of those that were kept there.
    ///
    /// After `Failed` any bytes may be kept under the name, or none. All else is as before.
    fn put(&mut self, alloc: Global, name: &NameText, bytes: &ByteList) -> Result<(), KeepFault>
        ensures stored { OnOk result (Holds (told self.new) name.now (Some bytes.now)) }
        ensures others { OthersStay (told self.old) (told self.new) name.now }
        ensures starved { IsErrOf result KeepFault.Starved → told self.new ≡ told self.old }
        ensures cause { HasKeepCause (put_faults self.old) (put_faults self.new) result }
        ensures other_count { get_faults self.new ≡ get_faults self.old };
}
