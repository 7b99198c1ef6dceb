//! Files as a keeper.
ghost use Rattle.std.specs.Prelude.{◌≡◌, ◌<◌, ◌≤◌, ◌*◌, ◌^◌, ◌↔◌, ℕ, List, length, vec_len, IfOk, OnOk, IfSome, IsUtf8, Option, None, Ok, Err};
ghost use Rattle.std.specs.Bool.{OnTrue};
ghost use Rattle.std.specs.IoError.{error_kind};
ghost use Rattle.std.specs.Io.KnownBytes.{Consumes, IsAtEnd};

use crate::keeper::{KeepFault, Keeper};
use ada_values::{ByteList, NameText, Starved};
use std::alloc::Global;
use std::io::{ErrorKind, Read, Write};
use std::rt::Files;
use std::{fs, io};

/// The files of the runtime `R`, each under its path. It doesn't tell what they hold.
///
/// A name that isn't UTF-8 names no file: `get` answers None there, and `put` fails.
#[derive(Drop)]
pub struct FileKeeper<R> {
    files: R,
    get_faults: u64,
    put_faults: u64,
}

/// The most bytes that `get` reads of a file: 128 MiB. A longer file is a fault.
const MOST_BYTES: usize = 128 << 20;

/// How many bytes one step reads.
const STEP: usize = 1 << 16;

impl<R: Files> FileKeeper<R> {
    /// The files of the runtime.
    pub fn new(files: R) -> FileKeeper<R>
        ensures { result ≡ record { files = files; get_faults = 0; put_faults = 0 } }
    {
        FileKeeper {
            files,
            get_faults: 0,
            put_faults: 0,
        }
    }
}

/// Want of memory, or else a failure of the keeper.
fn fault_of(error: io::Error) -> KeepFault
    ensures { result ≡ KeepFault.Starved ↔ (error_kind error ≡ ErrorKind.OutOfMemory) }
{
    if error.kind() == ErrorKind::OutOfMemory {
        KeepFault::Starved
    } else {
        KeepFault::Failed
    }
}

fn step_buffer(alloc: Global) -> Result<Vec<u8>, Starved>
    ensures { IfOk result (λ step. 0 < vec_len step) }
{
    vec![in alloc; 0u8; STEP]
}

/// Reads once, behind the bytes that were read before, and tells whether the end is reached.
/// More than `most` bytes are a failure.
fn read_step<F: Read>(
    file: &mut F,
    step: &mut [u8],
    bytes: &mut Vec<u8>,
    most: usize,
) -> Result<bool, KeepFault>
    requires room { 0 < length step.old }
    requires limit { vec_len bytes.old ≤ most }
    ensures next { OnOk result ((start : Option (List ℕ)) → Consumes start (F.remaining file.old) bytes.old.items
        → Consumes start (F.remaining file.new) bytes.new.items) }
    ensures end { IfOk result (λ ended. OnTrue ended (IsAtEnd (F.remaining file.new))) }
    ensures limit { OnOk result (vec_len bytes.new ≤ most) }
{
    let count = match file.read(step) {
        Ok(count) => count,
        Err(error) if error.kind() == ErrorKind::Interrupted => return Ok(false),
        Err(error) => return Err(fault_of(error)),
    };
    if count > most - bytes.len() {
        return Err(KeepFault::Failed);
    }
    bytes.extend_from_slice(&step[..count])?;
    Ok(count == 0)
}

/// Reads all that is left, if that is at most `most` bytes. More are a failure.
pub fn read_whole<F: Read>(alloc: Global, file: &mut F, most: usize) -> Result<Vec<u8>, KeepFault>
    ensures whole { IfOk result (λ bytes. IfSome (F.remaining file.old) (λ left. bytes.items ≡ left)) }
    ensures limit { IfOk result (λ bytes. vec_len bytes ≤ most) }
{
    let mut bytes = Vec::new(alloc);
    let mut step = step_buffer(alloc)?;
    for _ in 0..=most {
        if read_step(file, &mut step, &mut bytes, most)? {
            return Ok(bytes);
        }
    }
    Err(KeepFault::Failed)
}

/// Reads the file of a name. A name that isn't UTF-8 names none.
fn read_file<R: Files>(files: &R, alloc: Global, name: &[u8]) -> Result<Option<ByteList>, KeepFault>
    ensures unnamed { (IsUtf8 name.now → ⊥) → result ≡ Ok None }
    ensures limit { IfOk result (λ found. IfSome found (λ bytes. length bytes ≤ 128 * 2 ^ 20)) }
{
    let Ok(path) = str::from_utf8(name) else {
        return Ok(None);
    };
    match fs::open(files, path) {
        Ok(mut file) => Ok(Some(ByteList::from_vec(read_whole(alloc, &mut file, MOST_BYTES)?))),
        Err(error) if error.kind() == ErrorKind::NotFound => Ok(None),
        Err(error) => Err(fault_of(error)),
    }
}

/// Writes the file of a name. A name that isn't UTF-8 is a failure.
fn write_file<R: Files>(files: &R, name: &[u8], bytes: &[u8]) -> Result<(), KeepFault>
    ensures unnamed { (IsUtf8 name.now → ⊥) → result ≡ Err KeepFault.Failed }
{
    let Ok(path) = str::from_utf8(name) else {
        return Err(KeepFault::Failed);
    };
    let mut file = fs::create(files, path).map_err(fault_of)?;
    // The file is empty from here on.
    file.write_all(bytes).map_err(|_| KeepFault::Failed)
}

impl<R: Files> Keeper for FileKeeper<R> {
    ghost use Rattle.keeper_io.specs.Causes.{HasKeepCause};

    ghost told = { λ _. None };

    ghost get_faults = { λ keeper. keeper.get_faults };

    ghost put_faults = { λ keeper. keeper.put_faults };

    fn get(&mut self, alloc: Global, name: &NameText) -> Result<Option<ByteList>, KeepFault>
        ensures cause { HasKeepCause self.old.get_faults self.new.get_faults result }
        ensures other_count { self.new.put_faults ≡ self.old.put_faults }

        ensures unnamed { (IsUtf8 name.now → ⊥) → result ≡ Ok None }
        ensures limit { IfOk result (λ found. IfSome found (λ bytes. length bytes ≤ 128 * 2 ^ 20)) }
    {
        let answer = read_file(&self.files, alloc, name.as_bytes());
        if let Err(KeepFault::Failed) = answer {
            self.get_faults = self.get_faults.saturating_add(1);
        }
        answer
    }

    fn put(&mut self, _alloc: Global, name: &NameText, bytes: &ByteList) -> Result<(), KeepFault>
        ensures cause { HasKeepCause self.old.put_faults self.new.put_faults result }
        ensures other_count { self.new.get_faults ≡ self.old.get_faults }

        ensures unnamed { (IsUtf8 name.now → ⊥) → result ≡ Err KeepFault.Failed }
    {
        let answer = write_file(&self.files, name.as_bytes(), bytes.as_slice());
        if let Err(KeepFault::Failed) = answer {
            self.put_faults = self.put_faults.saturating_add(1);
        }
        answer
    }
}
