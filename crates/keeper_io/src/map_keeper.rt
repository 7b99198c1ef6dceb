//! A keeper in memory.
ghost use Rattle.std.specs.Prelude.{◌≡◌, ◌↔◌, IfOk, OnOk, OnErr, IsErrOf, Some};
ghost use Rattle.std.specs.Option.{option_copied};
ghost use Rattle.std.specs.List.{find, position};
ghost use Rattle.std.specs.Str.{bytes_eq};
ghost use Rattle.keeper_io.specs.Causes.{HasKeepCause};
ghost use Rattle.keeper_io.specs.Doubles.{one_more, NextFails};
ghost use Rattle.keeper_io.specs.Maps.{entry_of, Holds, OthersStay};

use crate::entry::{Entry, EntryList};
use crate::failing_calls::{CallList, FailingCalls};
use crate::keeper::{KeepFault, Keeper};
use ada_values::{ByteList, NameText, Starved};
use std::alloc::Global;

/// A keeper in memory, which tells its map. Listed calls fail, and leave the map as it was.
#[derive(Debug, Drop)]
pub struct MapKeeper {
    entries: EntryList,
    calls: FailingCalls,
    get_faults: u64,
    put_faults: u64,
}

impl MapKeeper {
    /// A keeper of these entries. The calls of `get` and `put` of these numbers fail, counted together from 1.
    pub fn new(entries: EntryList, failing: CallList) -> MapKeeper
        ensures entries { result.entries ≡ entries }
        ensures failing { result.calls ≡ record { made = 0; failing = failing } }
        ensures no_faults { (result.get_faults ≡ 0) × (result.put_faults ≡ 0) }
    {
        MapKeeper {
            entries,
            calls: FailingCalls { made: 0, failing },
            get_faults: 0,
            put_faults: 0,
        }
    }

    /// The entries, in the order in which their names came.
    pub fn entries(&self) -> &[Entry]
        ensures { result.now ≡ self.now.entries }
    {
        self.entries.as_slice()
    }

    /// The bytes that are kept under the name.
    pub fn bytes(&self, name: &NameText) -> Option<&[u8]>
        ensures { option_copied result ≡ entry_of self.now.entries name.now }
    {
        let entry = find_entry(self.entries.as_slice(), name)?;
        Some(entry.bytes.as_slice())
    }

    /// How many calls of `get` and `put` were made, up to 2^64 - 1.
    pub fn calls(&self) -> u64
        ensures { result ≡ self.now.calls.made }
    {
        self.calls.made
    }
}

fn find_entry<'a>(entries: &'a [Entry], name: &NameText) -> Option<&'a Entry>
    ensures { option_copied result ≡ find (λ entry. bytes_eq entry.name name.now) entries.now }
{
    entries.iter().find(|entry| entry.has_name(name))
}

fn position_of(entries: &[Entry], name: &NameText) -> Option<usize>
    ensures { result ≡ position (λ entry. bytes_eq entry.name name.now) entries.now }
{
    entries.iter().position(|entry| entry.has_name(name))
}

/// Puts an entry in the place of the first of its name, or behind all where there is none.
fn store(entries: &mut EntryList, entry: Entry) -> Result<(), Starved>
    ensures stored { OnOk result (entry_of entries.new entry.name ≡ Some entry.bytes) }
    ensures others { OthersStay (Some entries.old) (Some entries.new) entry.name }
    ensures err { OnErr result (entries.new ≡ entries.old) }
{
    match position_of(entries.as_slice(), &entry.name) {
        Some(at) => entries.set(at, entry),
        None => entries.push(entry)?,
    }
    Ok(())
}

impl Keeper for MapKeeper {
    ghost told = { λ keeper. Some keeper.entries };

    ghost get_faults = { λ keeper. keeper.get_faults };

    ghost put_faults = { λ keeper. keeper.put_faults };

    fn get(&mut self, alloc: Global, name: &NameText) -> Result<Option<ByteList>, KeepFault>
        ensures found { IfOk result (λ bytes. Holds (Some self.old.entries) name.now bytes) }
        ensures map { Some self.new.entries ≡ Some self.old.entries }
        ensures cause { HasKeepCause self.old.get_faults self.new.get_faults result }
        ensures other_count { self.new.put_faults ≡ self.old.put_faults }

        ensures listed { IsErrOf result KeepFault.Failed ↔ NextFails self.old.calls }
        ensures counted { self.new.calls ≡ record self.old.calls { made = one_more self.old.calls.made } }
    {
        if self.calls.next_fails() {
            self.get_faults = self.get_faults.saturating_add(1);
            return Err(KeepFault::Failed);
        }
        match self.bytes(name) {
            Some(bytes) => Ok(Some(ByteList::from_slice(alloc, bytes)?)),
            None => Ok(None),
        }
    }

    fn put(&mut self, alloc: Global, name: &NameText, bytes: &ByteList) -> Result<(), KeepFault>
        ensures stored { OnOk result (Holds (Some self.new.entries) name.now (Some bytes.now)) }
        ensures others { OthersStay (Some self.old.entries) (Some self.new.entries) name.now }
        ensures starved { IsErrOf result KeepFault.Starved → Some self.new.entries ≡ Some self.old.entries }
        ensures cause { HasKeepCause self.old.put_faults self.new.put_faults result }
        ensures other_count { self.new.get_faults ≡ self.old.get_faults }

        ensures failed { OnErr result (self.new.entries ≡ self.old.entries) }
        ensures listed { IsErrOf result KeepFault.Failed ↔ NextFails self.old.calls }
        ensures counted { self.new.calls ≡ record self.old.calls { made = one_more self.old.calls.made } }
    {
        if self.calls.next_fails() {
            self.put_faults = self.put_faults.saturating_add(1);
            return Err(KeepFault::Failed);
        }
        let entry = Entry::copied(alloc, name, bytes)?;
        store(&mut self.entries, entry)?;
        Ok(())
    }
}
