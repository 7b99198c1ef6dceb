//! Keepers and sinks, of which listed calls fail.

use crate::fault::{CaseFault, made, number};
use crate::shown::{name_of, push_quoted, split};
use ada_values::{ByteList, NameText};
use case_lines::named;
use keeper_io::{CallList, Entry, EntryList, Keeper, ListSink, MapKeeper, read_whole, write_all};
use std::alloc::{AllocError, Global};

fn push_call(calls: &mut CallList, word: &[u8]) -> Result<(), CaseFault> {
    made(calls.push(number(word)?))
}

/// The numbers in a text.
fn numbers(alloc: Global, text: &[u8]) -> Result<CallList, CaseFault> {
    let words = split(alloc, text)?;
    let mut calls = CallList::new(alloc);
    for word in words.as_slice() {
        push_call(&mut calls, word.as_slice())?;
    }
    Ok(calls)
}

fn entry_of(alloc: Global, name: &[u8], bytes: &[u8]) -> Result<Entry, CaseFault> {
    let name = name_of(alloc, name)?;
    let bytes = made(ByteList::from_slice(alloc, bytes))?;
    Ok(Entry { name, bytes })
}

/// The entries of names, each before its bytes.
fn entries_of(alloc: Global, mut words: &[Vec<u8>]) -> Result<EntryList, CaseFault> {
    let mut entries = EntryList::new(alloc);
    while let [name, bytes, rest @ ..] = words {
        let entry = entry_of(alloc, name.as_slice(), bytes.as_slice())?;
        made(entries.push(entry))?;
        words = rest;
    }
    Ok(entries)
}

/// A keeper of entries, of which the words are names, each before its bytes.
pub fn keeper_of(alloc: Global, words: &[Vec<u8>], fails: &[u8]) -> Result<MapKeeper, CaseFault> {
    let entries = entries_of(alloc, words)?;
    match numbers(alloc, fails) {
        Ok(fails) => Ok(MapKeeper::new(entries, fails)),
        Err(fault) => {
            drop(entries);
            Err(fault)
        }
    }
}

/// A sink, of which one call takes so many bytes at most.
pub fn sink_of(alloc: Global, fails: &[u8], most: &[u8]) -> Result<ListSink, CaseFault> {
    let most = number(most)? as usize;
    if most == 0 {
        return Err(CaseFault::BadCase);
    }
    let fails = numbers(alloc, fails)?;
    Ok(ListSink::taking(alloc, fails, most))
}

/// What a step asks of a keeper besides to put bytes.
#[derive(Clone, Copy)]
enum Asked {
    /// The bytes under a name.
    Bytes,
    /// How many bytes these are.
    Count,
}

const ASKED: [(&str, Asked); 2] = [("?", Asked::Bytes), ("#", Asked::Count)];

fn push_found(out: &mut String, asked: Asked, bytes: &[u8]) -> Result<(), AllocError> {
    match asked {
        Asked::Bytes => {
            push_quoted(out, bytes)?;
            out.push_str("; ")
        }
        Asked::Count => {
            let count = bytes.len();
            write!(out, "{count} bytes; ")
        }
    }
}

/// What a keeper gives for a name.
fn push_get<K: Keeper>(
    alloc: Global,
    out: &mut String,
    keeper: &mut K,
    name: &NameText,
    asked: Asked,
) -> Result<(), AllocError> {
    match keeper.get(alloc, name) {
        Ok(Some(found)) => push_found(out, asked, found.as_slice()),
        Ok(None) => out.push_str("none; "),
        Err(fault) => write!(out, "{fault:?}; "),
    }
}

/// What a keeper answers to bytes for a name.
fn push_put<K: Keeper>(
    alloc: Global,
    out: &mut String,
    keeper: &mut K,
    name: &NameText,
    bytes: &[u8],
) -> Result<(), AllocError> {
    let bytes = ByteList::from_slice(alloc, bytes)?;
    match keeper.put(alloc, name, &bytes) {
        Ok(()) => out.push_str("put; "),
        Err(fault) => write!(out, "{fault:?}; "),
    }
}

/// A name and what is asked of it, or a name and the bytes to keep.
fn push_step<K: Keeper>(
    alloc: Global,
    out: &mut String,
    keeper: &mut K,
    words: &[Vec<u8>],
) -> Result<(), CaseFault> {
    let [name, value] = words else {
        return Err(CaseFault::BadCase);
    };
    let name = name_of(alloc, name.as_slice())?;
    match named(&ASKED, value.as_slice()) {
        Some(asked) => made(push_get(alloc, out, keeper, &name, asked)),
        None => made(push_put(alloc, out, keeper, &name, value.as_slice())),
    }
}

/// What a keeper answers to steps.
fn push_steps<K: Keeper>(
    alloc: Global,
    out: &mut String,
    keeper: &mut K,
    steps: &[u8],
) -> Result<(), CaseFault> {
    let words = split(alloc, steps)?;
    for words in words.as_slice().chunks(2) {
        push_step(alloc, out, keeper, words)?;
    }
    Ok(())
}

/// An entry, with the bytes that a keeper has under its name.
fn push_entry(out: &mut String, keeper: &MapKeeper, entry: &Entry) -> Result<(), AllocError> {
    out.push_str("; ")?;
    push_quoted(out, entry.name.as_bytes())?;
    out.push(' ')?;
    match keeper.bytes(&entry.name) {
        Some(bytes) => push_quoted(out, bytes),
        None => out.push_str("none"),
    }
}

fn push_entries(out: &mut String, keeper: &MapKeeper) -> Result<(), AllocError> {
    let calls = keeper.calls();
    write!(out, "{calls} calls")?;
    for entry in keeper.entries() {
        push_entry(out, keeper, entry)?;
    }
    Ok(())
}

/// What a keeper answers to steps, and what it holds then.
fn push_held(
    alloc: Global,
    out: &mut String,
    keeper: &mut MapKeeper,
    steps: &[u8],
) -> Result<(), CaseFault> {
    push_steps(alloc, out, keeper, steps)?;
    made(push_entries(out, keeper))
}

/// What a keeper in memory answers to steps, how many calls were made, and what is kept in the end.
pub fn push_keeper(alloc: Global, out: &mut String, words: &[Vec<u8>]) -> Result<(), CaseFault> {
    let [entries @ .., fails, steps] = words else {
        return Err(CaseFault::BadCase);
    };
    match keeper_of(alloc, entries, fails.as_slice()) {
        Ok(mut keeper) => push_held(alloc, out, &mut keeper, steps.as_slice()),
        Err(fault) => Err(fault),
    }
}

/// What the keeper of real files answers to steps.
pub fn push_files<K: Keeper>(
    alloc: Global,
    files: &mut K,
    out: &mut String,
    words: &[Vec<u8>],
) -> Result<(), CaseFault> {
    let [steps] = words else {
        return Err(CaseFault::BadCase);
    };
    push_steps(alloc, out, files, steps.as_slice())?;
    made(out.push_str("end"))
}

/// Writes a piece to a sink.
fn push_written(out: &mut String, sink: &mut ListSink, piece: &[u8]) -> Result<(), AllocError> {
    let ended = match write_all(sink, piece) {
        Ok(()) => "written ",
        Err(_) => "failed ",
    };
    out.push_str(ended)?;
    push_quoted(out, sink.bytes())?;
    let calls = sink.calls();
    write!(out, " {calls} calls")
}

/// What a sink answers to a piece, what it holds then, and how many calls were made.
pub fn push_sink(alloc: Global, out: &mut String, words: &[Vec<u8>]) -> Result<(), CaseFault> {
    let [piece, fails, most] = words else {
        return Err(CaseFault::BadCase);
    };
    match sink_of(alloc, fails.as_slice(), most.as_slice()) {
        Ok(mut sink) => made(push_written(out, &mut sink, piece.as_slice())),
        Err(fault) => Err(fault),
    }
}

fn push_read(alloc: Global, out: &mut String, bytes: &[u8], most: usize) -> Result<(), AllocError> {
    let mut file = bytes;
    match read_whole(alloc, &mut file, most) {
        Ok(found) => push_quoted(out, found.as_slice()),
        Err(fault) => write!(out, "{fault:?}"),
    }
}

/// What is read of a file of these bytes where it may have at most so many.
pub fn push_whole(alloc: Global, out: &mut String, words: &[Vec<u8>]) -> Result<(), CaseFault> {
    let [bytes, most] = words else {
        return Err(CaseFault::BadCase);
    };
    let most = number(most.as_slice())? as usize;
    made(push_read(alloc, out, bytes.as_slice(), most))
}
