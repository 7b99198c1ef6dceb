//! The lines of sorts and calls of a goal.

ghost use Rattle.std.specs.Prelude.{◌≡◌, ◌≢◌, ◌+◌, ◌<◌, ◌≤◌, ◌∷◌, ◌++◌, ℕ, List, None, All, length, drop, map, codes, IfOk, IfErr};
ghost use Rattle.logic_terms.specs.Goal.{called_as};
ghost use Rattle.logic_terms.specs.declared.goal.Role.{Role};
ghost use Rattle.term_reader.specs.Bytes.{first};
ghost use Rattle.logic_text.specs.Answers.{kinds_of};
ghost use Rattle.logic_text.specs.Goals.{sorts_text, call_text, calls_text};
ghost use Rattle.term_reader.specs.Phases.{After, IsUpTo, IsBadAt};
ghost use Rattle.logic_text.specs.Phases.{AtStart, InSorts, InCalls, InCall, InLines};
ghost use Rattle.logic_text.specs.Takens.{IsTaken};

use logic_terms::{Call, CallList, Role, Sort, SortList, Symbol, SymbolList};
use sqlite_items::{Boxed, Items};
use std::alloc::Global;
use term_reader::{ReadFault, byte_at, read_sort, read_word};

/// Reads a space and the sort of a symbol.
fn read_symbol(
    alloc: Global,
    bytes: &[u8],
    at: usize,
    symbols: &mut SymbolList,
) -> Result<usize, ReadFault>
    requires place { at < length bytes.now }
    requires space { drop at bytes.now ≡ 32 ∷ drop (at + 1) bytes.now }
    ensures before { IfOk result (λ to. at < to) }
    ensures inside { IfOk result (λ to. to ≤ length bytes.now) }
    ensures text { IfOk result (λ to. (s : List ℕ)
        → s ≡ sorts_text (kinds_of symbols.old) ++ drop at bytes.now
        → s ≡ sorts_text (kinds_of symbols.new) ++ drop to bytes.now) }
    ensures plain { IfOk result (λ _. All (λ s. s.role ≡ Role.Plain) symbols.old → All (λ s. s.role ≡ Role.Plain) symbols.new) }
    ensures on { IfOk result (λ to. IsUpTo InSorts (drop at bytes.now) InSorts (drop to bytes.now)) }
    ensures fault { IfErr result (λ f. IsBadAt InSorts bytes.now at f) }
{
    match read_sort(alloc, bytes, at + 1) {
        Err(fault) => Err(fault),
        Ok(read) => {
            let symbol = Symbol {
                sort: read.sort.into_inner(),
                role: Role::Plain,
            };
            match symbols.push(symbol) {
                Err(_) => Err(ReadFault::Starved),
                Ok(()) => Ok(read.to),
            }
        }
    }
}

/// Symbols that are read, and the place after them.
#[derive(Drop)]
pub struct Symbols {
    pub symbols: SymbolList,
    pub to: usize,
}

/// Reads the sorts of symbols.
#[tactic(auto, using(term_reader::proofs::Reaching::upto_start, term_reader::proofs::Places::bad_at, term_reader::proofs::Places::steps_at))]
fn read_symbols(alloc: Global, bytes: &[u8], at: usize) -> Result<Symbols, ReadFault>
    requires { at ≤ length bytes.now }
    ensures inside { IfOk result (λ r. r.to ≤ length bytes.now) }
    ensures text { IfOk result (λ r. drop at bytes.now ≡ sorts_text (kinds_of r.symbols) ++ drop r.to bytes.now) }
    ensures plain { IfOk result (λ r. All (λ s. s.role ≡ Role.Plain) r.symbols) }
    ensures next { IfOk result (λ r. first (drop r.to bytes.now) ≢ 32) }
    ensures on { IfOk result (λ r. IsUpTo InSorts (drop at bytes.now) InSorts (drop r.to bytes.now)) }
    ensures fault { IfErr result (λ f. IsBadAt InSorts bytes.now at f) }
{
    let mut symbols = Items::new(alloc);
    let mut to = at;
    while byte_at(bytes, to) == 32 {
        match read_symbol(alloc, bytes, to, &mut symbols) {
            Err(fault) => return Err(fault),
            Ok(next) => to = next,
        }
    }
    Ok(Symbols { symbols, to })
}

/// A part of a call that is read, and the place after it.
#[derive(Drop)]
enum Taken {
    /// The sort of an argument.
    Argument(usize),
    /// The sort of the answer.
    Answer(Boxed<Sort>, usize),
}

/// Reads a sort in the brackets of a call, and the space or bracket after it.
fn read_taken(
    alloc: Global,
    bytes: &[u8],
    at: usize,
    arguments: &mut SortList,
) -> Result<Taken, ReadFault>
    requires { at ≤ length bytes.now }
    ensures ok { IfOk result (λ t. IsTaken arguments.old arguments.new bytes.now at t) }
    ensures fault { IfErr result (λ f. IsBadAt InCall bytes.now at f) }
{
    match read_sort(alloc, bytes, at) {
        Err(fault) => Err(fault),
        Ok(read) => {
            let byte = byte_at(bytes, read.to);
            if byte == 32 {
                match arguments.push(read.sort.into_inner()) {
                    Err(_) => Err(ReadFault::Starved),
                    Ok(()) => Ok(Taken::Argument(read.to + 1)),
                }
            } else if byte == 41 {
                Ok(Taken::Answer(read.sort, read.to + 1))
            } else {
                Err(ReadFault::BadText(read.to))
            }
        }
    }
}

/// A call that is read, and the place after it.
#[derive(Drop)]
struct CallRead {
    call: Call,
    to: usize,
}

/// Reads the sorts of a call after its bracket.
#[tactic(auto, using(term_reader::proofs::Reaching::upto_start, term_reader::proofs::Places::bad_at, term_reader::proofs::Places::steps_at, crate::proofs::Signatures::called_text))]
fn read_call(alloc: Global, bytes: &[u8], at: usize) -> Result<CallRead, ReadFault>
    requires { at ≤ length bytes.now }
    ensures before { IfOk result (λ r. at < r.to) }
    ensures inside { IfOk result (λ r. r.to ≤ length bytes.now) }
    ensures text { IfOk result (λ r. 40 ∷ drop at bytes.now ≡ call_text (called_as r.call) ++ drop r.to bytes.now) }
    ensures plain { IfOk result (λ r. r.call.sub ≡ None) }
    ensures on { IfOk result (λ r. IsUpTo InCall (drop at bytes.now) InCalls (drop r.to bytes.now)) }
    ensures fault { IfErr result (λ f. IsBadAt InCall bytes.now at f) }
{
    let mut arguments = Items::new(alloc);
    let mut to = at;
    loop {
        match read_taken(alloc, bytes, to, &mut arguments) {
            Err(fault) => return Err(fault),
            Ok(Taken::Argument(next)) => to = next,
            Ok(Taken::Answer(answer, end)) => {
                let call = Call {
                    arguments,
                    answer: answer.into_inner(),
                    sub: None,
                };
                return Ok(CallRead { call, to: end });
            }
        }
    }
}

/// Reads a space and a call.
fn read_next_call(
    alloc: Global,
    bytes: &[u8],
    at: usize,
    calls: &mut CallList,
) -> Result<usize, ReadFault>
    requires place { at ≤ length bytes.now }
    requires space { first (drop at bytes.now) ≡ 32 }
    ensures before { IfOk result (λ to. at < to) }
    ensures inside { IfOk result (λ to. to ≤ length bytes.now) }
    ensures text { IfOk result (λ to. (s : List ℕ)
        → s ≡ calls_text (map called_as calls.old) ++ drop at bytes.now
        → s ≡ calls_text (map called_as calls.new) ++ drop to bytes.now) }
    ensures plain { IfOk result (λ _. All (λ c. c.sub ≡ None) calls.old → All (λ c. c.sub ≡ None) calls.new) }
    ensures on { IfOk result (λ to. IsUpTo InCalls (drop at bytes.now) InCalls (drop to bytes.now)) }
    ensures fault { IfErr result (λ f. IsBadAt InCalls bytes.now at f) }
{
    match read_word(bytes, at, b" (") {
        Err(to) => Err(ReadFault::BadText(to)),
        Ok(to) => match read_call(alloc, bytes, to) {
            Err(fault) => Err(fault),
            Ok(read) => match calls.push(read.call) {
                Err(_) => Err(ReadFault::Starved),
                Ok(()) => Ok(read.to),
            },
        },
    }
}

/// Calls that are read, and the place after them.
#[derive(Drop)]
pub struct Calls {
    pub calls: CallList,
    pub to: usize,
}

/// Reads calls.
#[tactic(auto, using(term_reader::proofs::Reaching::upto_start, term_reader::proofs::Places::bad_at, term_reader::proofs::Places::steps_at))]
fn read_calls(alloc: Global, bytes: &[u8], at: usize) -> Result<Calls, ReadFault>
    requires { at ≤ length bytes.now }
    ensures inside { IfOk result (λ r. r.to ≤ length bytes.now) }
    ensures text { IfOk result (λ r. drop at bytes.now ≡ calls_text (map called_as r.calls) ++ drop r.to bytes.now) }
    ensures plain { IfOk result (λ r. All (λ c. c.sub ≡ None) r.calls) }
    ensures next { IfOk result (λ r. first (drop r.to bytes.now) ≢ 32) }
    ensures on { IfOk result (λ r. IsUpTo InCalls (drop at bytes.now) InCalls (drop r.to bytes.now)) }
    ensures fault { IfErr result (λ f. IsBadAt InCalls bytes.now at f) }
{
    let mut calls = Items::new(alloc);
    let mut to = at;
    while byte_at(bytes, to) == 32 {
        match read_next_call(alloc, bytes, to, &mut calls) {
            Err(fault) => return Err(fault),
            Ok(next) => to = next,
        }
    }
    Ok(Calls { calls, to })
}

/// Reads the line of the sorts.
pub fn read_sorts_line(alloc: Global, bytes: &[u8]) -> Result<Symbols, ReadFault>
    ensures inside { IfOk result (λ r. r.to ≤ length bytes.now) }
    ensures text { IfOk result (λ r. bytes.now ≡ codes "sorts" ++ (sorts_text (kinds_of r.symbols) ++ (10 ∷ drop r.to bytes.now))) }
    ensures plain { IfOk result (λ r. All (λ s. s.role ≡ Role.Plain) r.symbols) }
    ensures on { IfOk result (λ r. IsUpTo AtStart (drop 0 bytes.now) (After (codes "calls") InCalls) (drop r.to bytes.now)) }
    ensures fault { IfErr result (λ f. IsBadAt AtStart bytes.now 0 f) }
{
    match read_word(bytes, 0, b"sorts") {
        Err(to) => Err(ReadFault::BadText(to)),
        Ok(to) => match read_symbols(alloc, bytes, to) {
            Err(fault) => Err(fault),
            Ok(read) => match read_word(bytes, read.to, b"\n") {
                Err(to) => Err(ReadFault::BadText(to)),
                Ok(to) => Ok(Symbols {
                    symbols: read.symbols,
                    to,
                }),
            },
        },
    }
}

/// Reads the line of the calls.
pub fn read_calls_line(alloc: Global, bytes: &[u8], at: usize) -> Result<Calls, ReadFault>
    requires { at ≤ length bytes.now }
    ensures inside { IfOk result (λ r. r.to ≤ length bytes.now) }
    ensures text { IfOk result (λ r. drop at bytes.now ≡ codes "calls" ++ (calls_text (map called_as r.calls) ++ (10 ∷ drop r.to bytes.now))) }
    ensures plain { IfOk result (λ r. All (λ c. c.sub ≡ None) r.calls) }
    ensures on { IfOk result (λ r. IsUpTo (After (codes "calls") InCalls) (drop at bytes.now) InLines (drop r.to bytes.now)) }
    ensures fault { IfErr result (λ f. IsBadAt (After (codes "calls") InCalls) bytes.now at f) }
{
    match read_word(bytes, at, b"calls") {
        Err(to) => Err(ReadFault::BadText(to)),
        Ok(to) => match read_calls(alloc, bytes, to) {
            Err(fault) => Err(fault),
            Ok(read) => match read_word(bytes, read.to, b"\n") {
                Err(to) => Err(ReadFault::BadText(to)),
                Ok(to) => Ok(Calls {
                    calls: read.calls,
                    to,
                }),
            },
        },
    }
}
