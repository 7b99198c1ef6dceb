//! Whole lines.

ghost use Rattle.std.specs.Prelude.{◌≡◌, ◌≢◌, ◌≤◌, ◌++◌, length, drop, map, codes, IfOk, IfErr, MatchOption};
ghost use Rattle.cert_lines.specs.View.{line as line_of};
ghost use Rattle.logic_text.specs.Certs.{lines_text};
ghost use Rattle.logic_text.specs.Goals.{line_end};
ghost use Rattle.term_reader.specs.Phases.{IsBadAt};
ghost use Rattle.cert_reader.specs.Entries.{IsLine, IsEntry};
ghost use Rattle.cert_reader.specs.Phases.{InLines, finish, Has, fields};
ghost use Rattle.cert_reader.specs.declared.line_word.LineWord.{LineWord};

use crate::line_word::{LineWord, choose};
use crate::shapes::{LineRead, read_fields};
use cert_lines::CertLines;
use sqlite_items::Items;
use std::alloc::Global;
use term_reader::{ReadFault, read_word};

/// Reads what follows the word of a line, and the end of the line.
fn read_line(alloc: Global, bytes: &[u8], at: usize, word: LineWord) -> Result<LineRead, ReadFault>
    requires place { at ≤ length bytes.now }
    requires line { word ≢ LineWord.End }
    ensures ok { IfOk result (λ r. IsLine word r.line bytes.now at r.to) }
    ensures fault { IfErr result (λ f. IsBadAt (Has (fields word)) bytes.now at f) }
{
    match read_fields(alloc, bytes, at, word) {
        Err(fault) => Err(fault),
        Ok(read) => match read_word(bytes, read.to, b"\n") {
            Err(to) => Err(ReadFault::BadText(to)),
            Ok(to) => Ok(LineRead {
                line: read.line,
                to,
            }),
        },
    }
}

/// Reads what follows the word of the last line.
fn read_finish(bytes: &[u8], at: usize) -> Result<(), ReadFault>
    requires { at ≤ length bytes.now }
    ensures text { IfOk result (λ _. drop at bytes.now ≡ line_end) }
    ensures fault { IfErr result (λ f. IsBadAt (Has finish) bytes.now at f) }
{
    match read_word(bytes, at, b"\n") {
        Err(to) => Err(ReadFault::BadText(to)),
        Ok(to) => {
            if to == bytes.len() {
                Ok(())
            } else {
                Err(ReadFault::BadText(to))
            }
        }
    }
}

/// Reads a line, or the last one, which is none of the certificate's.
fn read_entry(alloc: Global, bytes: &[u8], at: usize) -> Result<Option<LineRead>, ReadFault>
    requires { at ≤ length bytes.now }
    ensures ok { IfOk result (λ e. MatchOption e (drop at bytes.now ≡ codes "end" ++ line_end) (λ r. IsEntry r.line bytes.now at r.to)) }
    ensures fault { IfErr result (λ f. IsBadAt InLines bytes.now at f) }
{
    match choose(bytes, at) {
        Err(to) => Err(ReadFault::BadText(to)),
        Ok(chosen) => {
            if chosen.line == LineWord::End {
                match read_finish(bytes, chosen.to) {
                    Err(fault) => Err(fault),
                    Ok(()) => Ok(None),
                }
            } else {
                match read_line(alloc, bytes, chosen.to, chosen.line) {
                    Err(fault) => Err(fault),
                    Ok(read) => Ok(Some(read)),
                }
            }
        }
    }
}

/// Reads lines up to the end of the text.
pub fn read_lines(alloc: Global, bytes: &[u8], at: usize) -> Result<CertLines, ReadFault>
    requires { at ≤ length bytes.now }
    ensures text { IfOk result (λ lines. drop at bytes.now ≡ lines_text (map line_of lines) ++ (codes "end" ++ line_end)) }
    ensures fault { IfErr result (λ f. IsBadAt InLines bytes.now at f) }
{
    let mut lines = Items::new(alloc);
    let mut to = at;
    loop {
        match read_entry(alloc, bytes, to) {
            Err(fault) => return Err(fault),
            Ok(None) => return Ok(lines),
            Ok(Some(read)) => match lines.push(read.line) {
                Err(_) => return Err(ReadFault::Starved),
                Ok(()) => to = read.to,
            },
        }
    }
}
