//! Cases of values: of operations, subtypes, shapes, equality and names.
//!
//! The input is standard input, or the file that the one word of the command line names. A line is a case, and its answer
//! is a line; the words of a line are those of `case_lines::words_of`. An empty line, and one that begins with `#`, is its
//! own answer.
//!
//! | Case | Answer |
//! |---|---|
//! | `integer A OP B`, `integer OP A` | the result in Integer, or `overflow`, `zero divisor` or `negative exponent` |
//! | `mod N A OP B`, `mod N OP A` | the same in the modular type of N values, N being from 2 to 2^64 |
//! | `in LO HI V` | whether V belongs to the subtype from LO to HI |
//! | `fits SHAPE VALUE` | whether the value is one of the shape of this number in the list of `shapes.rt` |
//! | `same VALUE / VALUE` | whether the values are equal |
//! | `copy VALUE` | whether a copy of the value equals it |
//! | `name TEXT BYTES` | whether a copy of the name of this text has these bytes |
//!
//! OP is `+`, `-`, `*`, `/`, `rem`, `mod`, `**`, `neg` or `abs`. A VALUE is a number, `true` or `false`, or `array FIRST LAST`
//! or `record` and then its items, which are numbers, `true` and `false`. Any other line is answered `no case`, and
//! `no memory` is the answer where memory was refused.
#![tactic(auto)]

mod answer;
mod operations;
mod shapes;
mod values;

use ada_values::{NameText, Starved};
use answer::Answer;
use case_lines::{LineFault, cases, words_of};
use operations::{in_integer, in_modular, in_subtype};
use std::alloc::Global;
use std::io;
use values::{fits, is_copied, is_same};

/// Whether a copy of the name of a text has these bytes.
fn is_named(alloc: Global, text: &[u8], bytes: &[u8]) -> Result<Answer, Starved> {
    let Ok(text) = str::from_utf8(text) else {
        return Ok(Answer::NoCase);
    };
    let name = NameText::from_text(alloc, text)?;
    let copy = name.copy(alloc)?;
    Ok(Answer::Truth(copy.is(bytes)))
}

/// The answer to the words of a case.
fn answer_to(alloc: Global, words: &[Vec<u8>]) -> Result<Answer, Starved> {
    let Some((kind, words)) = words.split_first() else {
        return Ok(Answer::NoCase);
    };
    match kind.as_slice() {
        b"integer" => Ok(in_integer(words)),
        b"mod" => Ok(in_modular(words)),
        b"in" => Ok(in_subtype(words)),
        b"fits" => fits(alloc, words),
        b"same" => is_same(alloc, words),
        b"copy" => is_copied(alloc, words),
        b"name" => match words {
            [text, bytes] => is_named(alloc, text.as_slice(), bytes.as_slice()),
            _ => Ok(Answer::NoCase),
        },
        _ => Ok(Answer::NoCase),
    }
}

/// The answer to a line that is a case.
fn answer_line(alloc: Global, line: &str) -> Answer {
    match words_of(alloc, line.as_bytes()) {
        Ok(words) => answer_to(alloc, words.as_slice()).unwrap_or(Answer::NoMemory),
        Err(LineFault::BadWord) => Answer::NoCase,
        Err(LineFault::Starved) => Answer::NoMemory,
    }
}

fn main(rt: HostRuntime) -> io::Result<()> {
    let text = cases(&rt)?;
    for line in text.lines() {
        if line.is_empty() || line.starts_with('#') {
            println!(rt; "{line}")?;
        } else {
            let answer = answer_line(rt.alloc(), line);
            println!(rt; "{answer}")?;
        }
    }
    Ok(())
}
