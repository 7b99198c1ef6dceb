//! The program `gnatprove`.
#![tactic(auto)]

use ada_values::{NameText, Starved, WordList};
use gnatprove_core::{FileKeeper, OutSink, Status, run_alone};
use sqlite_items::Items;
use std::env;
use std::io::ErrorKind;
use std::process::ExitCode;
use std::rt::{Env, Files};

/// The words of the command line without the program's own name. Words of which one isn't text count as none.
fn words_of<R: Env + AllocGlobal>(rt: &R) -> Result<WordList, Starved> {
    let mut words = Items::new(rt.alloc());
    let args = match env::args(rt) {
        Ok(args) => args,
        Err(error) if error.kind() == ErrorKind::OutOfMemory => return Err(Starved),
        Err(_) => return Ok(words),
    };
    for word in args.skip(1) {
        words.push(NameText::from_text(rt.alloc(), word.as_str())?)?;
    }
    Ok(words)
}

/// Makes the real keeper and sink, and runs the program on the words.
fn run<R: Files + Print + Env + AllocGlobal + Clone + Drop>(rt: &R) -> Result<Status, Starved> {
    let words = words_of(rt)?;
    let mut files = FileKeeper::new(rt.clone()?);
    let mut out = OutSink::new(rt.clone()?);
    Ok(run_alone(rt.alloc(), &words, &mut files, &mut out))
}

fn main(rt: HostRuntime) -> ExitCode {
    let status = run(&rt).unwrap_or(Status::Starved);
    ExitCode::from(status.code())
}
