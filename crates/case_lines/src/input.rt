//! Where cases come from.

use std::rt::{Env, Files};
use std::{env, fs, io};

/// The cases of the file that the first word of the command line names, or of standard input where there is no word.
pub fn cases<R: Input + Files + Env + AllocGlobal>(rt: &R) -> io::Result<String> {
    match env::args(rt)?.nth(1) {
        Some(path) => fs::read_to_string(rt, path.as_str()),
        None => io::read_to_string(rt.alloc(), rt.reader()),
    }
}
