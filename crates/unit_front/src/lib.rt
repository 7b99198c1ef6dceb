//! From the files of a program to their syntax trees, what their names stand for, and the typed program, or to the first refusal.
#![tactic(auto)]

mod accepting;
mod files;
mod naming;
mod reading;
mod trees;

pub use accepting::{AcceptedFiles, accept};
pub use ada_values::Starved;
pub use files::{FileList, FrontRefusal, NamedBytes, SourceList};
pub use naming::{NamedFiles, name_files};
pub use reading::FileRead;
pub use trees::read_files;
