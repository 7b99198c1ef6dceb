//! The program `gnatprove`: from the words of its command line to its answer and its status.
#![tactic(auto)]

mod answer;
mod files;
mod program;
mod report;
mod run;
mod status;
mod texts;
mod words;

pub use keeper_io::{
    CallList, Entry, EntryList, Failed, FileKeeper, KeepFault, Keeper, ListSink, MapKeeper,
    OutSink, Sink,
};
pub use run::run_alone;
pub use status::Status;
