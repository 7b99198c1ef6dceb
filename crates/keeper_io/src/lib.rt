//! What the product asks of the outside: a keeper of named bytes and a sink of bytes, each with a count of its faults.
#![tactic(auto)]

mod entry;
mod failing_calls;
mod file_keeper;
mod keeper;
mod list_sink;
mod map_keeper;
mod out_sink;
mod sink;

pub use entry::{Entry, EntryList};
pub use failing_calls::CallList;
pub use file_keeper::{FileKeeper, read_whole};
pub use keeper::{KeepFault, Keeper};
pub use list_sink::ListSink;
pub use map_keeper::MapKeeper;
pub use out_sink::OutSink;
pub use sink::{Failed, Sink, write_all};
