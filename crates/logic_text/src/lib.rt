//! The texts of goals and certificates.
#![tactic(auto)]

mod cert_writer;
mod fault;
mod fits;
mod goal_reader;
mod goal_writer;
mod laws;
mod parts;
mod signature_reader;

pub use cert_writer::cert_text;
pub use fault::TextFault;
pub use fits::{cert_fits, goal_fits};
pub use goal_reader::{MOST_GOAL_BYTES, read_goal};
pub use goal_writer::goal_text;
pub use laws::{cert_texts_are_injective, goal_texts_are_injective, goal_texts_have_no_fault};
