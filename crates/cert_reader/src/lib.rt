//! Certificates read from their texts.
#![tactic(auto)]

mod fields;
mod hints;
mod laws;
mod line_word;
mod lines;
mod literals;
mod nodes;
mod numbers;
mod reader;
mod shapes;
mod steps;

pub use laws::{cert_has_no_fault, cert_texts_have_no_fault};
pub use reader::{MOST_CERT_BYTES, read_cert};
