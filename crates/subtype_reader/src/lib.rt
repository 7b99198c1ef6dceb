//! Ranges and subtype indications (Ada RM 3.2.2, 3.5, 3.6.1).
#![tactic(auto)]

mod constraints;
mod indications;
mod ranges;
mod reaches;
mod written_ranges;

pub use indications::{indicated, marked_name, marked_subtype, object_subtype, part_subtype};
pub use ranges::{expression_heard, index_range, loose, static_range, wanted_range};
pub use type_base::Starved;
pub use written_ranges::{WrittenRange, high_place, low_place, place_of, written};
