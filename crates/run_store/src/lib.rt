//! The variables of a run.
#![tactic(auto)]

mod laws;
mod lists;
mod run_frames;
mod slots;
mod spots;
mod variables;

pub use laws::frame_laws;
pub use lists::{put_in_list, slot_of_list};
pub use run_frames::{RunFrame, begin, enter_loop, entry_vars};
pub use slots::{RunSlot, component_slot, item_slot, whole_value};
pub use spots::{RunSpot, holds_array, own_bounds, part_at, reaches, slot_within};
pub use variables::{RunVars, entered, put_answer, put_slot, slot_of, with_globals};
