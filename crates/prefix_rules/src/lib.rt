//! Names with selectors, indexes, conversions and arguments, over what is read of their parts (Ada RM 4.1, 4.6, 6.4).
#![tactic(auto)]

mod arguments;
mod conversions;
mod items;
mod passing;
mod selections;

pub use arguments::{argument_place, argument_start, formal_for};
pub use conversions::conversion;
pub use items::{ArrayForm, array_item, index_found, item_of};
pub use passing::{passed_as, variable};
pub use selections::selection;
pub use type_base::Starved;
