//! Lists whose copy takes no time: what is behind them is shared until it is written.
#![tactic(auto)]

mod items;
mod shared;

pub use items::SharedItems;
pub use shared::{Copied, Shared};
