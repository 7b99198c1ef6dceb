//! The linear machine: whether linear forms can all be at least 0, by elimination of variables, with lines that show it where
//! they cannot, and else values.
#![tactic(auto)]

mod answer;
mod decision;
mod elimination;
mod factor;
mod forms;
mod laws;
mod lines;
mod machine;
mod pairs;
mod values;

pub use answer::{FormList, LinearAnswer, NumberList};
pub use decision::decide;
pub use laws::{laws_of_points, laws_of_refutations};
