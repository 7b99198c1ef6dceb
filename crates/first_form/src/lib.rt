//! The first form of file: one procedure whose statements are assertions.
#![tactic(auto)]

mod conditions;
mod form;
mod laws;
mod limits;
mod names;
mod places;
mod procedures;
mod spelled;

pub use form::{Assertion, AssertionList, FirstForm, FormFault, Operand, Placed};
pub use laws::{forms_are_forms, places_are_in_file};
pub use limits::is_form;
pub use places::{first_unknown, position_of};
pub use procedures::form_of;
