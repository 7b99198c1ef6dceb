//! What statements are, over what has been read of their parts (Ada RM 5, 6.5, 11.4.2, SPARK RM 5.5.3).
#![tactic(auto)]

mod around;
mod assigned;
mod checks;
mod choices;
mod conditions;
mod demanded;
mod endings;
mod made;
mod returned;
mod sorts;
mod stages;

pub use around::{Around, Loop, Returns, moment_in};
pub use assigned::{assignment_read, call_action, value_for_read, value_want};
pub use checks::{and_also, heard, refuse, unless, with_refused, with_unknown};
pub use choices::{any_others, case_read, has_others, is_range, selector_read, selector_want};
pub use conditions::{condition, truth_seen};
pub use demanded::{assert_read, assume_read, checked_by, direction_of, moved_value, way_by};
pub use endings::{ended, ends, exits, has_exit, returns};
pub use made::{branch_read, if_read, stmt_at};
pub use returned::{
    exit_alone, exit_when, return_alone, return_read, return_want, returned_read, returned_want,
};
pub use sorts::{Sort, sort_of};
pub use stages::{LoopBody, Stage, add_demand, loop_read, with_demand, with_stmt};
pub use type_base::Starved;
