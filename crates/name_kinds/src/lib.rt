//! What names tell of their types without a context (Ada RM 4.1, 8.6).
#![tactic(auto)]

mod hints;
mod parts;

pub use hints::{
    applied_hint, attribute_hint, bound_hint, called_hint, component_hint, entity_hint,
    qualified_hint, value_kind,
};
pub use parts::part_of;
