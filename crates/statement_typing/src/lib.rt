//! The rules of types for declarations, statements, units and a whole program (Ada RM 3, 5, 6, 7; SPARK RM 5.5.3, 6.1.4).
#![tactic(auto)]

mod draft;
pub mod laws;
mod parts;
mod subs;

pub use draft::Draft;
pub use parts::{
    Answer, Definition, Formals, Group, Indexes, Listed, Noted, Profile, Selected, Share, Spread,
    Stated, StaticRange, Variable,
};
pub use subs::Subs;
