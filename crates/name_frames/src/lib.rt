//! The scopes that are open at a place, what they declare, and what a name stands for by them (Ada RM 8.1 to 8.4).
#![tactic(auto)]

mod entries;
mod frames;
mod meaning;
mod profiles;

pub use entries::{Entries, Entry, Sort};
pub use frames::{Frame, Frames, Owner, Sight, named_as, owns, package_named};
pub use meaning::{Found, by_package, by_scopes, by_sight, contains};
pub use name_library::Starved;
pub use profiles::{Begun, Formal, Outcome, Profile, same_link, same_profile, tell};
