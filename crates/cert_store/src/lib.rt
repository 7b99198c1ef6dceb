//! The clauses of the earlier lines of a certificate, and which clauses follow from them by propagation of unit clauses.
#![tactic(auto)]

mod assumed;
mod propagation;
mod store;

pub use store::ClauseStore;
