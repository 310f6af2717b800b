//! The dependency graph of crates: sets of crates, and the transitive dependencies of each.
#![tactic(auto)]

pub mod crate_set;
pub mod crates;
pub mod laws;
pub mod transitive;
mod words;

pub use crate_set::CrateSet;
pub use crates::Crates;
pub use transitive::{CrateGraphError, TransitiveDependencies};
