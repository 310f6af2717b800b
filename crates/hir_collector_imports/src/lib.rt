//! How a run takes its imports, and lets names go along globs.
//!
//! The run is opened: its imports are handed to `hir_import_resolution`, and taken back with what came of them. Which slots
//! changed is noted in it.
#![tactic(auto)]

mod along_globs;
mod changes;
pub mod settling;
pub mod spreading;

pub use settling::{settle, spread};
pub use spreading::spread_changes;
