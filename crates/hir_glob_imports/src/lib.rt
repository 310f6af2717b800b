//! Glob imports: which names they bring, and how changes of names go along them.
//!
//! A glob that reached a module or an enum is an edge, from that source to the module in which it stands. A key is a name in one
//! namespace, or a trait that is imported without a name. An edge has something to be done at a key where its source shows
//! what the importer lacks, or what it brought no longer stands for the same, or may be seen by more.
//!
//! `GlobImports` has the edges of a map that is built, what each brought, and the pairs of an edge and a key that are pending. A
//! pair that isn't pending has nothing to be done (`IsKept`): a name that changes makes the edges at its module pending at its key
//! (`changed`), and an edge that is recorded is pending at each name of its source (`link`).
//!
//! A wave takes pairs until none is pending. It takes a step along the edge where there is something to be done, and then what
//! that changed is pending in turn. So it costs what changes, and no pass goes over edges or names.
#![tactic(auto)]

mod brought;
pub mod edge;
pub mod glob_imports;
mod index;
pub mod link;
pub mod names;
pub mod pending;
pub mod step;
mod update;
pub mod wave;

pub use edge::{Bound, Brought, Edge, Key, Slot, Target};
pub use glob_imports::GlobImports;
pub use names::Names;
pub use step::{GlobError, MAX_STEPS};
