//! What imports bring to a map that is built: `use`, `extern crate` and globs, until no more comes of them.
//!
//! An import is taken for what its path reaches: it binds that, or a glob is recorded as an edge (`hir_glob_imports`). Imports rest
//! where each reaches nothing that it wasn't taken for, and along no edge anything is to be done (`IsAtRest`).
//!
//! What a path reaches depends on the slots that it read alone. So an import that was tried watches these, and is tried again
//! only when one of them changes (`hir_worklist`): what is idle would be tried in vain.
//!
//! The queued imports are tried in passes, in the order in which they were come upon. What one binds goes along globs at once,
//! and wakes the imports that have read it. `begin_imports` tries all; where they rest, `resume_imports` takes them up again
//! once the map has grown, and tries those alone that are new or have read what changed.
#![tactic(auto)]

pub mod answers;
pub mod import_queue;
pub mod imports;
mod lasting;
pub mod laws;
pub mod resolve;
mod resolver;
pub mod rounds;
pub mod scopes;
pub mod spreading;

pub use hir_import_growth::forget;
pub use hir_import_rules::{
    ImportDirective, ImportError, ImportSource, Namespaces, Taken, directive, namespaces, taken,
};
pub use import_queue::ImportQueue;
pub use imports::Imports;
pub use resolve::resolve_imports;
pub use rounds::{Resting, begin_imports, resume_imports};
pub use spreading::{spread_changes, spread_globs};
