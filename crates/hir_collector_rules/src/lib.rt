//! The rules by which the names of a crate come about: what a run is handed, where it stands, which steps it may take, and what it comes to.
#![tactic(auto)]

pub use hir_glob_imports;
pub use hir_import_rules;
pub use hir_nameres;
pub use hir_nameres::{hir_crate_graph, hir_scope, hir_textual_scope};

pub mod collected;
pub mod crate_attrs;
pub mod declaration;
pub mod exported;
pub mod inner_paths;
pub mod macro_directive;
pub mod names;
pub mod shared_tree;
pub mod site;
pub mod source_database;
pub mod start;
