//! What a crate's names stand for: runs of the import rules to their end, after rust-analyzer's `nameres/collector.rs`.
#![tactic(auto)]

pub mod collector;

pub use hir_mod_collector::hir_attr_resolution::builtin_attr;
pub use hir_mod_collector::hir_collector_rules::source_database;
pub use hir_mod_dir::{ModDir, resolve_declaration};
