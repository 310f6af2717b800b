//! Where a run of the collector stands, and each change of it.
#![tactic(auto)]

pub use hir_collector_rules;
pub use hir_collector_rules::{
    hir_crate_graph, hir_glob_imports, hir_import_rules, hir_nameres, hir_scope,
};
pub use hir_collector_start;
pub use hir_import_growth;

pub mod declare;
pub mod def_collector;
