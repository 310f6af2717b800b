//! The walk over the items of modules, with those of their files, after rust-analyzer's `ModCollector`.
#![tactic(auto)]

pub use hir_attr_resolution;
pub use hir_collector_imports;
pub use hir_collector_items;
pub use hir_collector_state;
pub use hir_collector_state::{
    hir_collector_rules, hir_collector_start, hir_crate_graph, hir_nameres,
};
pub use hir_mod_resolution;

pub mod mod_collector;
