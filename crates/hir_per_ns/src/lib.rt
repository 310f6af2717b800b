//! Namespaces, what a name stands for in each, and who may see it.
//!
//! A `PerNs` is what a name stands for: in types, in values and in macros at most one item each, with its definition, its
//! visibility and the import that bound it. A `Visibility` is a set of modules, over any `ModuleTree`.
#![tactic(auto)]

pub mod import_conversions;
pub mod imports;
pub mod item_in_ns;
pub mod laws;
pub mod module_tree;
pub mod per_ns;
pub mod per_ns_items;
pub mod visibility;
