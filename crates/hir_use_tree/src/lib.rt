//! What `use` items write, and the imports that they mean, after rust-analyzer's `UseTree`.
#![tactic(auto)]

pub mod alias_display;
pub mod eq;
pub mod expand;
pub mod imports;
pub mod joined_path;
pub mod laws;
pub mod limits;
pub mod lower;
pub mod shared_path;
pub mod use_tree;
