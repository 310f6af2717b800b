//! The parts that a def map is made of besides scopes: the data of its crate, what paths of its crate begin with, the variants of its
//! enums, its macros, where its modules are written, and its diagnostics.
#![tactic(auto)]

pub mod add_module_error;
pub mod block_info;
pub mod crate_data;
pub mod derive_helpers;
pub mod diagnostics;
pub mod enum_variants;
pub mod local_def_map;
pub mod macro_data;
pub mod origin;
