//! What def maps are and what paths mean in them, and the parts that a map is made of.
#![tactic(auto)]

pub use hir_crate_graph;
pub use hir_map_parts::{
    add_module_error, block_info, crate_data, derive_helpers, diagnostics, enum_variants,
    local_def_map, macro_data, origin,
};
pub use hir_raw_visibility;
pub use hir_scope;
pub use hir_scope::hir_textual_scope;

pub mod declaration;
pub mod module_data;
pub mod modules_map;
pub mod path_result;
pub mod reference;
