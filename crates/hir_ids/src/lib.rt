//! Names, nodes, items and macros: the plain values that a scope speaks of. `hir_base` hands them on.
#![tactic(auto)]

pub mod ast_id;
pub mod builtin_type;
pub mod display;
pub mod edition;
pub mod explicitness;
pub mod ids;
pub mod laws;
pub mod macro_kind;
pub mod name;
pub mod text;
