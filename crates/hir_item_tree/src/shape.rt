//! Shapes of structs and variants, names of extern crates, and what imports are.

pub use hir_base::shape::{ExternCrateName, FieldsShape};
pub use hir_use_tree::imports::{ImportAlias, ImportKind};
