//! Handed-in syntax, and the tree of items that is kept of it, after rust-analyzer's `item_tree`.
#![tactic(auto)]

pub use hir_base::tree_id;
pub use hir_raw_visibility::raw_visibility;
pub use hir_use_tree::{
    imports as expand, joined_path, lower as lower_use_tree, shared_path, use_tree,
};

pub mod attr_query;
pub mod attrs;
pub mod check;
pub mod copy;
pub mod item_tree;
pub mod item_tree_node;
pub mod kinds;
pub mod laws;
pub mod lower;
pub mod pretty;
pub mod put_attrs;
pub mod put_words;
pub mod raw_attr;
pub mod rows;
pub mod same;
pub mod same_attrs;
pub mod same_rows;
pub mod shape;
pub mod side_lists;
pub mod source;
pub mod source_tree;
pub mod sources;
pub mod trees;

pub use attrs::{Attr, AttrsOrCfg};
pub use check::{CheckError, NodeId};
pub use hir_use_tree::imports::{Import, ImportAlias, ImportKind};
pub use hir_use_tree::use_tree::{UseTree, UseTreeKind};
pub use item_tree::{ItemTree, file_item_tree};
pub use kinds::{ModItemKind, RawVisibilityId};
pub use raw_attr::{AttrInput, Meta, RawAttr, TokenTree};
pub use raw_visibility::{RawVisibility, VisibilityExplicitness};
pub use rows::{ModItemId, Row, RowKind};
pub use shape::{ExternCrateName, FieldsShape};
pub use side_lists::{Side, SideEntry, VariantItem};
pub use source::{MacroDefinition, Node, NodeKind, Unit, Variant};
pub use source_tree::SourceTree;
pub use tree_id::{TreeId, TreeKey};
pub use trees::KeptTree;
