//! The rows of a tree: one for each item.

use crate::attrs::AttrsOrCfg;
use crate::raw_visibility::RawVisibility;
use crate::shape::{ExternCrateName, FieldsShape};
use hir_base::ast_id::SyntaxId;
use hir_base::macro_kind::MacroExpander;
use hir_base::mod_path::ModPath;
use hir_base::name::Name;
use hir_use_tree::imports::ImportAlias;
use hir_use_tree::use_tree::UseTree;

/// An item of a tree, by its number: an item that holds others comes after them.
#[derive(Clone, Copy, Debug, PartialEq, Eq)]
pub struct ModItemId(pub usize);

/// An item.
#[derive(Drop)]
pub struct Row {
    pub id: SyntaxId,
    /// Of a kind without visibility the implicit one.
    pub visibility: RawVisibility,
    pub attrs: AttrsOrCfg,
    pub kind: RowKind,
}

/// What an item is.
#[derive(Drop)]
pub enum RowKind {
    Use {
        use_tree: UseTree,
    },
    ExternCrate {
        name: ExternCrateName,
        alias: Option<ImportAlias>,
    },
    ExternBlock {
        children: Vec<ModItemId>,
    },
    Function {
        name: Name,
    },
    Struct {
        name: Name,
        shape: FieldsShape,
        fields: Vec<RawVisibility>,
    },
    Union {
        name: Name,
        fields: Vec<RawVisibility>,
    },
    Enum {
        name: Name,
    },
    Const {
        name: Option<Name>,
    },
    Static {
        name: Name,
    },
    Trait {
        name: Name,
    },
    Impl {
        of_trait: bool,
    },
    TypeAlias {
        name: Name,
    },
    /// A module that is written where it is declared.
    Mod {
        name: Name,
        items: Vec<ModItemId>,
    },
    /// A module whose items are in a file of its own.
    OutlineMod {
        name: Name,
    },
    MacroCall {
        path: ModPath,
    },
    MacroRules {
        name: Name,
        expander: MacroExpander,
        helpers: Vec<Name>,
    },
    Macro2 {
        name: Name,
        expander: MacroExpander,
        helpers: Vec<Name>,
    },
}
