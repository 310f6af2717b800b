//! Syntax as it is handed in.
//!
//! A node's kind has the name and the parts that the item has in the text. What another crate has to
//! read, or nobody reads, as a body, is opaque text.
ghost use Rattle.std.specs.Prelude.{◌≡◌, [], string_bytes};
ghost use Rattle.hir_raw_visibility.specs.declared.raw_visibility.RawVisibility.TheVariants as RawVisibility;
ghost use Rattle.hir_ids.specs.declared.explicitness.VisibilityExplicitness.TheVariants.{Implicit};

use crate::raw_attr::RawAttr;
use crate::raw_visibility::{RawVisibility, VisibilityExplicitness};
use crate::shape::{ExternCrateName, FieldsShape};
use hir_base::ast_id::{AstKind, SyntaxId};
use hir_base::macro_kind::MacroExpander;
use hir_base::mod_path::ModPath;
use hir_base::name::Name;
use hir_use_tree::imports::ImportAlias;
use hir_use_tree::use_tree::UseTree;
use std::alloc::Global;

/// A source: its syntax, or word that it can't be read.
#[derive(Drop)]
pub enum Source {
    Unit(Unit),
    Broken,
}

/// The syntax of a file, a block or an expansion.
#[derive(Drop)]
pub struct Unit {
    /// The attributes at its top.
    pub attrs: Vec<RawAttr>,
    pub nodes: Vec<Node>,
}

impl Unit {
    /// These nodes, with no attributes at the top.
    pub fn new(alloc: Global, nodes: Vec<Node>) -> Unit
        ensures attrs { result.attrs.items ≡ [] }
        ensures nodes { result.nodes ≡ nodes }
    {
        Unit {
            attrs: Vec::new(alloc),
            nodes,
        }
    }
}

/// One item.
#[derive(Drop)]
#[cycle(node)]
pub struct Node {
    pub id: SyntaxId,
    pub attrs: Vec<RawAttr>,
    /// What is written; kinds that have no visibility leave it unread.
    pub vis: RawVisibility,
    /// What attribute and derive calls on the item get, and a macro call itself.
    pub input: String,
    pub kind: NodeKind,
}

impl Node {
    /// A private item, with no attributes and no input.
    pub fn new(alloc: Global, id: SyntaxId, kind: NodeKind) -> Node
        ensures id { result.id ≡ id }
        ensures attrs { result.attrs.items ≡ [] }
        ensures vis { result.vis ≡ RawVisibility.PubSelf Implicit }
        ensures input { string_bytes result.input ≡ [] }
        ensures kind { result.kind ≡ kind }
    {
        Node {
            id,
            attrs: Vec::new(alloc),
            vis: RawVisibility::PubSelf(VisibilityExplicitness::Implicit),
            input: String::new(alloc),
            kind,
        }
    }
}

impl Node {
    ghost use Rattle.hir_item_tree.specs.Source.{node_view};
    ghost use Rattle.hir_item_tree.specs.SyntaxIds.{node_kind};

    /// Its kind among the nodes of a source.
    pub fn ast_kind(&self) -> AstKind
        ensures value { result ≡ node_kind (node_view self.now) }
    {
        match &self.kind {
            NodeKind::Use { .. } => AstKind::Use,
            NodeKind::ExternCrate { .. } => AstKind::ExternCrate,
            NodeKind::ExternBlock { .. } => AstKind::ExternBlock,
            NodeKind::Fn { .. } => AstKind::Fn,
            NodeKind::Struct { .. } => AstKind::Struct,
            NodeKind::Union { .. } => AstKind::Union,
            NodeKind::Enum { .. } => AstKind::Enum,
            NodeKind::Const { .. } => AstKind::Const,
            NodeKind::Static { .. } => AstKind::Static,
            NodeKind::Trait { .. } => AstKind::Trait,
            NodeKind::Impl { .. } => AstKind::Impl,
            NodeKind::TypeAlias { .. } => AstKind::TypeAlias,
            NodeKind::Module { .. } => AstKind::Module,
            NodeKind::MacroCall { .. } => AstKind::MacroCall,
            NodeKind::MacroRules { .. } => AstKind::MacroRules,
            NodeKind::MacroDef { .. } => AstKind::MacroDef,
        }
    }
}

/// What an item is.
#[derive(Drop)]
#[cycle(node)]
pub enum NodeKind {
    Use {
        tree: UseTree,
    },
    ExternCrate {
        name: ExternCrateName,
        alias: Option<ImportAlias>,
    },
    ExternBlock {
        nodes: Vec<Node>,
    },
    Fn {
        name: Name,
        body: String,
    },
    Struct {
        name: Name,
        shape: FieldsShape,
        /// The fields' visibilities.
        fields: Vec<RawVisibility>,
    },
    Union {
        name: Name,
        /// The fields' visibilities.
        fields: Vec<RawVisibility>,
    },
    Enum {
        name: Name,
        variants: Vec<Variant>,
    },
    Const {
        /// None for `const _`.
        name: Option<Name>,
        body: String,
    },
    Static {
        name: Name,
        body: String,
    },
    Trait {
        name: Name,
        items: Vec<Node>,
    },
    Impl {
        /// Whether it is an impl of a trait.
        of_trait: bool,
        items: Vec<Node>,
    },
    TypeAlias {
        name: Name,
    },
    Module {
        name: Name,
        /// None for a module whose items are in a file of its own.
        nodes: Option<Vec<Node>>,
    },
    MacroCall {
        path: ModPath,
    },
    MacroRules {
        name: Name,
        definition: MacroDefinition,
    },
    MacroDef {
        name: Name,
        definition: MacroDefinition,
    },
}

/// What a macro is.
#[derive(Drop)]
pub struct MacroDefinition {
    pub text: String,
    pub expander: MacroExpander,
    /// The helper attributes of a derive macro.
    pub helpers: Vec<Name>,
}

/// A variant of an enum.
#[derive(Drop)]
pub struct Variant {
    pub id: SyntaxId,
    pub attrs: Vec<RawAttr>,
    pub name: Name,
    pub shape: FieldsShape,
}
