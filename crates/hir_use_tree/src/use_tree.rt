//! What a `use` item writes, after rust-analyzer's `UseTree`.
ghost use Rattle.std.specs.Prelude.{◌≡◌, ◌+◌, IfOk};
ghost use Rattle.hir_use_tree.specs.UseTree.{use_tree_view, use_trees_view, kind_view, tree_size, trees_size, count_of};

use crate::imports::ImportAlias;
use hir_base::mod_path::ModPath;
use std::alloc::AllocError;

/// A tree of paths.
#[derive(Drop)]
#[cycle(use_tree)]
pub struct UseTree {
    pub kind: UseTreeKind,
}

/// How a tree of paths is written.
#[derive(Drop)]
#[cycle(use_tree)]
pub enum UseTreeKind {
    /// One path, perhaps under another name.
    Single {
        path: ModPath,
        alias: Option<ImportAlias>,
    },
    /// All names of a module or enum: `path::*`, or `*`.
    Glob {
        path: Option<ModPath>,
    },
    /// Trees behind a path: `path::{a, b}`, or `{a, b}`.
    Prefixed {
        prefix: Option<ModPath>,
        list: Vec<UseTree>,
    },
}

impl UseTree {
    /// A tree of its kind.
    pub fn new(kind: UseTreeKind) -> UseTree
        ensures value { use_tree_view result ≡ kind_view kind }
    {
        UseTree { kind }
    }

    /// How the tree is written.
    pub fn kind(&self) -> &UseTreeKind
        ensures value { kind_view result.now ≡ use_tree_view self.now }
    {
        &self.kind
    }

    /// The same tree again.
    #[cycle(clone)]
    pub fn clone(&self) -> Result<UseTree, AllocError>
        ensures value { IfOk result (λ t. use_tree_view t ≡ use_tree_view self.now) }
    {
        match &self.kind {
            UseTreeKind::Single { path, alias } => {
                let alias = match alias {
                    Some(alias) => Some(alias.clone()?),
                    None => None,
                };
                let path = path.clone()?;
                Ok(UseTree {
                    kind: UseTreeKind::Single { path, alias },
                })
            }
            UseTreeKind::Glob { path } => {
                let path = clone_path(path)?;
                Ok(UseTree {
                    kind: UseTreeKind::Glob { path },
                })
            }
            UseTreeKind::Prefixed { prefix, list } => {
                let prefix = clone_path(prefix)?;
                let list = clone_list(list)?;
                Ok(UseTree {
                    kind: UseTreeKind::Prefixed { prefix, list },
                })
            }
        }
    }

    /// How many trees there are in the tree, itself included; `u32::MAX` where there are more.
    #[cycle(count)]
    pub fn count(&self) -> u32
        ensures value { result ≡ count_of (tree_size (use_tree_view self.now)) }
    {
        match &self.kind {
            UseTreeKind::Single { .. } | UseTreeKind::Glob { .. } => 1,
            UseTreeKind::Prefixed { list, .. } => place_after(count_list(list), 1),
        }
    }
}

#[cycle(clone)]
fn clone_list(list: &Vec<UseTree>) -> Result<Vec<UseTree>, AllocError>
    ensures value { IfOk result (λ ts. use_trees_view ts.items ≡ use_trees_view list.now.items) }
{
    let mut copies = Vec::new(*list.allocator());
    for tree in list {
        copies.push(tree.clone()?)?;
    }
    Ok(copies)
}

fn clone_path(path: &Option<ModPath>) -> Result<Option<ModPath>, AllocError>
    ensures value { IfOk result (λ p. p ≡ path.now) }
{
    match path {
        Some(path) => Ok(Some(path.clone()?)),
        None => Ok(None),
    }
}

#[cycle(count)]
fn count_list(list: &Vec<UseTree>) -> u32
    ensures value { result ≡ count_of (trees_size (use_trees_view list.now.items)) }
{
    let mut count = 0;
    for tree in list {
        count = place_after(count, tree.count());
    }
    count
}

/// The place that comes so many places later; it stays at `u32::MAX`.
pub fn place_after(place: u32, many: u32) -> u32
    ensures value { result ≡ count_of (place + many) }
{
    match place.checked_add(many) {
        Some(next) => next,
        None => u32::MAX,
    }
}
