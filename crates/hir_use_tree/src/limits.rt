//! The limits of use trees.
ghost use Rattle.std.specs.Prelude.{◌≡◌, ◌≤◌, ◌↔◌, IsTrue};
ghost use Rattle.hir_use_tree.specs.Limits.{is_long, is_long_if_some, has_long_tree, have_long_tree, Spent};
ghost use Rattle.hir_use_tree.specs.UseTree.{use_tree_view, use_trees_view, tree_size, trees_size, tree_depth, trees_depth};

use crate::use_tree::{UseTree, UseTreeKind};
use hir_base::mod_path::ModPath;

/// The most segments of a path.
pub const MAX_SEGMENTS: usize = 64;
/// How deep the lists of a use tree may nest.
pub const MAX_NESTING: u32 = 24;

/// Whether a path has too many segments.
pub fn is_long_path(path: &ModPath) -> bool
    ensures value { result ≡ is_long path.now }
{
    path.segments().len() > MAX_SEGMENTS
}

fn is_long_if_some(path: &Option<ModPath>) -> bool
    ensures value { result ≡ is_long_if_some path.now }
{
    match path {
        Some(path) => is_long_path(path),
        None => false,
    }
}

/// Whether a path in the tree has too many segments.
#[cycle(long)]
pub fn has_long_path(tree: &UseTree) -> bool
    ensures value { result ≡ has_long_tree (use_tree_view tree.now) }
{
    match &tree.kind {
        UseTreeKind::Single { path, .. } => is_long_path(path),
        UseTreeKind::Glob { path } => is_long_if_some(path),
        UseTreeKind::Prefixed { prefix, list } => is_long_if_some(prefix) || have_long_path(list),
    }
}

#[cycle(long)]
fn have_long_path(list: &Vec<UseTree>) -> bool
    ensures value { result ≡ have_long_tree (use_trees_view list.now.items) }
{
    for tree in list {
        if has_long_path(tree) {
            return true;
        }
    }
    false
}

/// What is left of a number when the trees of a tree are taken from it.
#[cycle(spend)]
pub fn spend_tree(tree: &UseTree, left: u32) -> Option<u32>
    ensures spent { Spent result (tree_size (use_tree_view tree.now)) left }
{
    let left = left.checked_sub(1)?;
    match &tree.kind {
        UseTreeKind::Single { .. } | UseTreeKind::Glob { .. } => Some(left),
        UseTreeKind::Prefixed { list, .. } => spend_trees(list, left),
    }
}

#[cycle(spend)]
fn spend_trees(list: &Vec<UseTree>, left: u32) -> Option<u32>
    ensures spent { Spent result (trees_size (use_trees_view list.now.items)) left }
{
    let mut left = left;
    for tree in list {
        left = spend_tree(tree, left)?;
    }
    Some(left)
}

/// Whether lists nest at most so deep. It goes no deeper itself.
#[cycle(fits)]
pub fn fits_nesting(tree: &UseTree, left: u32) -> bool
    ensures fits { IsTrue result ↔ (tree_depth (use_tree_view tree.now) ≤ left) }
{
    match &tree.kind {
        UseTreeKind::Single { .. } | UseTreeKind::Glob { .. } => true,
        UseTreeKind::Prefixed { list, .. } => left > 0 && fit_nesting(list, left - 1),
    }
}

#[cycle(fits)]
fn fit_nesting(list: &Vec<UseTree>, left: u32) -> bool
    ensures fits { IsTrue result ↔ (trees_depth (use_trees_view list.now.items) ≤ left) }
{
    for tree in list {
        if !fits_nesting(tree, left) {
            return false;
        }
    }
    true
}
