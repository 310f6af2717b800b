//! From a handed-in use tree to the tree that is kept, after rust-analyzer's `lower_use_tree`.
ghost use Rattle.std.specs.Prelude.{◌≡◌, ◌++◌, IfOk, OnOk};
ghost use Rattle.hir_use_tree.specs.UseTree.{use_tree_view, use_trees_view, parts, all_parts};
ghost use Rattle.hir_use_tree.specs.Positions.{trees_at};

use crate::use_tree::{UseTree, UseTreeKind};
use std::alloc::{AllocError, Global};

/// The tree that is kept of a handed-in one, and the handed-in tree's parts in preorder: the part at an import's
/// place is the leaf that wrote it.
pub fn lower_use_tree<'a>(
    alloc: Global,
    tree: &'a UseTree,
) -> Result<(UseTree, Vec<&'a UseTree>), AllocError>
    ensures kept { IfOk result (λ lowered. use_tree_view lowered.0 ≡ use_tree_view tree.now) }
    ensures positions { IfOk result (λ lowered. trees_at lowered.1.items ≡ parts (use_tree_view tree.now)) }
{
    let mut positions = Vec::new(alloc);
    push_parts(&mut positions, tree)?;
    let kept = tree.clone()?;
    Ok((kept, positions))
}

// Adds a tree and those inside, in preorder.
#[cycle(push)]
fn push_parts<'a>(out: &mut Vec<&'a UseTree>, tree: &'a UseTree) -> Result<(), AllocError>
    ensures ok { OnOk result (trees_at out.new.items
        ≡ trees_at out.old.items ++ parts (use_tree_view tree.now)) }
{
    out.push(tree)?;
    match &tree.kind {
        UseTreeKind::Single { .. } | UseTreeKind::Glob { .. } => Ok(()),
        UseTreeKind::Prefixed { list, .. } => push_all_parts(out, list),
    }
}

#[cycle(push)]
fn push_all_parts<'a>(out: &mut Vec<&'a UseTree>, list: &'a Vec<UseTree>) -> Result<(), AllocError>
    ensures ok { OnOk result (trees_at out.new.items
        ≡ trees_at out.old.items ++ all_parts (use_trees_view list.now.items)) }
{
    for tree in list {
        push_parts(out, tree)?;
    }
    Ok(())
}
