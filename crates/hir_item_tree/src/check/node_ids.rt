//! The ids of nodes and variants.
ghost use Rattle.std.specs.Prelude.{◌≡◌, ◌++◌, ◌∷◌, [], OnOk, IfOk, map};
ghost use Rattle.std.specs.List.{list_any};
ghost use Rattle.hir_item_tree.specs.Source.{node_view, nodes_view, variant_view};
ghost use Rattle.hir_item_tree.specs.Limits.{has_large_index};
ghost use Rattle.hir_item_tree.specs.SyntaxIds.{node_id, variant_id, item_ids, ids, repeat_after};

use crate::check::{MAX_INDEX, NodeId};
use crate::source::{Node, NodeKind, Variant};
use hir_base::ast_id::{AstKind, SyntaxId};
use std::alloc::{AllocError, Global};
use std::collections::HashSet;

// Adds the ids of a node, of its variants and of those inside, in preorder.
#[cycle(push)]
fn push_ids(out: &mut Vec<NodeId>, node: &Node) -> Result<(), AllocError>
    ensures ok { OnOk result (out.new.items ≡ out.old.items ++ item_ids (node_view node.now)) }
{
    push_id(out, node.ast_kind(), node.id)?;
    match &node.kind {
        NodeKind::Enum { variants, .. } => push_variant_ids(out, variants),
        NodeKind::ExternBlock { nodes }
        | NodeKind::Trait { items: nodes, .. }
        | NodeKind::Impl { items: nodes, .. }
        | NodeKind::Module {
            nodes: Some(nodes),
            ..
        } => push_all_ids(out, nodes),
        _ => Ok(()),
    }
}

/// Adds the ids of nodes, of their variants and of those inside, in preorder.
#[cycle(push)]
pub fn push_all_ids(out: &mut Vec<NodeId>, nodes: &Vec<Node>) -> Result<(), AllocError>
    ensures ok { OnOk result (out.new.items ≡ out.old.items ++ ids (nodes_view nodes.now.items)) }
{
    for node in nodes {
        push_ids(out, node)?;
    }
    Ok(())
}

fn push_variant_ids(out: &mut Vec<NodeId>, variants: &[Variant]) -> Result<(), AllocError>
    ensures ok { OnOk result (out.new.items ≡ out.old.items ++ map variant_id (map variant_view variants.now)) }
{
    for variant in variants {
        push_id(out, AstKind::Variant, variant.id)?;
    }
    Ok(())
}

fn push_id(out: &mut Vec<NodeId>, kind: AstKind, id: SyntaxId) -> Result<(), AllocError>
    ensures ok { OnOk result (out.new.items ≡ out.old.items ++ node_id kind id ∷ []) }
{
    out.push(NodeId { kind, id })?;
    Ok(())
}

/// Whether an id's index is too large.
pub fn any_large_index(nodes: &[NodeId]) -> bool
    ensures value { result ≡ list_any has_large_index nodes.now }
{
    for node in nodes {
        if node.id.index > MAX_INDEX {
            return true;
        }
    }
    false
}

/// The first that stood before.
pub fn first_repeat(alloc: Global, nodes: &[NodeId]) -> Result<Option<NodeId>, AllocError>
    ensures value { IfOk result (λ found. found ≡ repeat_after ⟦<NodeId as PartialEq>⟧.eq [] nodes.now) }
{
    let mut seen = HashSet::new(alloc);
    for node in nodes {
        if !seen.insert(*node)? {
            return Ok(Some(*node));
        }
    }
    Ok(None)
}
