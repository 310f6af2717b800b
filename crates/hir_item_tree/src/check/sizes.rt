//! How many nodes, variants, fields and use trees there are.
ghost use Rattle.hir_item_tree.specs.Source.{node_view, nodes_view};
ghost use Rattle.hir_item_tree.specs.Limits.{item_size, size, Spent};

use crate::source::{Node, NodeKind};
use hir_use_tree::limits::spend_tree;

// What is left of a number when a node and its parts are taken from it.
#[cycle(spend)]
fn spend(node: &Node, left: u32) -> Option<u32>
    ensures spent { Spent result (item_size (node_view node.now)) left }
{
    let left = left.checked_sub(1)?;
    match &node.kind {
        NodeKind::Use { tree } => spend_tree(tree, left),
        NodeKind::Struct { fields, .. } | NodeKind::Union { fields, .. } => {
            spend_number(fields.len(), left)
        }
        NodeKind::Enum { variants, .. } => spend_number(variants.len(), left),
        NodeKind::ExternBlock { nodes }
        | NodeKind::Trait { items: nodes, .. }
        | NodeKind::Impl { items: nodes, .. }
        | NodeKind::Module {
            nodes: Some(nodes),
            ..
        } => spend_all(nodes, left),
        _ => Some(left),
    }
}

/// What is left of a number when nodes and their parts are taken from it.
#[cycle(spend)]
pub fn spend_all(nodes: &Vec<Node>, left: u32) -> Option<u32>
    ensures spent { Spent result (size (nodes_view nodes.now.items)) left }
{
    let mut left = left;
    for node in nodes {
        left = spend(node, left)?;
    }
    Some(left)
}

fn spend_number(number: usize, left: u32) -> Option<u32>
    ensures spent { Spent result number left }
{
    if number > left as usize {
        None
    } else {
        Some(left - number as u32)
    }
}
