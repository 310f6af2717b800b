//! How deep items nest in one another.
ghost use Rattle.std.specs.Prelude.{◌≡◌, ◌≤◌, ◌↔◌, IsTrue};
ghost use Rattle.hir_collector_rules.specs.HirItemTree.Source.{node_view, nodes_view, source_view};
ghost use Rattle.hir_session_state.specs.Nesting.{item_nesting, items_nesting, is_nested_too_deep};

use hir_item_tree::source::{Node, NodeKind, Source};

/// The most modules, traits, impls and extern blocks in one another. No line nests as many.
pub const MAX_NESTING: u32 = 128;

// Whether they nest at most so deep. It goes no deeper itself.
#[cycle(fits)]
fn fits_nesting(node: &Node, left: u32) -> bool
    ensures fits { IsTrue result ↔ (item_nesting (node_view node.now) ≤ left) }
{
    match &node.kind {
        NodeKind::ExternBlock { nodes }
        | NodeKind::Trait { items: nodes, .. }
        | NodeKind::Impl { items: nodes, .. }
        | NodeKind::Module {
            nodes: Some(nodes),
            ..
        } => left > 0 && fit_nesting(nodes, left - 1),
        _ => true,
    }
}

#[cycle(fits)]
fn fit_nesting(nodes: &Vec<Node>, left: u32) -> bool
    ensures fits { IsTrue result ↔ (items_nesting (nodes_view nodes.now.items) ≤ left) }
{
    for node in nodes {
        if !fits_nesting(node, left) {
            return false;
        }
    }
    true
}

/// Whether the items of a source nest too deep in one another to be looked at.
pub fn nests_too_deep(source: &Source) -> bool
    ensures value { result ≡ is_nested_too_deep (source_view source.now) }
{
    match source {
        Source::Unit(unit) => !fit_nesting(&unit.nodes, MAX_NESTING),
        Source::Broken => false,
    }
}
