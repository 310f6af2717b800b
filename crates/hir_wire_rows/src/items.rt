//! Nodes as items, in the file that holds them or in expansions.
use hir_base::file_path::FilePath;
use hir_item_tree::source::Node;
use hir_wire::{
    ItemSource, SourceCall, SourceCallKind, SourceCalls, SourceItem, SourceKind, SourceRoot,
};
use std::alloc::{AllocError, Global};

fn calls_of(alloc: Global, nodes: &[Node]) -> Result<SourceCalls, AllocError> {
    let mut calls = Vec::new(alloc);
    for node in nodes {
        calls.push(SourceCall {
            node: node.ast_kind(),
            id: node.id,
            kind: SourceCallKind::FnLike,
        })?;
    }
    Ok(SourceCalls::new(calls))
}

/// A node as an item of a file, below the expansions of these calls, the outermost first.
pub fn item_below(
    alloc: Global,
    file: &FilePath,
    calls: &[Node],
    node: &Node,
) -> Result<SourceItem, AllocError> {
    let calls = calls_of(alloc, calls)?;
    let root = SourceRoot::File(file.clone()?);
    Ok(SourceItem {
        source: ItemSource { root, calls },
        kind: SourceKind::Node(node.ast_kind()),
        id: node.id,
    })
}
