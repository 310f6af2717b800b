//! A source with as many nodes as one may have.

use crate::units::tree_of_source;
use hir_base::ast_id::SyntaxId;
use hir_base::name::Name;
use hir_item_tree::check::{MAX_NODES, check};
use hir_item_tree::item_tree::ItemTree;
use hir_item_tree::raw_visibility::RawVisibility;
use hir_item_tree::shape::FieldsShape;
use hir_item_tree::source::{Node, NodeKind, Source, Unit};
use std::alloc::{AllocError, Global};
use std::process::Abort;
use std::test::Fail;

/// How many nodes a module is with those inside.
const IN_MODULE: u32 = 10;

fn function(alloc: Global, name: Name) -> Result<NodeKind, AllocError> {
    let body = String::from_str(alloc, "{ 0 }")?;
    Ok(NodeKind::Fn { name, body })
}

/// What the node of a number inside a module is.
fn kind(alloc: Global, number: u32, name: Name) -> Result<NodeKind, AllocError> {
    match number % 5 {
        0 => function(alloc, name),
        1 => Ok(NodeKind::Struct {
            name,
            shape: FieldsShape::Unit,
            fields: Vec::new(alloc),
        }),
        2 => Ok(NodeKind::Const {
            name: Some(name),
            body: String::new(alloc),
        }),
        3 => Ok(NodeKind::Trait {
            name,
            items: Vec::new(alloc),
        }),
        _ => Ok(NodeKind::TypeAlias { name }),
    }
}

/// A node by its number, which says its id too.
fn node(alloc: Global, number: u32, kind: NodeKind) -> Node {
    Node {
        id: SyntaxId {
            hash: (number % 65536) as u16,
            index: (number / 65536) as u16,
        },
        attrs: Vec::new(alloc),
        vis: RawVisibility::Public,
        input: String::new(alloc),
        kind,
    }
}

fn inside(alloc: Global, number: u32, name: &Name) -> Result<Node, AllocError> {
    let kind = kind(alloc, number, name.clone()?)?;
    Ok(node(alloc, number, kind))
}

/// The nodes of the numbers that follow a module's own.
fn all_inside(alloc: Global, number: u32, name: &Name) -> Result<Vec<Node>, AllocError> {
    let mut nodes = Vec::new(alloc);
    for k in 1..IN_MODULE {
        nodes.push(inside(alloc, number.saturating_add(k), name)?)?;
    }
    Ok(nodes)
}

/// A module with the nodes inside.
fn module(alloc: Global, number: u32, name: &Name) -> Result<Node, AllocError> {
    let nodes = Some(all_inside(alloc, number, name)?);
    let name = name.clone()?;
    Ok(node(alloc, number, NodeKind::Module { name, nodes }))
}

fn modules(alloc: Global, count: u32, name: &Name) -> Result<Vec<Node>, AllocError> {
    let mut nodes = Vec::new(alloc);
    for k in 0..count {
        nodes.push(module(alloc, k.saturating_mul(IN_MODULE), name)?)?;
    }
    Ok(nodes)
}

/// `MAX_NODES` nodes, each tenth of them a module that holds the next nine.
fn largest(alloc: Global) -> Result<Box<Source>, Fail> {
    let name = Name::new(alloc, "item")?;
    let nodes = modules(alloc, MAX_NODES / IN_MODULE, &name)?;
    let attrs = Vec::new(alloc);
    Ok(Box::new(alloc, Source::Unit(Unit { attrs, nodes }))?)
}

fn lowered(alloc: Global, source: &Source) -> Result<Box<ItemTree>, AllocError> {
    Ok(Box::new(alloc, tree_of_source(alloc, source)?)?)
}

fn has_all(rt: &impl Abort, first: &ItemTree, again: &ItemTree) {
    assert!(rt; first.top_level_items().len() == 100000);
    assert!(rt; first.same(again));
}

fn lowers_twice(rt: &impl Abort, alloc: Global, source: &Source) -> Result<(), Fail> {
    check(alloc, source)?;
    let first = lowered(alloc, source)?;
    let again = lowered(alloc, source)?;
    has_all(rt, &first, &again);
    Ok(())
}

/// A source with as many nodes as one may have is checked, and lowered to one tree each time.
#[test]
fn largest_source(rt: HostRuntime) -> Result<(), Fail> {
    let source = largest(rt.alloc())?;
    lowers_twice(&rt, rt.alloc(), &source)
}
