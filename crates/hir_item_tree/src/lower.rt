//! From handed-in syntax to rows, after rust-analyzer's `lower.rs`.
ghost use Rattle.std.specs.Prelude.{◌≡◌, IfOk};
ghost use Rattle.hir_item_tree.specs.Attributes.{attributes_view};
ghost use Rattle.hir_base.specs.CfgOptions.{is_set};
ghost use Rattle.hir_item_tree.specs.Source.{node_view, nodes_view};
ghost use Rattle.hir_item_tree.specs.KeptForest.{is_foreign, kept_item, kept_items, kept_foreign};
ghost use Rattle.hir_item_tree.specs.Rows.{numbers_of, content_of, rows_view, lay_row, lay, lay_all};
ghost use Rattle.hir_item_tree.specs.Lowered.{kept_visibility, kept_content, kept_row};

use crate::attrs::collected;
use crate::raw_attr::push_names;
use crate::raw_visibility::VisibilityExplicitness::Implicit;
use crate::raw_visibility::{RawVisibility, push_visibilities};
use crate::rows::{ModItemId, Row, RowKind};
use crate::source::{Node, NodeKind};
use hir_base::cfg_options::CfgOptions;
use hir_base::name::Name;
use hir_use_tree::imports::ImportAlias;
use std::alloc::{AllocError, Global};

/// Adds the rows of what is kept of a node.
#[cycle(lower)]
pub fn lower_node(
    alloc: Global,
    options: &CfgOptions,
    rows: &mut Vec<Row>,
    node: &Node,
) -> Result<ModItemId, AllocError>
    ensures laid { IfOk result (λ id. record { rows = rows_view rows.new.items; number = id.0 }
        ≡ lay (kept_item (is_set options.now) (node_view node.now)) (rows_view rows.old.items)) }
{
    match &node.kind {
        NodeKind::ExternBlock { nodes } => {
            let inside = lower_foreign(alloc, options, rows, nodes)?;
            push_row(alloc, options, rows, node, inside)
        }
        NodeKind::Module {
            nodes: Some(nodes),
            ..
        } => {
            let inside = lower_nodes(alloc, options, rows, nodes)?;
            push_row(alloc, options, rows, node, inside)
        }
        _ => {
            let inside = Vec::new(alloc);
            push_row(alloc, options, rows, node, inside)
        }
    }
}

/// Adds the rows of what is kept of nodes, one after another.
#[cycle(lower)]
pub fn lower_nodes(
    alloc: Global,
    options: &CfgOptions,
    rows: &mut Vec<Row>,
    nodes: &Vec<Node>,
) -> Result<Vec<ModItemId>, AllocError>
    ensures laid { IfOk result (λ ids. record { rows = rows_view rows.new.items; numbers = numbers_of ids.items }
        ≡ lay_all (kept_items (is_set options.now) (nodes_view nodes.now.items)) (rows_view rows.old.items)) }
{
    let mut ids = Vec::new(alloc);
    for node in nodes {
        ids.push(lower_node(alloc, options, rows, node)?)?;
    }
    Ok(ids)
}

// Adds the rows of what an extern block keeps of its nodes.
#[cycle(lower)]
fn lower_foreign(
    alloc: Global,
    options: &CfgOptions,
    rows: &mut Vec<Row>,
    nodes: &Vec<Node>,
) -> Result<Vec<ModItemId>, AllocError>
    ensures laid { IfOk result (λ ids. record { rows = rows_view rows.new.items; numbers = numbers_of ids.items }
        ≡ lay_all (kept_foreign (is_set options.now) (nodes_view nodes.now.items)) (rows_view rows.old.items)) }
{
    let mut ids = Vec::new(alloc);
    for node in nodes {
        if is_foreign(node) {
            ids.push(lower_node(alloc, options, rows, node)?)?;
        }
    }
    Ok(ids)
}

// Whether an extern block keeps a node.
fn is_foreign(node: &Node) -> bool
    ensures value { result ≡ is_foreign (node_view node.now) }
{
    match &node.kind {
        NodeKind::Fn { .. }
        | NodeKind::Static { .. }
        | NodeKind::TypeAlias { .. }
        | NodeKind::MacroCall { .. } => true,
        _ => false,
    }
}

// Adds the row of a node whose kept nodes have these numbers.
fn push_row(
    alloc: Global,
    options: &CfgOptions,
    rows: &mut Vec<Row>,
    node: &Node,
    inside: Vec<ModItemId>,
) -> Result<ModItemId, AllocError>
    ensures laid { IfOk result (λ id. record { rows = rows_view rows.new.items; number = id.0 }
        ≡ lay_row (rows_view rows.old.items) (kept_row (is_set options.now) node.now.id (attributes_view node.now.attrs.items)
        (node_view node.now) (numbers_of inside.items))) }
{
    let id = ModItemId(rows.len());
    let row = Row {
        id: node.id,
        visibility: visibility_of(node)?,
        attrs: collected(alloc, options, &node.attrs)?,
        kind: kind_of(node, inside)?,
    };
    rows.push(row)?;
    Ok(id)
}

// The visibility that is kept of a node.
fn visibility_of(node: &Node) -> Result<RawVisibility, AllocError>
    ensures value { IfOk result (λ v. v ≡ kept_visibility (node_view node.now)) }
{
    match &node.kind {
        NodeKind::ExternBlock { .. }
        | NodeKind::Impl { .. }
        | NodeKind::MacroCall { .. }
        | NodeKind::MacroRules { .. } => Ok(RawVisibility::PubSelf(Implicit)),
        _ => node.vis.clone(),
    }
}

// What the row of a node is, where its kept nodes have these numbers.
fn kind_of(node: &Node, inside: Vec<ModItemId>) -> Result<RowKind, AllocError>
    ensures value { IfOk result (λ k. content_of k ≡ kept_content (node_view node.now) (numbers_of inside.items)) }
{
    Ok(match &node.kind {
        NodeKind::Use { tree } => RowKind::Use {
            use_tree: tree.clone()?,
        },
        NodeKind::ExternCrate { name, alias } => RowKind::ExternCrate {
            name: name.clone()?,
            alias: copy_alias(alias)?,
        },
        NodeKind::ExternBlock { .. } => RowKind::ExternBlock { children: inside },
        NodeKind::Fn { name, .. } => RowKind::Function {
            name: name.clone()?,
        },
        NodeKind::Struct {
            name,
            shape,
            fields,
        } => RowKind::Struct {
            name: name.clone()?,
            shape: *shape,
            fields: copy_visibilities(fields)?,
        },
        NodeKind::Union { name, fields } => RowKind::Union {
            name: name.clone()?,
            fields: copy_visibilities(fields)?,
        },
        NodeKind::Enum { name, .. } => RowKind::Enum {
            name: name.clone()?,
        },
        NodeKind::Const { name, .. } => RowKind::Const {
            name: copy_name(name)?,
        },
        NodeKind::Static { name, .. } => RowKind::Static {
            name: name.clone()?,
        },
        NodeKind::Trait { name, .. } => RowKind::Trait {
            name: name.clone()?,
        },
        NodeKind::Impl { of_trait, .. } => RowKind::Impl {
            of_trait: *of_trait,
        },
        NodeKind::TypeAlias { name } => RowKind::TypeAlias {
            name: name.clone()?,
        },
        NodeKind::Module {
            name,
            nodes: Some(_),
        } => RowKind::Mod {
            name: name.clone()?,
            items: inside,
        },
        NodeKind::Module { name, nodes: None } => RowKind::OutlineMod {
            name: name.clone()?,
        },
        NodeKind::MacroCall { path } => RowKind::MacroCall {
            path: path.clone()?,
        },
        NodeKind::MacroRules { name, definition } => RowKind::MacroRules {
            name: name.clone()?,
            expander: definition.expander,
            helpers: copy_names(&definition.helpers)?,
        },
        NodeKind::MacroDef { name, definition } => RowKind::Macro2 {
            name: name.clone()?,
            expander: definition.expander,
            helpers: copy_names(&definition.helpers)?,
        },
    })
}

/// The same alias again.
pub fn copy_alias(alias: &Option<ImportAlias>) -> Result<Option<ImportAlias>, AllocError>
    ensures value { IfOk result (λ a. a ≡ alias.now) }
{
    match alias {
        Some(alias) => Ok(Some(alias.clone()?)),
        None => Ok(None),
    }
}

/// The same name again.
pub fn copy_name(name: &Option<Name>) -> Result<Option<Name>, AllocError>
    ensures value { IfOk result (λ n. n ≡ name.now) }
{
    match name {
        Some(name) => Ok(Some(name.clone()?)),
        None => Ok(None),
    }
}

/// The same names again.
pub fn copy_names(names: &Vec<Name>) -> Result<Vec<Name>, AllocError>
    ensures value { IfOk result (λ ns. ns.items ≡ names.now.items) }
{
    let mut copies = Vec::new(*names.allocator());
    push_names(&mut copies, names)?;
    Ok(copies)
}

/// The same visibilities again.
pub fn copy_visibilities(
    visibilities: &Vec<RawVisibility>,
) -> Result<Vec<RawVisibility>, AllocError>
    ensures value { IfOk result (λ vs. vs.items ≡ visibilities.now.items) }
{
    let mut copies = Vec::new(*visibilities.allocator());
    push_visibilities(&mut copies, visibilities)?;
    Ok(copies)
}
