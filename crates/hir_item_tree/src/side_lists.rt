//! What is kept beside a tree: variants, associated items, texts of macros and inputs, by node.
ghost use Rattle.std.specs.Prelude.{◌≡◌, ◌++◌, ◌∷◌, [], true, IfOk, OnOk, map, string_bytes, unwrap_or};
ghost use Rattle.hir_base.specs.CfgOptions.{is_set};
ghost use Rattle.hir_item_tree.specs.Source.{node_view, nodes_view, source_view, variant_view};
ghost use Rattle.hir_item_tree.specs.KeptForest.{kept_item};
ghost use Rattle.hir_item_tree.specs.SyntaxIds.{node_id, node_kind};
ghost use Rattle.hir_item_tree.specs.SideLists.{is_associated, kept_associated, enabled_variants, item_entries, entries, entry_list, side_lists, row_item, side_view, entries_view};

use crate::attrs::collected;
use crate::check::NodeId;
use crate::lower::lower_node;
use crate::rows::Row;
use crate::shape::FieldsShape;
use crate::source::{Node, NodeKind, Source, Variant};
use hir_base::ast_id::SyntaxId;
use hir_base::cfg_options::CfgOptions;
use hir_base::name::Name;
use hir_base::text::Text;
use std::alloc::{AllocError, Global};

/// A variant of an enum.
#[derive(Drop)]
pub struct VariantItem {
    pub id: SyntaxId,
    pub name: Name,
    pub shape: FieldsShape,
}

/// What is kept beside the item of a node.
#[derive(Drop)]
pub enum Side {
    Nothing,
    /// Of an enum the variants that no condition disables.
    Variants(Vec<VariantItem>),
    /// Of a trait or an impl its functions, constants, type aliases and macro calls.
    Associated(Vec<Row>),
    /// Of a macro its text.
    Text(Text),
}

/// A node, with the input of calls on it, and what is kept beside its item.
#[derive(Drop)]
pub struct SideEntry {
    pub node: NodeId,
    pub input: Option<Text>,
    pub side: Side,
}

/// The entries of the nodes of a source that have an input or something beside their items, in preorder.
pub fn side_lists(
    alloc: Global,
    source: &Source,
    options: &CfgOptions,
) -> Result<Vec<SideEntry>, AllocError>
    ensures value { IfOk result (λ es. entries_view es.items ≡ side_lists (is_set options.now) (source_view source.now)) }
{
    let mut all = Vec::new(alloc);
    match source {
        Source::Unit(unit) => {
            push_all_entries(alloc, options, &mut all, &unit.nodes)?;
            Ok(all)
        }
        Source::Broken => Ok(all),
    }
}

#[cycle(push)]
fn push_entries(
    alloc: Global,
    options: &CfgOptions,
    out: &mut Vec<SideEntry>,
    node: &Node,
) -> Result<(), AllocError>
    ensures ok { OnOk result (entries_view out.new.items
        ≡ entries_view out.old.items ++ item_entries (is_set options.now) (node_view node.now)) }
{
    match &node.kind {
        NodeKind::Enum { variants, .. } => {
            let side = Side::Variants(enabled_variants(alloc, options, variants)?);
            push_entry(alloc, out, node, side)
        }
        NodeKind::MacroRules { definition, .. } | NodeKind::MacroDef { definition, .. } => {
            let side = Side::Text(Text::from_str(alloc, definition.text.as_str())?);
            push_entry(alloc, out, node, side)
        }
        NodeKind::ExternBlock { nodes }
        | NodeKind::Module {
            nodes: Some(nodes),
            ..
        } => {
            push_entry(alloc, out, node, Side::Nothing)?;
            push_all_entries(alloc, options, out, nodes)
        }
        NodeKind::Trait { items, .. } | NodeKind::Impl { items, .. } => {
            let side = Side::Associated(associated(alloc, options, items)?);
            push_entry(alloc, out, node, side)?;
            push_all_entries(alloc, options, out, items)
        }
        _ => push_entry(alloc, out, node, Side::Nothing),
    }
}

#[cycle(push)]
fn push_all_entries(
    alloc: Global,
    options: &CfgOptions,
    out: &mut Vec<SideEntry>,
    nodes: &Vec<Node>,
) -> Result<(), AllocError>
    ensures ok { OnOk result (entries_view out.new.items
        ≡ entries_view out.old.items ++ entries (is_set options.now) (nodes_view nodes.now.items)) }
{
    for node in nodes {
        push_entries(alloc, options, out, node)?;
    }
    Ok(())
}

// Adds the entry of a node, if it says something.
fn push_entry(
    alloc: Global,
    out: &mut Vec<SideEntry>,
    node: &Node,
    side: Side,
) -> Result<(), AllocError>
    ensures ok { OnOk result (entries_view out.new.items ≡ entries_view out.old.items
        ++ entry_list (record { node = node_id (node_kind (node_view node.now)) node.now.id; input = string_bytes node.now.input; side = side_view side })) }
{
    if node.input.is_empty() && matches!(side, Side::Nothing) {
        return Ok(());
    }
    let input = input_of(alloc, node)?;
    let kind = node.ast_kind();
    let node = NodeId { kind, id: node.id };
    out.push(SideEntry { node, input, side })?;
    Ok(())
}

// The input of calls on a node, where it isn't empty.
fn input_of(alloc: Global, node: &Node) -> Result<Option<Text>, AllocError>
    ensures value { IfOk result (λ input. unwrap_or input [] ≡ string_bytes node.now.input) }
{
    if node.input.is_empty() {
        return Ok(None);
    }
    Ok(Some(Text::from_str(alloc, node.input.as_str())?))
}

// The variants that no condition disables.
fn enabled_variants(
    alloc: Global,
    options: &CfgOptions,
    variants: &[Variant],
) -> Result<Vec<VariantItem>, AllocError>
    ensures value { IfOk result (λ vs. vs.items ≡ enabled_variants (is_set options.now) (map variant_view variants.now)) }
{
    let mut enabled = Vec::new(alloc);
    for variant in variants {
        if collected(alloc, options, &variant.attrs)?.is_enabled() {
            enabled.push(VariantItem {
                id: variant.id,
                name: variant.name.clone()?,
                shape: variant.shape,
            })?;
        }
    }
    Ok(enabled)
}

// What a trait or an impl keeps of its nodes.
fn associated(
    alloc: Global,
    options: &CfgOptions,
    nodes: &Vec<Node>,
) -> Result<Vec<Row>, AllocError>
    ensures value { IfOk result (λ rows. map row_item rows.items ≡ kept_associated (is_set options.now) (nodes_view nodes.now.items)) }
{
    let mut rows = Vec::new(alloc);
    for node in nodes {
        if is_associated(node) {
            push_associated(alloc, options, &mut rows, node)?;
        }
    }
    Ok(rows)
}

fn push_associated(
    alloc: Global,
    options: &CfgOptions,
    rows: &mut Vec<Row>,
    node: &Node,
) -> Result<(), AllocError>
    requires kept { is_associated (node_view node.now) ≡ true }
    ensures ok { OnOk result (map row_item rows.new.items
        ≡ map row_item rows.old.items ++ kept_item (is_set options.now) (node_view node.now) ∷ []) }
{
    lower_node(alloc, options, rows, node)?;
    Ok(())
}

// Whether a trait or an impl keeps a node.
fn is_associated(node: &Node) -> bool
    ensures value { result ≡ is_associated (node_view node.now) }
{
    match &node.kind {
        NodeKind::Fn { .. }
        | NodeKind::Const { .. }
        | NodeKind::TypeAlias { .. }
        | NodeKind::MacroCall { .. } => true,
        _ => false,
    }
}
