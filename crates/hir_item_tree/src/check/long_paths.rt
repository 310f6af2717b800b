//! Paths with too many segments.
ghost use Rattle.std.specs.Prelude.{◌≡◌, ◌||◌, map};
ghost use Rattle.std.specs.List.{list_any};
ghost use Rattle.hir_item_tree.specs.Attributes.{attribute_view, attributes_view, meta_view};
ghost use Rattle.hir_item_tree.specs.Source.{node_view, nodes_view, variant_view};
ghost use Rattle.hir_item_tree.specs.Limits.{is_long, has_long_visibility, has_long_input, has_long_attribute, have_long_attribute, has_long_variant, has_long_path, have_long_path};

use crate::raw_attr::{AttrInput, Meta, RawAttr, TokenTree};
use crate::raw_visibility::RawVisibility;
use crate::source::{Node, NodeKind, Variant};
use hir_base::mod_path::ModPath;
use hir_use_tree::limits::{has_long_path, is_long_path};

fn any_long(paths: &[ModPath]) -> bool
    ensures value { result ≡ list_any is_long paths.now }
{
    for path in paths {
        if is_long_path(path) {
            return true;
        }
    }
    false
}

fn long_visibility(visibility: &RawVisibility) -> bool
    ensures value { result ≡ has_long_visibility visibility.now }
{
    match visibility {
        RawVisibility::Module(path, _) => is_long_path(path),
        RawVisibility::PubSelf(_) | RawVisibility::PubCrate | RawVisibility::Public => false,
    }
}

fn any_long_visibility(visibilities: &[RawVisibility]) -> bool
    ensures value { result ≡ list_any has_long_visibility visibilities.now }
{
    for visibility in visibilities {
        if long_visibility(visibility) {
            return true;
        }
    }
    false
}

fn long_meta(meta: &Meta) -> bool
    ensures value { result ≡ (is_long meta.now.path || has_long_input (meta_view meta.now).input) }
{
    is_long_path(&meta.path)
        || match &meta.input {
            Some(AttrInput::TokenTree(TokenTree::Paths(paths))) => any_long(paths),
            Some(AttrInput::TokenTree(TokenTree::Tokens(_)))
            | Some(AttrInput::TokenTree(TokenTree::Derive { .. }))
            | Some(AttrInput::Literal(_))
            | None => false,
        }
}

#[cycle(attrs)]
fn long_attr(attr: &RawAttr) -> bool
    ensures value { result ≡ has_long_attribute (attribute_view attr.now) }
{
    match attr {
        RawAttr::Meta(meta) => long_meta(meta),
        RawAttr::Cfg(_) => false,
        RawAttr::CfgAttr { attrs, .. } => any_long_attr(attrs),
    }
}

/// Whether a path in the attributes has too many segments.
#[cycle(attrs)]
pub fn any_long_attr(attrs: &Vec<RawAttr>) -> bool
    ensures value { result ≡ have_long_attribute (attributes_view attrs.now.items) }
{
    for attr in attrs {
        if long_attr(attr) {
            return true;
        }
    }
    false
}

fn long_variant(variant: &Variant) -> bool
    ensures value { result ≡ has_long_variant (variant_view variant.now) }
{
    any_long_attr(&variant.attrs)
}

fn any_long_variant(variants: &[Variant]) -> bool
    ensures value { result ≡ list_any has_long_variant (map variant_view variants.now) }
{
    for variant in variants {
        if long_variant(variant) {
            return true;
        }
    }
    false
}

#[cycle(paths)]
fn any_long_in(node: &Node) -> bool
    ensures value { result ≡ has_long_path (node_view node.now) }
{
    long_visibility(&node.vis)
        || any_long_attr(&node.attrs)
        || match &node.kind {
            NodeKind::Use { tree } => has_long_path(tree),
            NodeKind::Struct { fields, .. } | NodeKind::Union { fields, .. } => {
                any_long_visibility(fields)
            }
            NodeKind::Enum { variants, .. } => any_long_variant(variants),
            NodeKind::MacroCall { path } => is_long_path(path),
            NodeKind::ExternBlock { nodes }
            | NodeKind::Trait { items: nodes, .. }
            | NodeKind::Impl { items: nodes, .. }
            | NodeKind::Module {
                nodes: Some(nodes),
                ..
            } => any_long_path(nodes),
            _ => false,
        }
}

/// Whether a path in the nodes has too many segments.
#[cycle(paths)]
pub fn any_long_path(nodes: &Vec<Node>) -> bool
    ensures value { result ≡ have_long_path (nodes_view nodes.now.items) }
{
    for node in nodes {
        if any_long_in(node) {
            return true;
        }
    }
    false
}
