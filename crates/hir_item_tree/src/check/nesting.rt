//! How deep modules, use trees and conditions nest.
ghost use Rattle.std.specs.Prelude.{◌≡◌, ◌≤◌, ◌↔◌, IsTrue, map};
ghost use Rattle.std.specs.List.{list_any};
ghost use Rattle.hir_item_tree.specs.Attributes.{attribute_view, attributes_view};
ghost use Rattle.hir_base.specs.Cfg.{cfg_view, cfgs_view};
ghost use Rattle.hir_item_tree.specs.Source.{node_view, nodes_view, variant_view};
ghost use Rattle.hir_use_tree.specs.UseTree.{use_tree_view};
ghost use Rattle.hir_item_tree.specs.Limits.{item_depth, depth, is_deep_tree, has_deep_tree, have_deep_tree, cfg_depth, cfgs_depth, attribute_depth, attributes_depth, are_deep, is_deep_variant, has_deep_cfg, have_deep_cfg};

use crate::check::MAX_CFG;
use crate::raw_attr::RawAttr;
use crate::source::{Node, NodeKind, Variant};
use hir_base::cfg::CfgExpr;
use hir_use_tree::limits::{MAX_NESTING, fits_nesting};
use hir_use_tree::use_tree::UseTree;

// Whether modules nest at most so deep.
#[cycle(fits)]
fn fits_depth(node: &Node, left: u32) -> bool
    ensures fits { IsTrue result ↔ (item_depth (node_view node.now) ≤ left) }
{
    match &node.kind {
        NodeKind::Module { nodes: None, .. } => left > 0,
        NodeKind::Module {
            nodes: Some(nodes),
            ..
        } => left > 0 && fit_depth(nodes, left - 1),
        NodeKind::ExternBlock { nodes }
        | NodeKind::Trait { items: nodes, .. }
        | NodeKind::Impl { items: nodes, .. } => fit_depth(nodes, left),
        _ => true,
    }
}

/// Whether modules nest at most so deep.
#[cycle(fits)]
pub fn fit_depth(nodes: &Vec<Node>, left: u32) -> bool
    ensures fits { IsTrue result ↔ (depth (nodes_view nodes.now.items) ≤ left) }
{
    for node in nodes {
        if !fits_depth(node, left) {
            return false;
        }
    }
    true
}

fn deep_tree(tree: &UseTree) -> bool
    ensures value { result ≡ is_deep_tree (use_tree_view tree.now) }
{
    !fits_nesting(tree, MAX_NESTING)
}

#[cycle(trees)]
fn any_deep_tree_in(node: &Node) -> bool
    ensures value { result ≡ has_deep_tree (node_view node.now) }
{
    match &node.kind {
        NodeKind::Use { tree } => deep_tree(tree),
        NodeKind::ExternBlock { nodes }
        | NodeKind::Trait { items: nodes, .. }
        | NodeKind::Impl { items: nodes, .. }
        | NodeKind::Module {
            nodes: Some(nodes),
            ..
        } => any_deep_tree(nodes),
        _ => false,
    }
}

/// Whether lists nest too deep in a use tree of the nodes.
#[cycle(trees)]
pub fn any_deep_tree(nodes: &Vec<Node>) -> bool
    ensures value { result ≡ have_deep_tree (nodes_view nodes.now.items) }
{
    for node in nodes {
        if any_deep_tree_in(node) {
            return true;
        }
    }
    false
}

// Whether a condition nests at most so deep. It goes no deeper itself.
#[cycle(cfgs)]
fn fits_cfg(cfg: &CfgExpr, left: u32) -> bool
    ensures fits { IsTrue result ↔ (cfg_depth (cfg_view cfg.now) ≤ left) }
{
    match cfg {
        CfgExpr::Invalid | CfgExpr::Const(_) | CfgExpr::Atom(_) => true,
        CfgExpr::All(cfgs) | CfgExpr::Any(cfgs) => left > 0 && fit_cfgs(cfgs, left - 1),
        CfgExpr::Not(cfg) => left > 0 && fits_cfg(cfg, left - 1),
    }
}

#[cycle(cfgs)]
fn fit_cfgs(cfgs: &Vec<CfgExpr>, left: u32) -> bool
    ensures fits { IsTrue result ↔ (cfgs_depth (cfgs_view cfgs.now.items) ≤ left) }
{
    for cfg in cfgs {
        if !fits_cfg(cfg, left) {
            return false;
        }
    }
    true
}

// Whether conditions and `cfg_attr` nest at most so deep in an attribute. It goes no deeper itself.
#[cycle(attrs)]
fn fits_attr(attr: &RawAttr, left: u32) -> bool
    ensures fits { IsTrue result ↔ (attribute_depth (attribute_view attr.now) ≤ left) }
{
    match attr {
        RawAttr::Meta(_) => true,
        RawAttr::Cfg(cfg) => fits_cfg(cfg, left),
        RawAttr::CfgAttr { cfg, attrs } => {
            left > 0 && fits_cfg(cfg, left - 1) && fit_attrs(attrs, left - 1)
        }
    }
}

#[cycle(attrs)]
fn fit_attrs(attrs: &Vec<RawAttr>, left: u32) -> bool
    ensures fits { IsTrue result ↔ (attributes_depth (attributes_view attrs.now.items) ≤ left) }
{
    for attr in attrs {
        if !fits_attr(attr, left) {
            return false;
        }
    }
    true
}

/// Whether conditions or `cfg_attr` nest too deep in the attributes.
pub fn deep_attrs(attrs: &Vec<RawAttr>) -> bool
    ensures value { result ≡ are_deep (attributes_view attrs.now.items) }
{
    !fit_attrs(attrs, MAX_CFG)
}

fn any_deep_variant(variants: &[Variant]) -> bool
    ensures value { result ≡ list_any is_deep_variant (map variant_view variants.now) }
{
    for variant in variants {
        if deep_attrs(&variant.attrs) {
            return true;
        }
    }
    false
}

#[cycle(conditions)]
fn any_deep_cfg_in(node: &Node) -> bool
    ensures value { result ≡ has_deep_cfg (node_view node.now) }
{
    deep_attrs(&node.attrs)
        || match &node.kind {
            NodeKind::Enum { variants, .. } => any_deep_variant(variants),
            NodeKind::ExternBlock { nodes }
            | NodeKind::Trait { items: nodes, .. }
            | NodeKind::Impl { items: nodes, .. }
            | NodeKind::Module {
                nodes: Some(nodes),
                ..
            } => any_deep_cfg(nodes),
            _ => false,
        }
}

/// Whether conditions or `cfg_attr` nest too deep in an attribute of the nodes.
#[cycle(conditions)]
pub fn any_deep_cfg(nodes: &Vec<Node>) -> bool
    ensures value { result ≡ have_deep_cfg (nodes_view nodes.now.items) }
{
    for node in nodes {
        if any_deep_cfg_in(node) {
            return true;
        }
    }
    false
}
