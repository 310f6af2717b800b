//! Tests of attributes, each exact.
ghost use Rattle.std.specs.Prelude.{◌≡◌, ◌↔◌, IsTrue, map, option_map};
ghost use Rattle.hir_base.specs.Cfg.{cfg_view};
ghost use Rattle.hir_item_tree.specs.Attributes.{attribute_view, attributes_view, token_tree_view, input_view, meta_view};
ghost use Rattle.hir_item_tree.specs.Collected.{numbered, collected_of};

use crate::attrs::{Attr, AttrsOrCfg};
use crate::raw_attr::{AttrInput, Meta, RawAttr, TokenTree};
use crate::same::{same_name, same_names, same_path};
use hir_base::cfg::CfgExpr;
use hir_base::mod_path::ModPath;

fn same_paths(a: &[ModPath], b: &[ModPath]) -> bool
    ensures exact { IsTrue result ↔ (a.now ≡ b.now) }
{
    if a.len() != b.len() {
        return false;
    }
    for i in 0..a.len() {
        if !same_path(&a[i], &b[i]) {
            return false;
        }
    }
    true
}

fn same_tokens(a: &TokenTree, b: &TokenTree) -> bool
    ensures exact { IsTrue result ↔ (token_tree_view a.now ≡ token_tree_view b.now) }
{
    match (a, b) {
        (TokenTree::Paths(a), TokenTree::Paths(b)) => same_paths(a, b),
        (TokenTree::Tokens(a), TokenTree::Tokens(b)) => a.as_str() == b.as_str(),
        (
            TokenTree::Derive {
                name: a,
                helpers: x,
            },
            TokenTree::Derive {
                name: b,
                helpers: y,
            },
        ) => same_name(a, b) && same_names(x, y),
        _ => false,
    }
}

fn same_input(a: &AttrInput, b: &AttrInput) -> bool
    ensures exact { IsTrue result ↔ (input_view a.now ≡ input_view b.now) }
{
    match (a, b) {
        (AttrInput::Literal(a), AttrInput::Literal(b)) => a.as_str() == b.as_str(),
        (AttrInput::TokenTree(a), AttrInput::TokenTree(b)) => same_tokens(a, b),
        _ => false,
    }
}

fn same_optional_input(a: &Option<AttrInput>, b: &Option<AttrInput>) -> bool
    ensures exact { IsTrue result ↔ (option_map input_view a.now ≡ option_map input_view b.now) }
{
    match (a, b) {
        (None, None) => true,
        (Some(a), Some(b)) => same_input(a, b),
        _ => false,
    }
}

fn same_meta(a: &Meta, b: &Meta) -> bool
    ensures exact { IsTrue result ↔ (meta_view a.now ≡ meta_view b.now) }
{
    same_path(&a.path, &b.path) && same_optional_input(&a.input, &b.input)
}

fn same_attr(a: &Attr, b: &Attr) -> bool
    ensures exact { IsTrue result ↔ (numbered a.now ≡ numbered b.now) }
{
    a.id.0 == b.id.0 && same_meta(&a.meta, &b.meta)
}

fn same_attrs(a: &[Attr], b: &[Attr]) -> bool
    ensures exact { IsTrue result ↔ (map numbered a.now ≡ map numbered b.now) }
{
    if a.len() != b.len() {
        return false;
    }
    for i in 0..a.len() {
        if !same_attr(&a[i], &b[i]) {
            return false;
        }
    }
    true
}

fn same_optional_cfg(a: &Option<CfgExpr>, b: &Option<CfgExpr>) -> bool
    ensures exact { IsTrue result ↔ (option_map cfg_view a.now ≡ option_map cfg_view b.now) }
{
    match (a, b) {
        (None, None) => true,
        (Some(a), Some(b)) => a.same(b),
        _ => false,
    }
}

/// Whether an attribute that was handed in says the same as another.
#[cycle(same)]
fn same_raw_attr(a: &RawAttr, b: &RawAttr) -> bool
    ensures exact { IsTrue result ↔ (attribute_view a.now ≡ attribute_view b.now) }
{
    match (a, b) {
        (RawAttr::Meta(a), RawAttr::Meta(b)) => same_meta(a, b),
        (RawAttr::Cfg(a), RawAttr::Cfg(b)) => a.same(b),
        (RawAttr::CfgAttr { cfg: a, attrs: x }, RawAttr::CfgAttr { cfg: b, attrs: y }) => a.same(b)
            && same_raw_list(x, y),
        _ => false,
    }
}

#[cycle(same)]
fn same_raw_list(a: &Vec<RawAttr>, b: &Vec<RawAttr>) -> bool
    ensures exact { IsTrue result ↔ (attributes_view a.now.items ≡ attributes_view b.now.items) }
{
    if a.len() != b.len() {
        return false;
    }
    let mut i = 0;
    for attr in a {
        if !same_raw_attr(attr, &b[i]) {
            return false;
        }
        i += 1;
    }
    true
}

/// Whether attributes that were handed in say the same, one after another.
pub fn same_raw_attrs(a: &Vec<RawAttr>, b: &Vec<RawAttr>) -> bool
    ensures exact { IsTrue result ↔ (attributes_view a.now.items ≡ attributes_view b.now.items) }
{
    same_raw_list(a, b)
}

impl AttrsOrCfg {
    /// Whether the same attributes are left, with their numbers, and the same condition doesn't hold.
    pub fn same(&self, other: &AttrsOrCfg) -> bool
        ensures exact { IsTrue result ↔ (collected_of self.now ≡ collected_of other.now) }
    {
        same_attrs(&self.attrs, &other.attrs) && same_optional_cfg(&self.disabled, &other.disabled)
    }
}
