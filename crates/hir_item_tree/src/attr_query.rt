//! Questions about attributes, after rust-analyzer's `Attrs` and `AttrQuery`.
ghost use Rattle.std.specs.Prelude.{◌≡◌, [], IsTrue, filter, option_map};
ghost use Rattle.std.specs.Iterator.{YieldsFirstRef, item_count};
ghost use Rattle.hir_item_tree.specs.AttrQuery.{attrs_in, attrs_left, has_attr, attrs_after, is_ident, has_key, keyed, keyed_left, is_some_attr, literal_in, first_literal, tokens_in, token_trees, trees_left};

use crate::attrs::{Attr, AttrsOrCfg};
use crate::raw_attr::{AttrInput, TokenTree};
use hir_base::ast_id::AttrId;
use hir_base::mod_path::{ModPath, PathKind};

/// The attributes of an item, lent.
#[derive(Clone, Copy)]
pub struct Attrs<'a> {
    attrs: &'a [Attr],
}

/// Attributes one after another; see `Attrs::iter`.
#[derive(Clone, Copy)]
pub struct AttrIter<'a> {
    left: &'a [Attr],
}

/// The attributes of a key: those whose path is that name alone.
#[derive(Clone, Copy)]
pub struct AttrQuery<'a> {
    attrs: &'a [Attr],
    key: &'a str,
}

/// The attributes of a key, one after another; see `AttrQuery::attrs`.
#[derive(Clone, Copy)]
pub struct KeyedAttrs<'a> {
    left: &'a [Attr],
    key: &'a str,
}

/// What attributes of a key have in parentheses, one after another; see `AttrQuery::tt_values`.
#[derive(Clone, Copy)]
pub struct TokenTrees<'a> {
    attrs: KeyedAttrs<'a>,
}

impl AttrsOrCfg {
    /// The attributes that are kept.
    pub fn attrs(&self) -> Attrs<'_>
        ensures value { attrs_in result ≡ self.now.attrs.items }
    {
        Attrs::new(self.attrs.as_slice())
    }
}

impl<'a> Attrs<'a> {
    /// These attributes.
    pub fn new(attrs: &'a [Attr]) -> Attrs<'a>
        ensures value { attrs_in result ≡ attrs.now }
    {
        Attrs { attrs }
    }

    /// No attribute.
    pub fn empty() -> Attrs<'a>
        ensures value { attrs_in result ≡ [] }
    {
        Attrs { attrs: &[] }
    }

    /// The attributes in their order.
    pub fn as_slice(&self) -> &'a [Attr]
        ensures value { result.now ≡ attrs_in self.now }
    {
        self.attrs
    }

    /// The attributes one after another.
    pub fn iter(&self) -> AttrIter<'a>
        ensures value { attrs_left result ≡ attrs_in self.now }
    {
        AttrIter { left: self.attrs }
    }

    /// Whether an attribute has this number; also where none is asked for.
    pub fn has(&self, id: Option<AttrId>) -> bool
        ensures value { result ≡ has_attr id (attrs_in self.now) }
    {
        let Some(id) = id else {
            return true;
        };
        for attr in self.attrs {
            if attr.id.0 == id.0 {
                return true;
            }
        }
        false
    }

    /// The attributes behind the one with this number, or all where none is asked for.
    pub fn iter_after(&self, after: Option<AttrId>) -> AttrIter<'a>
        requires there { IsTrue (has_attr after (attrs_in self.now)) }
        ensures value { attrs_left result ≡ attrs_after after (attrs_in self.now) }
    {
        let Some(id) = after else {
            return AttrIter { left: self.attrs };
        };
        let mut left = self.attrs;
        while let Some((first, rest)) = left.split_first() {
            left = rest;
            if first.id.0 == id.0 {
                return AttrIter { left };
            }
        }
        AttrIter { left }
    }

    /// The attributes of a key.
    pub fn by_key(&self, key: &'a str) -> AttrQuery<'a>
        ensures value { keyed result ≡ filter (has_key key.now) (attrs_in self.now) }
    {
        AttrQuery {
            attrs: self.attrs,
            key,
        }
    }
}

// Whether a path is this name alone.
fn is_ident(path: &ModPath, key: &str) -> bool
    ensures value { result ≡ is_ident path.now.kind path.now.segments key.now }
{
    match (path.kind(), path.segments()) {
        (PathKind::Plain, [name]) => name.as_str() == key,
        _ => false,
    }
}

impl<'a> Iterator for AttrIter<'a> {
    type Item = &'a Attr;

    ghost next_gives = { YieldsFirstRef attrs_left };

    ghost remaining = { item_count attrs_left };

    fn next(&mut self) -> Option<&'a Attr> {
        let (attr, rest) = self.left.split_first()?;
        self.left = rest;
        Some(attr)
    }
}

impl<'a> AttrQuery<'a> {
    /// Whether an attribute has the key.
    pub fn exists(&self) -> bool
        ensures value { result ≡ is_some_attr (keyed self.now) }
    {
        let mut attrs = self.attrs();
        attrs.next().is_some()
    }

    /// The first literal that an attribute of the key gives.
    pub fn string_value(&self) -> Option<&'a str>
        ensures value { option_map (λ text. text.now) result ≡ first_literal (keyed self.now) }
    {
        for attr in self.attrs {
            if is_ident(&attr.meta.path, self.key) {
                if let Some(AttrInput::Literal(text)) = &attr.meta.input {
                    return Some(text.as_str());
                }
            }
        }
        None
    }

    /// The attributes of the key, one after another.
    pub fn attrs(&self) -> KeyedAttrs<'a>
        ensures value { keyed_left result ≡ keyed self.now }
    {
        KeyedAttrs {
            left: self.attrs,
            key: self.key,
        }
    }

    /// What the attributes of the key have in parentheses, one after another.
    pub fn tt_values(&self) -> TokenTrees<'a>
        ensures value { trees_left result ≡ token_trees (keyed self.now) }
    {
        TokenTrees {
            attrs: self.attrs(),
        }
    }
}

impl<'a> Iterator for KeyedAttrs<'a> {
    type Item = &'a Attr;

    ghost next_gives = { YieldsFirstRef keyed_left };

    ghost remaining = { item_count keyed_left };

    fn next(&mut self) -> Option<&'a Attr> {
        while let Some((attr, others)) = self.left.split_first() {
            self.left = others;
            if is_ident(&attr.meta.path, self.key) {
                return Some(attr);
            }
        }
        None
    }
}

impl<'a> Iterator for TokenTrees<'a> {
    type Item = &'a TokenTree;

    ghost next_gives = { YieldsFirstRef trees_left };

    ghost remaining = { item_count trees_left };

    fn next(&mut self) -> Option<&'a TokenTree> {
        while let Some(attr) = self.attrs.next() {
            if let Some(AttrInput::TokenTree(tree)) = &attr.meta.input {
                return Some(tree);
            }
        }
        None
    }
}
