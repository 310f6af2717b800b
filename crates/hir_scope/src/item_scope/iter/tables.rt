//! The tables of a scope: macros in textual scope, and what calls, attributes and derives became.
ghost use Rattle.std.specs.Prelude.{◌≡◌, List};
ghost use Rattle.std.specs.Iterator.{YieldsFirstBy, item_count};
ghost use Rattle.std.specs.Map.Iter.{deref_pair};

use crate::item_scope::ItemScope;
use crate::item_scope::macro_calls::{DeriveAttribute, DeriveAttributes};
use either::Either;
use hir_ids::ast_id::{AstId, AttrId, MacroCallId};
use hir_ids::macro_kind::BuiltinDeriveImplId;
use hir_textual_scope::textual_scope::TextualMacros;
use std::marker::Model;

/// Nodes, each with what a table of a scope has of it; see `ItemScope::iter_macro_invoc`, `attr_macro_invocs` and
/// `derive_macro_invocs`.
#[derive(Drop)]
pub struct TableEntries<'a, K, V> {
    left: indexmap::map::Iter<'a, K, V>,
}

impl<'a, K, V> Model for TableEntries<'a, K, V> {
    ghost use Rattle.std.specs.Prelude.{List};

    ghost Value = { List (K × V) };

    ghost view = { λ walk. walk.left };
}

impl DeriveAttribute {
    pub fn attr_id(&self) -> AttrId
        ensures value { result ≡ self.now.attr_id }
    {
        self.attr_id
    }

    /// The call of the attribute itself.
    pub fn attr_call_id(&self) -> MacroCallId
        ensures value { result ≡ self.now.attr_call_id }
    {
        self.attr_call_id
    }

    /// For each path the call or the builtin impl that it became, once it did.
    pub fn derive_call_ids(&self) -> &[Option<Either<MacroCallId, BuiltinDeriveImplId>>]
        ensures value { result.now ≡ self.now.derive_call_ids }
    {
        self.derive_call_ids.as_slice()
    }
}

impl DeriveAttributes {
    pub fn as_slice(&self) -> &[DeriveAttribute]
        ensures value { result.now ≡ self.now }
    {
        self.attributes.as_slice()
    }
}

impl ItemScope {
    /// The macros in textual scope, in the order of their definition.
    pub fn legacy_macros(&self) -> TextualMacros<'_>
        ensures value { result ≡ self.now.legacy_macros }
    {
        self.legacy_macros.iter()
    }

    /// Each macro call with what it became.
    pub fn iter_macro_invoc(&self) -> TableEntries<'_, AstId, MacroCallId>
        ensures value { result ≡ self.now.macro_calls }
    {
        TableEntries {
            left: self.macro_calls.iter(),
        }
    }

    /// Each item with what its attribute became.
    pub fn attr_macro_invocs(&self) -> TableEntries<'_, AstId, MacroCallId>
        ensures value { result ≡ self.now.attr_macros }
    {
        TableEntries {
            left: self.attr_macros.iter(),
        }
    }

    /// Each item with its `derive` attributes.
    pub fn derive_macro_invocs(&self) -> TableEntries<'_, AstId, DeriveAttributes>
        ensures value { result ≡ self.now.derive_macros }
    {
        TableEntries {
            left: self.derive_macros.iter(),
        }
    }
}

impl<'a, K, V> Iterator for TableEntries<'a, K, V> {
    type Item = (&'a K, &'a V);

    ghost next_gives = { YieldsFirstBy deref_pair (λ (left : List (K × V)). left) };

    ghost remaining = { item_count (λ (left : List _). left) };

    fn next(&mut self) -> Option<(&'a K, &'a V)> {
        self.left.next()
    }
}
