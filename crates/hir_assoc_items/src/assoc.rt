//! The items of traits and impls, after rust-analyzer's `nameres/assoc.rs`.
ghost use Rattle.std.specs.Prelude.{◌≡◌, List};
ghost use Rattle.std.specs.Iterator.{YieldsFirst, item_count};
ghost use Rattle.hir_assoc_items.specs.Readers.{as_function, as_item, as_type, first_named, types_among};

use hir_base::ast_id::{AstId, MacroCallId};
use hir_base::ids::{AssocItemId, FunctionId, TypeAliasId};
use hir_base::name::Name;
use std::marker::Model;

/// The items of a trait.
#[derive(Drop)]
pub struct TraitItems {
    /// Its functions, type aliases and constants with a name, in the order of the source. What a call in the list
    /// expands to stands in the call's place.
    pub items: Vec<(Name, AssocItemId)>,
    /// The calls in the list and in what they expand to, each before those in its expansion.
    pub macro_calls: Vec<(AstId, MacroCallId)>,
}

/// The items of an impl.
#[derive(Drop)]
pub struct ImplItems {
    /// Its functions, type aliases and constants with a name, in the order of the source. What a call in the list
    /// expands to stands in the call's place.
    pub items: Vec<(Name, AssocItemId)>,
    /// The calls in the list and in what they expand to, each before those in its expansion.
    pub macro_calls: Vec<(AstId, MacroCallId)>,
}

/// The first function of a name.
fn first_function(items: &[(Name, AssocItemId)], name: &Name) -> Option<FunctionId>
    ensures value { result ≡ first_named as_function name.now items.now }
{
    let mut left = items;
    'next: while let [(own, id), others @ ..] = left {
        if let AssocItemId::FunctionId(id) = id {
            if *own == *name {
                return Some(*id);
            }
        }
        left = others;
    }
    None
}

/// The first type alias of a name.
fn first_type(items: &[(Name, AssocItemId)], name: &Name) -> Option<TypeAliasId>
    ensures value { result ≡ first_named as_type name.now items.now }
{
    let mut left = items;
    'next: while let [(own, id), others @ ..] = left {
        if let AssocItemId::TypeAliasId(id) = id {
            if *own == *name {
                return Some(*id);
            }
        }
        left = others;
    }
    None
}

/// The first item of a name.
fn first_item(items: &[(Name, AssocItemId)], name: &Name) -> Option<AssocItemId>
    ensures value { result ≡ first_named as_item name.now items.now }
{
    let mut left = items;
    'next: while let [(own, id), others @ ..] = left {
        if *own == *name {
            return Some(*id);
        }
        left = others;
    }
    None
}

impl TraitItems {
    /// Its type aliases, in order.
    pub fn associated_types(&self) -> AssociatedTypes<'_>
        ensures value { result ≡ types_among self.now.items.items }
    {
        AssociatedTypes {
            left: self.items.as_slice(),
        }
    }

    /// The first type alias of a name.
    pub fn associated_type_by_name(&self, name: &Name) -> Option<TypeAliasId>
        ensures value { result ≡ first_named as_type name.now self.now.items.items }
    {
        first_type(self.items.as_slice(), name)
    }

    /// The first function of a name.
    pub fn method_by_name(&self, name: &Name) -> Option<FunctionId>
        ensures value { result ≡ first_named as_function name.now self.now.items.items }
    {
        first_function(self.items.as_slice(), name)
    }

    /// The first item of a name, whatever it is.
    pub fn assoc_item_by_name(&self, name: &Name) -> Option<AssocItemId>
        ensures value { result ≡ first_named as_item name.now self.now.items.items }
    {
        first_item(self.items.as_slice(), name)
    }

    /// Its calls that were expanded, in order, with their numbers.
    pub fn macro_calls(&self) -> MacroCalls<'_>
        ensures value { result ≡ self.now.macro_calls.items }
    {
        MacroCalls {
            left: self.macro_calls.as_slice(),
        }
    }
}

impl ImplItems {
    /// Its calls that were expanded, in order, with their numbers.
    pub fn macro_calls(&self) -> MacroCalls<'_>
        ensures value { result ≡ self.now.macro_calls.items }
    {
        MacroCalls {
            left: self.macro_calls.as_slice(),
        }
    }
}

/// The type aliases of a trait; see `TraitItems::associated_types`.
#[derive(Drop)]
pub struct AssociatedTypes<'a> {
    left: &'a [(Name, AssocItemId)],
}

impl<'a> Model for AssociatedTypes<'a> {
    ghost use Rattle.std.specs.Prelude.{List};
    ghost use Rattle.hir_collector_rules.specs.HirIds.declared.ids.TypeAliasId.{TypeAliasId};
    ghost use Rattle.hir_assoc_items.specs.Readers.{types_among};

    ghost Value = { List TypeAliasId };

    ghost view = { λ walk. types_among walk.left.now };
}

impl<'a> Iterator for AssociatedTypes<'a> {
    type Item = TypeAliasId;

    ghost next_gives = { YieldsFirst (λ (left : List _). left) };

    ghost remaining = { item_count (λ (left : List _). left) };

    fn next(&mut self) -> Option<TypeAliasId> {
        'next: while let [(_, id), others @ ..] = self.left {
            self.left = others;
            if let AssocItemId::TypeAliasId(id) = id {
                return Some(*id);
            }
        }
        None
    }
}

/// The calls of a trait or an impl with their numbers; see `TraitItems::macro_calls`.
#[derive(Drop)]
pub struct MacroCalls<'a> {
    left: &'a [(AstId, MacroCallId)],
}

impl<'a> Model for MacroCalls<'a> {
    ghost use Rattle.std.specs.Prelude.{List};
    ghost use Rattle.hir_collector_rules.specs.HirIds.declared.ast_id.AstId.{AstId};
    ghost use Rattle.hir_collector_rules.specs.HirIds.declared.ast_id.MacroCallId.{MacroCallId};

    ghost Value = { List (AstId × MacroCallId) };

    ghost view = { λ walk. walk.left.now };
}

impl<'a> Iterator for MacroCalls<'a> {
    type Item = (AstId, MacroCallId);

    ghost next_gives = { YieldsFirst (λ (left : List _). left) };

    ghost remaining = { item_count (λ (left : List _). left) };

    fn next(&mut self) -> Option<(AstId, MacroCallId)> {
        let [call, others @ ..] = self.left else {
            return None;
        };
        self.left = others;
        Some(*call)
    }
}
