//! Walks over the macro calls of a scope.
ghost use Rattle.std.specs.Prelude.{◌≡◌, ◌∷◌, ◌++◌, List, MatchOption, []};
ghost use Rattle.std.specs.Iterator.{YieldsFirst, item_count};
ghost use Rattle.std.specs.Map.{values_of};
ghost use Rattle.hir_scope.specs.Scope.Reads.{calls_among, calls_of_attributes, calls_of_items};

use crate::item_scope::ItemScope;
use crate::item_scope::macro_calls::{DeriveAttribute, DeriveAttributes};
use either::Either;
use hir_ids::ast_id::{AstId, MacroCallId};
use hir_ids::macro_kind::BuiltinDeriveImplId;
use std::marker::Model;

/// What the paths of a `derive` attribute became.
type Slots<'a> = &'a [Option<Either<MacroCallId, BuiltinDeriveImplId>>];

/// The first call among paths, and the paths behind it.
fn first_of_slots<'a>(slots: Slots<'a>) -> Option<(MacroCallId, Slots<'a>)>
    ensures value { MatchOption result (calls_among slots.now ≡ [])
        (λ found. calls_among slots.now ≡ found.0 ∷ calls_among found.1.now) }
{
    let mut left = slots;
    'next: while let [slot, others @ ..] = left {
        if let Some(Either::Left(call)) = slot {
            return Some((*call, others));
        }
        left = others;
    }
    None
}

/// The first call among the paths of attributes, the paths behind it, and the attributes behind those.
fn first_of_attributes<'a>(
    attributes: &'a [DeriveAttribute],
) -> Option<(MacroCallId, Slots<'a>, &'a [DeriveAttribute])>
    ensures value { MatchOption result (calls_of_attributes attributes.now ≡ [])
        (λ found. calls_of_attributes attributes.now
        ≡ found.0 ∷ (calls_among found.1.now ++ calls_of_attributes found.2.now)) }
{
    let mut left = attributes;
    'next: while let [attribute, others @ ..] = left {
        if let Some((call, slots)) = first_of_slots(attribute.derive_call_ids.as_slice()) {
            return Some((call, slots, others));
        }
        left = others;
    }
    None
}

/// The calls that derive paths became, in the order in which items, attributes and paths were met.
#[derive(Drop)]
struct DeriveCallIds<'a> {
    items: indexmap::map::Values<'a, AstId, DeriveAttributes>,
    attributes: &'a [DeriveAttribute],
    slots: Slots<'a>,
}

impl<'a> Model for DeriveCallIds<'a> {
    ghost use Rattle.std.specs.Prelude.{List, ◌++◌};
    ghost use Rattle.hir_ids.specs.declared.ast_id.MacroCallId.{MacroCallId};
    ghost use Rattle.hir_scope.specs.Scope.Reads.{calls_among, calls_of_attributes, calls_of_items};

    ghost Value = { List MacroCallId };

    ghost view = { λ walk. calls_among walk.slots.now ++ (calls_of_attributes walk.attributes.now ++ calls_of_items walk.items) };
}

impl<'a> DeriveCallIds<'a> {
    fn advance(&mut self) -> Option<MacroCallId>
        ensures first { YieldsFirst (λ (left : List _). left) self.old result self.new }
    {
        if let Some((call, slots)) = first_of_slots(self.slots) {
            self.slots = slots;
            return Some(call);
        }
        if let Some((call, slots, attributes)) = first_of_attributes(self.attributes) {
            self.slots = slots;
            self.attributes = attributes;
            return Some(call);
        }
        'next: while let Some(item) = self.items.next() {
            let attributes = item.attributes.as_slice();
            if let Some((call, slots, others)) = first_of_attributes(attributes) {
                self.slots = slots;
                self.attributes = others;
                return Some(call);
            }
        }
        None
    }
}

/// All macro calls of a scope; see `ItemScope::all_macro_calls`.
#[derive(Drop)]
pub struct MacroCalls<'a> {
    calls: indexmap::map::Values<'a, AstId, MacroCallId>,
    attributes: indexmap::map::Values<'a, AstId, MacroCallId>,
    derives: DeriveCallIds<'a>,
}

impl<'a> Model for MacroCalls<'a> {
    ghost use Rattle.std.specs.Prelude.{List, ◌++◌};
    ghost use Rattle.hir_ids.specs.declared.ast_id.MacroCallId.{MacroCallId};

    ghost Value = { List MacroCallId };

    ghost view = { λ walk. walk.calls ++ (walk.attributes ++ walk.derives) };
}

impl ItemScope {
    /// The macro calls, the calls of attributes, and the calls that derive paths became; impls of builtin derives don't
    /// count.
    pub fn all_macro_calls(&self) -> MacroCalls<'_>
        ensures value { result ≡ values_of self.now.macro_calls
            ++ (values_of self.now.attr_macros ++ calls_of_items (values_of self.now.derive_macros)) }
    {
        MacroCalls {
            calls: self.macro_calls.values(),
            attributes: self.attr_macros.values(),
            derives: DeriveCallIds {
                items: self.derive_macros.values(),
                attributes: &[],
                slots: &[],
            },
        }
    }
}

impl<'a> Iterator for MacroCalls<'a> {
    type Item = MacroCallId;

    ghost next_gives = { YieldsFirst (λ (left : List _). left) };

    ghost remaining = { item_count (λ (left : List _). left) };

    fn next(&mut self) -> Option<MacroCallId> {
        if let Some(call) = self.calls.next() {
            return Some(*call);
        }
        if let Some(call) = self.attributes.next() {
            return Some(*call);
        }
        self.derives.advance()
    }
}
