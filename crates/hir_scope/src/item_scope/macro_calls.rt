//! What the macro calls, attributes and derives of a scope became.
ghost use Rattle.std.specs.Prelude.{◌≡◌, ◌++◌, ◌∷◌, [], position, IsTrue, IfOk, OnOk, OnErr};
ghost use Rattle.std.specs.Map.{lookup};
ghost use Rattle.hir_scope.specs.MacroScope.{with_item_behind, with_call, with_derive_attribute, is_attribute, has_path, has_slot, with_path_call, with_derive_call, has_derive_slot, with_derive};

use crate::item_scope::ItemScope;
use either::Either;
use hir_ids::ast_id::{AstId, AttrId, MacroCallId};
use hir_ids::macro_kind::BuiltinDeriveImplId;
use indexmap::IndexMap;
use std::alloc::{AllocError, Global};
use std::marker::Model;

/// A `derive` attribute: its call, and for each of its paths the call or the builtin impl that it became.
#[derive(Drop)]
pub struct DeriveAttribute {
    pub(crate) attr_id: AttrId,
    pub(crate) attr_call_id: MacroCallId,
    pub(crate) derive_call_ids: Vec<Option<Either<MacroCallId, BuiltinDeriveImplId>>>,
}

impl Model for DeriveAttribute {
    ghost use Rattle.hir_scope.specs.Scope.{DeriveCalls};

    ghost Value = { DeriveCalls };

    ghost view = { λ d. record { attr_id = d.attr_id; attr_call_id = d.attr_call_id; derive_call_ids = d.derive_call_ids.items } };
}

/// The `derive` attributes of one item, in the order in which they were met.
#[derive(Drop)]
pub struct DeriveAttributes {
    pub(crate) attributes: Vec<DeriveAttribute>,
}

impl Model for DeriveAttributes {
    ghost use Rattle.std.specs.Prelude.{List};
    ghost use Rattle.hir_scope.specs.Scope.{DeriveCalls};

    ghost Value = { List DeriveCalls };

    ghost view = { λ d. d.attributes.items };
}

impl DeriveAttribute {
    /// Whether this is the attribute of this number.
    fn is_attribute(&self, id: AttrId) -> bool
        ensures value { result ≡ is_attribute id self.now }
    {
        self.attr_id == id
    }

    /// Whether the attribute has a slot for this path.
    fn has_path(&self, idx: usize) -> bool
        ensures value { result ≡ has_path idx (Some self.now) }
    {
        idx < self.derive_call_ids.len()
    }

    /// Notes what a path became.
    fn set(&mut self, idx: usize, call: Either<MacroCallId, BuiltinDeriveImplId>)
        ensures value { self.new ≡ with_path_call self.old idx call }
    {
        if let Some(slot) = self.derive_call_ids.get_mut(idx) {
            *slot = Some(call);
        }
    }
}

impl DeriveAttributes {
    /// One attribute.
    fn of(alloc: Global, attribute: DeriveAttribute) -> Result<DeriveAttributes, AllocError>
        ensures ok { IfOk result (λ attributes. attributes ≡ attribute ∷ []) }
    {
        let mut attributes = Vec::new(alloc);
        attributes.push(attribute)?;
        Ok(DeriveAttributes { attributes })
    }

    /// One more, which is now the last.
    fn push(&mut self, attribute: DeriveAttribute) -> Result<(), AllocError>
        ensures ok { OnOk result (self.new ≡ self.old ++ attribute ∷ []) }
        ensures err { OnErr result (self.new ≡ self.old) }
    {
        self.attributes.push(attribute)?;
        Ok(())
    }

    /// Where the first attribute of this number stands.
    fn position(&self, id: AttrId) -> Option<usize>
        ensures value { result ≡ position (is_attribute id) self.now }
    {
        self.attributes
            .iter()
            .position(|attribute| attribute.is_attribute(id))
    }

    /// Whether the first attribute of this number has a slot for this path.
    fn has_slot(&self, id: AttrId, idx: usize) -> bool
        ensures value { result ≡ has_slot self.now id idx }
    {
        match self.position(id) {
            Some(i) => match self.attributes.get(i) {
                Some(attribute) => attribute.has_path(idx),
                None => false,
            },
            None => false,
        }
    }

    /// Notes what a path of the first attribute of this number became.
    fn set(&mut self, id: AttrId, idx: usize, call: Either<MacroCallId, BuiltinDeriveImplId>)
        ensures value { self.new ≡ with_derive_call self.old id idx call }
    {
        if let Some(i) = self.position(id) {
            if let Some(attribute) = self.attributes.get_mut(i) {
                attribute.set(idx, call);
            }
        }
    }
}

/// Adds an attribute to those of an item that has some.
fn push_derive_attribute(
    derives: &mut IndexMap<AstId, DeriveAttributes>,
    adt: &AstId,
    attribute: DeriveAttribute,
) -> Result<(), AllocError>
    ensures ok { OnOk result (derives.new.entries ≡ with_item_behind ⟦<AstId as PartialEq>⟧.eq derives.old.entries adt.now attribute
        (lookup (⟦<AstId as PartialEq>⟧.eq adt.now) derives.old.entries)) }
    ensures err { OnErr result (derives.new.entries ≡ derives.old.entries) }
{
    if let Some(attributes) = derives.get_mut(adt) {
        attributes.push(attribute)?;
    }
    Ok(())
}

impl ItemScope {
    /// Notes the call that an attribute of an item became.
    pub fn add_attr_macro_invoc(&mut self, item: AstId, call: MacroCallId) -> Result<(), AllocError>
        ensures ok { OnOk result (self.new ≡ record self.old { attr_macros = with_call self.old.attr_macros item call }) }
        ensures err { OnErr result (self.new ≡ self.old) }
    {
        self.attr_macros.insert(item, call)?;
        Ok(())
    }

    /// Notes what a macro call became.
    pub fn add_macro_invoc(&mut self, call: AstId, call_id: MacroCallId) -> Result<(), AllocError>
        ensures ok { OnOk result (self.new ≡ record self.old { macro_calls = with_call self.old.macro_calls call call_id }) }
        ensures err { OnErr result (self.new ≡ self.old) }
    {
        self.macro_calls.insert(call, call_id)?;
        Ok(())
    }

    /// Notes a `derive` attribute of an item, with one slot for each of its paths.
    pub fn init_derive_attribute(
        &mut self,
        adt: AstId,
        attr_id: AttrId,
        attr_call_id: MacroCallId,
        derive_call_ids: Vec<Option<Either<MacroCallId, BuiltinDeriveImplId>>>,
    ) -> Result<(), AllocError>
        ensures ok { OnOk result (self.new ≡ record self.old {
          derive_macros = with_derive_attribute self.old.derive_macros adt
              (record { attr_id = attr_id; attr_call_id = attr_call_id; derive_call_ids = derive_call_ids.items });
        }) }
        ensures err { OnErr result (self.new ≡ self.old) }
    {
        let attribute = DeriveAttribute {
            attr_id,
            attr_call_id,
            derive_call_ids,
        };
        if self.derive_macros.contains_key(&adt) {
            return push_derive_attribute(&mut self.derive_macros, &adt, attribute);
        }
        let attributes = DeriveAttributes::of(self.alloc, attribute)?;
        self.derive_macros.insert(adt, attributes)?;
        Ok(())
    }

    /// Whether the item's first `derive` attribute of this number has a slot for this path.
    pub fn has_derive_slot(&self, adt: AstId, id: AttrId, idx: usize) -> bool
        ensures value { result ≡ has_derive_slot self.now.derive_macros adt id idx }
    {
        match self.derive_macros.get(&adt) {
            Some(attributes) => attributes.has_slot(id, idx),
            None => false,
        }
    }

    /// Notes what a path of a `derive` attribute became.
    pub fn set_derive_macro_invoc(
        &mut self,
        adt: AstId,
        call: Either<MacroCallId, BuiltinDeriveImplId>,
        id: AttrId,
        idx: usize,
    )
        requires slot { IsTrue (has_derive_slot self.old.derive_macros adt id idx) }
        ensures value { self.new ≡ record self.old { derive_macros = with_derive self.old.derive_macros adt id idx call } }
    {
        if let Some(attributes) = self.derive_macros.get_mut(&adt) {
            attributes.set(id, idx, call);
        }
    }
}
