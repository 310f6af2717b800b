//! What a scope holds, list by list and name by name.
ghost use Rattle.std.specs.Prelude.{◌≡◌};
ghost use Rattle.hir_scope.specs.Entries.{item_at};
ghost use Rattle.hir_scope.specs.Scope.Reads.{type_at, macro_at, legacy_at, last_legacy_at, at_node, derive_attribute, derive_call, unnamed_vis};

use crate::item_scope::ItemScope;
use crate::item_scope::macro_calls::DeriveAttribute;
use crate::per_ns::{MacrosItem, TypesItem, ValuesItem};
use crate::visibility::Visibility;
use hir_ids::ast_id::{AstId, AttrId, MacroCallId};
use hir_ids::ids::{ConstId, ExternBlockId, ExternCrateId, ModuleDefId, TraitId, UseId};
use hir_ids::macro_kind::{BuiltinDeriveImplId, MacroId};
use hir_ids::name::Name;
use hir_textual_scope::textual_scope::{MacrosOf, TextualScope};

impl ItemScope {
    /// The definitions that are declared here.
    pub fn declarations(&self) -> &[ModuleDefId]
        ensures value { result.now ≡ self.now.declarations }
    {
        self.declarations.as_slice()
    }

    pub fn extern_crate_decls(&self) -> &[ExternCrateId]
        ensures value { result.now ≡ self.now.extern_crate_decls }
    {
        self.extern_crate_decls.as_slice()
    }

    pub fn extern_blocks(&self) -> &[ExternBlockId]
        ensures value { result.now ≡ self.now.extern_blocks }
    {
        self.extern_blocks.as_slice()
    }

    pub fn use_decls(&self) -> &[UseId]
        ensures value { result.now ≡ self.now.use_decls }
    {
        self.use_decls.as_slice()
    }

    pub fn builtin_derive_impls(&self) -> &[BuiltinDeriveImplId]
        ensures value { result.now ≡ self.now.builtin_derive_impls }
    {
        self.builtin_derive_impls.as_slice()
    }

    pub fn unnamed_consts(&self) -> &[ConstId]
        ensures value { result.now ≡ self.now.unnamed_consts }
    {
        self.unnamed_consts.as_slice()
    }

    /// The macros of a name in textual scope, the last one last.
    pub fn get_legacy_macro<'a>(&'a self, name: &'a Name) -> MacrosOf<'a>
        ensures value { result ≡ legacy_at self.now name.now }
    {
        self.legacy_macros.macros_of(name)
    }

    /// The macro that a name means in textual scope: the last one.
    pub fn last_legacy_macro(&self, name: &Name) -> Option<MacroId>
        ensures value { result ≡ last_legacy_at self.now name.now }
    {
        self.legacy_macros.last(name)
    }

    /// The macros in textual scope.
    pub fn textual_scope(&self) -> &TextualScope
        ensures value { result.now ≡ self.now.legacy_macros }
    {
        &self.legacy_macros
    }

    /// What a name stands for in types.
    pub fn type_item(&self, name: &Name) -> Option<TypesItem>
        ensures value { result ≡ item_at self.now.types name.now }
    {
        match self.names.get(name) {
            Some(entry) => entry.types().copied(),
            None => None,
        }
    }

    /// What a name stands for in values.
    pub fn value_item(&self, name: &Name) -> Option<ValuesItem>
        ensures value { result ≡ item_at self.now.values name.now }
    {
        match self.names.get(name) {
            Some(entry) => entry.values().copied(),
            None => None,
        }
    }

    /// What a name stands for in macros.
    pub fn macro_item(&self, name: &Name) -> Option<MacrosItem>
        ensures value { result ≡ item_at self.now.macros name.now }
    {
        match self.names.get(name) {
            Some(entry) => entry.macros().copied(),
            None => None,
        }
    }

    /// The type of a name.
    pub fn type_(&self, name: &Name) -> Option<(ModuleDefId, Visibility)>
        ensures value { result ≡ type_at self.now name.now }
    {
        match self.type_item(name) {
            Some(item) => Some((item.def, item.vis)),
            None => None,
        }
    }

    /// The macro of a name; those in textual scope don't count.
    pub fn makro(&self, name: &Name) -> Option<MacroId>
        ensures value { result ≡ macro_at self.now name.now }
    {
        match self.macro_item(name) {
            Some(item) => Some(item.def),
            None => None,
        }
    }

    /// What a macro call became.
    pub fn macro_invoc(&self, call: AstId) -> Option<MacroCallId>
        ensures value { result ≡ at_node self.now.macro_calls call }
    {
        self.macro_calls.get(&call).copied()
    }

    /// What a `derive` attribute of an item became.
    pub fn derive_macro_invoc(&self, ast_id: AstId, attr_id: AttrId) -> Option<MacroCallId>
        ensures value { result ≡ derive_call self.now ast_id attr_id }
    {
        match self.derive_macros.get(&ast_id) {
            Some(of_node) => call_of_attribute(of_node.attributes.as_slice(), attr_id),
            None => None,
        }
    }

    /// The visibility under which a trait is imported without a name.
    pub fn unnamed_trait_vis(&self, id: TraitId) -> Option<Visibility>
        ensures value { result ≡ unnamed_vis self.now id }
    {
        match self.unnamed_traits.get(&id) {
            Some(item) => Some(item.vis),
            None => None,
        }
    }
}

fn call_of_attribute(attributes: &[DeriveAttribute], attr_id: AttrId) -> Option<MacroCallId>
    ensures value { result ≡ derive_attribute attr_id attributes.now }
{
    let mut left = attributes;
    'next: while let [attribute, others @ ..] = left {
        if attribute.attr_id == attr_id {
            return Some(attribute.attr_call_id);
        }
        left = others;
    }
    None
}
