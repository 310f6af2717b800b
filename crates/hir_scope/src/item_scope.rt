//! What the names of a module or a block stand for there, and what it declares, after rust-analyzer's `ItemScope`.
ghost use Rattle.std.specs.Prelude.{◌≡◌, ◌≤◌, [], length};
ghost use Rattle.std.specs.Ordering.{nat_cmp};
ghost use Rattle.std.specs.Cmp.Lexicographic.{slice_cmp};
ghost use Rattle.hir_scope.specs.Probe.{binary_digits, position_of};
ghost use Rattle.hir_scope.specs.Scope.{empty_scope, binding_of};
ghost use Rattle.hir_scope.specs.Scope.Entries.{scope_names};

mod ascending;
pub mod censor;
pub mod declare;
pub mod dump;
mod eq;
pub mod iter;
pub mod macro_calls;
pub mod names_of;
pub mod push;
pub mod reads;
pub mod resolve_import;
pub mod update;

use crate::imports::{ImportId, ImportOrDef, ImportOrExternCrate, ImportOrGlob};
use crate::item_scope::macro_calls::DeriveAttributes;
use crate::per_ns::{Item, MacrosItem, PerNs, TypesItem, ValuesItem};
use hir_ids::ast_id::{AstId, MacroCallId};
use hir_ids::ids::{ConstId, ExternBlockId, ExternCrateId, ImplId, ModuleDefId, TraitId, UseId};
use hir_ids::macro_kind::BuiltinDeriveImplId;
use hir_ids::name::Name;
use hir_scope_table::entry_list::EntryList;
use hir_scope_table::probe::Probe;
use hir_textual_scope::textual_scope::TextualScope;
use indexmap::IndexMap;
use std::alloc::Global;
use std::collections::BTreeMap;
use std::marker::Model;

/// The bindings of a module or a block by namespace, what it declares, and what its imports and macro calls became.
pub struct ItemScope {
    alloc: Global,
    /// What names stand for, and which are unresolved.
    names: EntryList<TypesItem, ValuesItem, MacrosItem>,
    /// What each import reached, by namespace.
    type_records: BTreeMap<ImportOrExternCrate, ImportOrDef>,
    value_records: BTreeMap<ImportOrGlob, ImportOrDef>,
    macro_records: BTreeMap<ImportOrExternCrate, ImportOrDef>,
    declarations: Vec<ModuleDefId>,
    impls: Vec<(ImplId, bool)>,
    builtin_derive_impls: Vec<BuiltinDeriveImplId>,
    extern_blocks: Vec<ExternBlockId>,
    unnamed_consts: Vec<ConstId>,
    unnamed_traits: IndexMap<TraitId, Item<(), ImportId>>,
    use_decls: Vec<UseId>,
    extern_crate_decls: Vec<ExternCrateId>,
    legacy_macros: TextualScope,
    attr_macros: IndexMap<AstId, MacroCallId>,
    macro_calls: IndexMap<AstId, MacroCallId>,
    derive_macros: IndexMap<AstId, DeriveAttributes>,
}

impl Drop for ItemScope {
    fn drop(self) {
        let ItemScope {
            alloc: _,
            names: _,
            type_records: _,
            value_records: _,
            macro_records: _,
            declarations: _,
            impls: _,
            builtin_derive_impls: _,
            extern_blocks: _,
            unnamed_consts: _,
            unnamed_traits: _,
            use_decls: _,
            extern_crate_decls: _,
            legacy_macros: _,
            attr_macros: _,
            macro_calls: _,
            derive_macros: _,
        } = self;
    }
}

impl Model for ItemScope {
    ghost use Rattle.hir_scope.specs.Scope.{ScopeValue};
    ghost use Rattle.hir_scope.specs.Slots.{types_in, values_in, macros_in, unresolved_in};

    ghost Value = { ScopeValue };

    ghost view = { λ s. record {
      types = types_in s.names;
      values = values_in s.names;
      macros = macros_in s.names;
      unresolved = unresolved_in s.names;
      declarations = s.declarations.items;
      impls = s.impls.items;
      builtin_derive_impls = s.builtin_derive_impls.items;
      extern_blocks = s.extern_blocks.items;
      unnamed_consts = s.unnamed_consts.items;
      unnamed_traits = s.unnamed_traits.entries;
      type_imports = s.type_records.entries;
      value_imports = s.value_records.entries;
      macro_imports = s.macro_records.entries;
      use_decls = s.use_decls.items;
      extern_crate_decls = s.extern_crate_decls.items;
      legacy_macros = s.legacy_macros;
      attr_macros = s.attr_macros.entries;
      macro_calls = s.macro_calls.entries;
      derive_macros = s.derive_macros.entries;
    } };
}

impl ItemScope {
    /// A scope without anything.
    pub fn new(alloc: Global) -> ItemScope
        ensures value { result ≡ empty_scope }
    {
        ItemScope {
            alloc,
            names: EntryList::new(alloc),
            type_records: BTreeMap::new(alloc),
            value_records: BTreeMap::new(alloc),
            macro_records: BTreeMap::new(alloc),
            declarations: Vec::new(alloc),
            impls: Vec::new(alloc),
            builtin_derive_impls: Vec::new(alloc),
            extern_blocks: Vec::new(alloc),
            unnamed_consts: Vec::new(alloc),
            unnamed_traits: IndexMap::new(alloc),
            use_decls: Vec::new(alloc),
            extern_crate_decls: Vec::new(alloc),
            legacy_macros: TextualScope::new(alloc),
            attr_macros: IndexMap::new(alloc),
            macro_calls: IndexMap::new(alloc),
            derive_macros: IndexMap::new(alloc),
        }
    }

    /// The position of a name among those of the scope, if it is one of them, and how many names it was compared with.
    pub fn find(&self, name: &Name) -> (Option<usize>, Probe)
        ensures position { result.0 ≡ position_of (slice_cmp nat_cmp) (scope_names self.now) name.now }
        ensures count { result.1 ≤ binary_digits (length (scope_names self.now)) }
    {
        self.names.is_kept();
        self.names.find(name)
    }

    /// What a name stands for; macros in textual scope don't count.
    pub fn get(&self, name: &Name) -> PerNs
        ensures value { result ≡ binding_of self.now name.now }
    {
        let Some(entry) = self.names.get(name) else {
            return PerNs::none();
        };
        PerNs {
            types: entry.types().copied(),
            values: entry.values().copied(),
            macros: entry.macros().copied(),
        }
    }
}
