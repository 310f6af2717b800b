//! The references of a map: one after another.
//!
//! A definition for which nothing has to be there, and a visibility that names no module, stand in a walk as `None`.
ghost use Rattle.std.specs.Prelude.{◌≡◌, List, option_map};
ghost use Rattle.std.specs.Iterator.{YieldsFirst, item_count};
ghost use Rattle.hir_def_map_rules.specs.Inner.ReferenceLists.{block_crate, references_besides, references_in, references_in_scope};

use crate::nameres::DefMap;
use hir_base::ids::{Crate, ExternCrateId, MapId, ModuleDefId, ModuleId, TraitId};
use hir_base::macro_kind::MacroId;
use hir_base::name::Name;
use hir_def_map_rules::local_def_map::LocalDefMap;
use hir_def_map_rules::module_data::ModuleData;
use hir_def_map_rules::reference::{Reference, reference_to, visibility_reference};
use hir_nameres::hir_crate_graph::Crates;
use hir_nameres::hir_scope::imports::{ImportId, ImportOrExternCrate, ImportOrGlob};
use hir_nameres::hir_scope::item_scope::ItemScope;
use hir_nameres::hir_scope::item_scope::iter::bindings::Bindings;
use hir_nameres::hir_scope::per_ns::Item;
use hir_nameres::hir_scope::visibility::Visibility;
use std::collections::btree_map;
use std::marker::Model;

/// The references of a scope: what its types and values are, and the modules that may see these, its macros and its
/// traits without names.
///
/// Of a type or a value comes first what it is, and then who may see it.
#[derive(Drop)]
pub(crate) struct ScopeReferences<'a> {
    /// Who may see the type that came last, where that is next.
    type_vis: Option<Visibility>,
    types: Bindings<'a, ModuleDefId, ImportOrExternCrate>,
    value_vis: Option<Visibility>,
    values: Bindings<'a, ModuleDefId, ImportOrGlob>,
    macros: Bindings<'a, MacroId, ImportOrExternCrate>,
    traits: indexmap::map::Iter<'a, TraitId, Item<(), ImportId>>,
}

impl<'a> Model for ScopeReferences<'a> {
    ghost use Rattle.std.specs.Prelude.{List, Option};
    ghost use Rattle.hir_def_map_rules.specs.declared.reference.Reference.{Reference};
    ghost use Rattle.hir_def_map_rules.specs.Inner.ReferenceLists.{scope_list};

    ghost Value = { List (Option Reference) };

    ghost view = { λ walk. scope_list walk.type_vis walk.types walk.value_vis walk.values walk.macros walk.traits };
}

impl ScopeReferences<'_> {
    fn of(scope: &ItemScope) -> ScopeReferences<'_>
        ensures value { result ≡ references_in_scope scope.now }
    {
        ScopeReferences {
            type_vis: None,
            types: scope.types(),
            value_vis: None,
            values: scope.values(),
            macros: scope.macros(),
            traits: scope.unnamed_traits(),
        }
    }
}

impl<'a> Iterator for ScopeReferences<'a> {
    type Item = Option<Reference>;

    ghost next_gives = { YieldsFirst (λ (left : List _). left) };

    ghost remaining = { item_count (λ (left : List _). left) };

    fn next(&mut self) -> Option<Option<Reference>> {
        if let Some(vis) = self.type_vis.take() {
            return Some(visibility_reference(vis));
        }
        if let Some((_, item)) = self.types.next() {
            self.type_vis = Some(item.vis);
            return Some(reference_to(item.def));
        }
        if let Some(vis) = self.value_vis.take() {
            return Some(visibility_reference(vis));
        }
        if let Some((_, item)) = self.values.next() {
            self.value_vis = Some(item.vis);
            return Some(reference_to(item.def));
        }
        if let Some((_, item)) = self.macros.next() {
            return Some(visibility_reference(item.vis));
        }
        match self.traits.next() {
            Some((_, item)) => Some(visibility_reference(item.vis)),
            None => None,
        }
    }
}

/// The references of a module: its parent, the module that may see it, its children, and those of its scope.
#[derive(Drop)]
pub(crate) struct ModuleReferences<'a> {
    parent: Option<ModuleId>,
    visibility: Option<Visibility>,
    children: btree_map::Iter<'a, Name, ModuleId>,
    scope: ScopeReferences<'a>,
}

impl<'a> Model for ModuleReferences<'a> {
    ghost use Rattle.std.specs.Prelude.{List, Option};
    ghost use Rattle.hir_def_map_rules.specs.declared.reference.Reference.{Reference};
    ghost use Rattle.hir_def_map_rules.specs.Inner.ReferenceLists.{module_list};

    ghost Value = { List (Option Reference) };

    ghost view = { λ walk. module_list walk.parent walk.visibility walk.children walk.scope };
}

impl ModuleReferences<'_> {
    pub(crate) fn of(module: &ModuleData) -> ModuleReferences<'_>
        ensures value { result ≡ references_in «module».now }
    {
        ModuleReferences {
            parent: module.parent(),
            visibility: Some(module.visibility()),
            children: module.children(),
            scope: ScopeReferences::of(module.scope()),
        }
    }
}

impl<'a> Iterator for ModuleReferences<'a> {
    type Item = Option<Reference>;

    ghost next_gives = { YieldsFirst (λ (left : List _). left) };

    ghost remaining = { item_count (λ (left : List _). left) };

    fn next(&mut self) -> Option<Option<Reference>> {
        if let Some(parent) = self.parent.take() {
            return Some(Some(Reference::Module(parent)));
        }
        if let Some(vis) = self.visibility.take() {
            return Some(visibility_reference(vis));
        }
        if let Some((_, child)) = self.children.next() {
            return Some(Some(Reference::Module(*child)));
        }
        self.scope.next()
    }
}

/// The references of a map besides those of its modules: its prelude, its holder, the crates that its paths may begin
/// with, those on which its crate depends, and the crate of a block.
#[derive(Drop)]
pub(crate) struct MapReferences<'a> {
    prelude: Option<ModuleId>,
    holder: Option<ModuleId>,
    externs: indexmap::map::Iter<'a, Name, (ModuleId, Option<ExternCrateId>)>,
    crates: Crates<'a>,
    own: Option<Crate>,
}

impl<'a> Model for MapReferences<'a> {
    ghost use Rattle.std.specs.Prelude.{List, Option};
    ghost use Rattle.hir_def_map_rules.specs.declared.reference.Reference.{Reference};
    ghost use Rattle.hir_def_map_rules.specs.Inner.ReferenceLists.{besides_list};

    ghost Value = { List (Option Reference) };

    ghost view = { λ walk. besides_list walk.prelude walk.holder walk.externs walk.crates walk.own };
}

/// The crate of a block.
fn own_crate(id: MapId) -> Option<Crate>
    ensures value { result ≡ block_crate id }
{
    match id.block {
        Some(_) => Some(id.krate),
        None => None,
    }
}

fn prelude_of(map: &DefMap) -> Option<ModuleId>
    ensures value { result ≡ option_map (λ p. p.0) map.now.prelude }
{
    match map.prelude() {
        Some((prelude, _)) => Some(prelude),
        None => None,
    }
}

impl MapReferences<'_> {
    pub(crate) fn of<'a>(map: &'a DefMap, local: &'a LocalDefMap) -> MapReferences<'a>
        ensures value { result ≡ references_besides map.now local.now }
    {
        MapReferences {
            prelude: prelude_of(map),
            holder: map.parent(),
            externs: local.extern_prelude(),
            crates: map.crate_data().dependencies().iter(),
            own: own_crate(map.id()),
        }
    }
}

impl<'a> Iterator for MapReferences<'a> {
    type Item = Option<Reference>;

    ghost next_gives = { YieldsFirst (λ (left : List _). left) };

    ghost remaining = { item_count (λ (left : List _). left) };

    fn next(&mut self) -> Option<Option<Reference>> {
        if let Some(prelude) = self.prelude.take() {
            return Some(Some(Reference::Module(prelude)));
        }
        if let Some(holder) = self.holder.take() {
            return Some(Some(Reference::Module(holder)));
        }
        if let Some((_, entry)) = self.externs.next() {
            return Some(Some(Reference::Module(entry.0)));
        }
        if let Some(krate) = self.crates.next() {
            return Some(Some(Reference::Map(MapId { krate, block: None })));
        }
        match self.own.take() {
            Some(krate) => Some(Some(Reference::Map(MapId { krate, block: None }))),
            None => None,
        }
    }
}
