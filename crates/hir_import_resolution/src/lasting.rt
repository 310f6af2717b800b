//! What of imports and globs lasts as the map that has them grows.
ghost use Rattle.std.specs.Prelude.{◌≡◌, ℕ, true, false, List, Some, slice_get};
ghost use Rattle.std.specs.List.{AllByRecursion};
ghost use Rattle.hir_def_map_rules.specs.State.{IsInOrder, module_at};
ghost use Rattle.hir_nameres.specs.WorldParts.{part_of};
ghost use Rattle.hir_nameres.specs.HirIds.declared.ids.TraitId.{TraitId};
ghost use Rattle.hir_nameres.specs.HirPerNs.PerNs.{Item};
ghost use Rattle.hir_nameres.specs.HirPerNs.declared.visibility.Visibility.{Visibility};
ghost use Rattle.hir_def_map_laws.specs.ReadLaw.{has_no_variants, is_bare, is_bare_def, stops_bare};
ghost use Rattle.hir_nameres.specs.Scoping.Slots.{slot_of};
ghost use Rattle.hir_def_map_rules.specs.declared.reference.Reference.TheVariants as named;
ghost use Rattle.hir_glob_imports.specs.declared.edge.Bound.{Bound};
ghost use Rattle.hir_glob_imports.specs.declared.edge.Brought.{Brought};
ghost use Rattle.hir_glob_imports.specs.declared.edge.Edge.{Edge};
ghost use Rattle.hir_glob_imports.specs.Waves.{brought_of};
ghost use Rattle.hir_glob_imports.specs.declared.edge.Key.{Key as GlobKey};
ghost use Rattle.hir_glob_imports.specs.declared.edge.Slot.{Slot as GlobSlot};
ghost use Rattle.hir_glob_imports.specs.Keys.{is_unnamed};
ghost use Rattle.hir_import_resolution.specs.Inner.State.{IsApart, state_in};
ghost use Rattle.hir_import_growth.specs.ViewLaws.{bound_inside};
ghost use Rattle.hir_import_rules.specs.Lasting.{HasVariants, IsPlaced, IsThere, Lasts};
ghost use Rattle.hir_import_rules.specs.Names.{trait_vis};

use crate::imports::Imports;
use crate::scopes::trait_vis;
use hir_base::ids::{AdtId, EnumId, ModuleDefId, TraitId};
use hir_glob_imports::{Edge, GlobImports, Target};
use hir_nameres::hir_scope::item_scope::iter::bindings::Bindings;
use hir_nameres::hir_scope::per_ns::TypesItem;
use hir_nameres::hir_scope::visibility::Visibility;
use hir_nameres::nameres::DefMap;
use hir_nameres::nameres::path_resolution::ResolvePathResult;
use hir_nameres::nameres::path_resolution::slots::SlotRef;
use hir_nameres::world::part::WorldPart;

/// Whether a module that a visibility names is there, where it lies in a map.
pub(crate) fn is_placed(map: &DefMap, vis: Visibility) -> bool
    ensures placed { result ≡ true → IsPlaced map.now vis }
{
    match vis {
        Visibility::Module(module, _) => {
            module.map != map.id() || module.index < map.module_count()
        }
        Visibility::Public | Visibility::PubCrate(_) => true,
    }
}

/// Whether a trait that a module may have without a name has such a visibility.
pub(crate) fn is_trait_placed(map: &DefMap, at: u32, id: TraitId) -> bool
    ensures placed { result ≡ true → (vis : Visibility) → trait_vis (module_at map.now at) id ≡ Some vis → IsPlaced map.now vis }
{
    match trait_vis(map, at, id) {
        Some(vis) => is_placed(map, vis),
        None => true,
    }
}

/// Whether an enum lies in a map, and has no variants there.
fn has_no_variants(map: &DefMap, id: EnumId) -> bool
    ensures value { result ≡ has_no_variants map.now (named.Enum id) }
{
    id.loc.container.map == map.id() && map.enum_variants(id).is_none()
}

/// Whether an enum that is a target has its variants, where it lies in a map.
pub(crate) fn has_variants(map: &DefMap, target: Target) -> bool
    ensures has { result ≡ true → HasVariants map.now target }
{
    match target {
        Target::Enum(id) => !has_no_variants(map, id),
        Target::Own(_) | Target::Module(_) => true,
    }
}

/// Whether a definition is an enum that lies in a map, and has no variants there.
fn is_bare_def(map: &DefMap, def: ModuleDefId) -> bool
    ensures value { result ≡ is_bare_def map.now def }
{
    match def {
        ModuleDefId::AdtId(AdtId::EnumId(id)) => has_no_variants(map, id),
        _ => false,
    }
}

/// Whether an item is one whose definition is an enum that lies in a map, and has no variants there.
fn is_bare(map: &DefMap, item: Option<TypesItem>) -> bool
    ensures value { result ≡ is_bare map.now item }
{
    match item {
        Some(item) => is_bare_def(map, item.def),
        None => false,
    }
}

/// Whether a path stops at an enum that lies in a map, and has no variants there.
pub(crate) fn stops_bare(map: &DefMap, answer: ResolvePathResult) -> bool
    ensures value { result ≡ stops_bare map.now answer }
{
    answer.segment_index.is_some() && is_bare(map, answer.resolved_def.types)
}

/// Whether a slot is of a module that is there, or of the preludes.
pub(crate) fn is_there(slot: SlotRef<'_>, modules: u32) -> bool
    ensures there { result ≡ true → IsThere modules (slot_of slot.entry) }
{
    match slot {
        SlotRef::Module(at, _) => at < modules,
        SlotRef::Preludes(_) => true,
    }
}

/// Whether the visibility of each trait that a module has without a name names a module that is there.
fn has_traits_placed(map: &DefMap, at: u32) -> bool
    ensures placed { result ≡ true → (id : TraitId) (vis : Visibility) → trait_vis (module_at map.now at) id ≡ Some vis → IsPlaced map.now vis }
{
    let Some(scope) = map.scope(at) else {
        return true;
    };
    let mut left = scope.traits();
    'next: while let Some(id) = left.next() {
        if !is_trait_placed(map, at, id) {
            return false;
        }
    }
    true
}

/// Whether those of the traits without names of all modules do.
fn have_traits_placed(map: &DefMap) -> bool
    ensures placed { result ≡ true → (at : ℕ) (id : TraitId) (vis : Visibility) → trait_vis (module_at map.now at) id ≡ Some vis → IsPlaced map.now vis }
{
    for at in 0..map.module_count() {
        if !has_traits_placed(map, at) {
            return false;
        }
    }
    true
}

/// Whether the visibility of an edge names a module that is there, and its source has its variants.
fn is_edge_firm(map: &DefMap, edge: &Edge) -> bool
    ensures placed { result ≡ true → IsPlaced map.now edge.now.vis }
    ensures enums { result ≡ true → HasVariants map.now edge.now.source }
{
    is_placed(map, edge.vis) && has_variants(map, edge.source)
}

/// Whether the visibility of each edge names a module that is there, and its source has its variants.
fn are_edges_firm(map: &DefMap, edges: &[Edge]) -> bool
    ensures placed { result ≡ true → (j : ℕ) (e : Edge) → slice_get edges.now j ≡ Some e → IsPlaced map.now e.vis }
    ensures enums { result ≡ true → (j : ℕ) (e : Edge) → slice_get edges.now j ≡ Some e → HasVariants map.now e.source }
{
    for edge in edges {
        if !is_edge_firm(map, edge) {
            return false;
        }
    }
    true
}

/// Whether the visibilities of items name modules that are there.
fn are_placed<Def, Import>(map: &DefMap, items: Bindings<'_, Def, Import>) -> bool
    ensures placed { result ≡ true → AllByRecursion (λ (e : List ℕ × Item Def Import). IsPlaced map.now e.1.vis) items.entry }
{
    let mut left = items;
    'next: while let Some((_name, item)) = left.next() {
        if !is_placed(map, item.vis) {
            return false;
        }
    }
    true
}

/// Whether the visibilities of all that names stand for in a module do.
fn is_scope_placed(map: &DefMap, at: u32) -> bool
    ensures placed { result ≡ true → (key : GlobKey) (b : Bound) → is_unnamed key ≡ false → bound_inside key (module_at map.now at) ≡ Some b → IsPlaced map.now b.vis }
{
    match map.scope(at) {
        Some(scope) => {
            if !are_placed(map, scope.types()) {
                return false;
            }
            if !are_placed(map, scope.values()) {
                return false;
            }
            are_placed(map, scope.macros())
        }
        None => true,
    }
}

/// Whether those of all that names stand for do.
fn are_names_placed(map: &DefMap) -> bool
    ensures placed { result ≡ true → (at : ℕ) (key : GlobKey) (b : Bound) → is_unnamed key ≡ false → bound_inside key (module_at map.now at) ≡ Some b → IsPlaced map.now b.vis }
{
    for at in 0..map.module_count() {
        if !is_scope_placed(map, at) {
            return false;
        }
    }
    true
}

/// Whether the visibilities of what globs brought name modules that are there; those of all names are looked at.
fn is_brought_placed(map: &DefMap, globs: &GlobImports) -> bool
    requires traits { (at : ℕ) (id : TraitId) (vis : Visibility) → trait_vis (module_at map.now at) id ≡ Some vis → IsPlaced map.now vis }
    ensures placed { result ≡ true → (s : GlobSlot) (by : Brought) (b : Bound) → brought_of globs.now s ≡ Some by → bound_inside s.key (module_at map.now s.at) ≡ Some b → IsPlaced map.now b.vis }
{
    let _ = globs;
    are_names_placed(map)
}

/// Whether what holds of globs lasts as the map grows, with nothing known of it.
pub(crate) fn do_globs_last(apart: bool, world: WorldPart<'_>, imports: &Imports) -> bool
    requires apart { apart ≡ true → IsApart (part_of world) imports.now.map.id imports.now.local }
    requires in_order { IsInOrder imports.now.map }
    ensures lasts { result ≡ true → Lasts (part_of world.entry) (state_in imports.now) }
    ensures apart { result ≡ true → apart ≡ true }
{
    let map = &imports.map;
    apart
        && map.block_id().is_none()
        && map.parent().is_none()
        && are_edges_firm(map, imports.globs.edges())
        && have_traits_placed(map)
        && is_brought_placed(map, &imports.globs)
}
