//! Whether a map is well-formed over the finished ones: it has no dangling reference, parents lead to a root, and
//! variants are their enum's.
ghost use Rattle.std.specs.Prelude.{◌≡◌, is_some};
ghost use Rattle.std.specs.List.{list_any};
ghost use Rattle.hir_def_map_rules.specs.Overlay.{overlay, module_in, variants_in};
ghost use Rattle.hir_nameres.specs.World.{finished_in};
ghost use Rattle.hir_def_map_rules.specs.Inner.ReferenceLists.{any_listed, listed_besides, listed_in};
ghost use Rattle.hir_def_map.specs.Insertion.{may_join};
ghost use Rattle.hir_def_map_rules.specs.References.{any_reference, is_holder_for, is_missing, is_well_formed, test_of};

use crate::nameres::DefMap;
use crate::world::World;
use crate::world::references::{MapReferences, ModuleReferences};
use hir_base::ids::{EnumId, MapId, ModuleId};
use hir_def_map_rules::local_def_map::LocalDefMap;
use hir_def_map_rules::module_data::ModuleData;
use hir_def_map_rules::reference::Reference;

impl World {
    /// Whether a module is there, in a finished map or in the current one.
    #[tactic(auto, unfolding(hir_nameres::specs::World::finished_in))]
    fn has_module(&self, map: &DefMap, id: ModuleId) -> bool
        ensures value { result ≡ is_some (module_in (overlay (finished_in self.now.maps) map.now) id) }
    {
        if id.map == map.id() {
            return map.has_module(id.index);
        }
        match self.maps.get(&id.map) {
            Some(finished) => finished.map.has_module(id.index),
            None => false,
        }
    }

    /// Whether the variants of an enum are there.
    #[tactic(auto, unfolding(hir_nameres::specs::World::finished_in))]
    fn has_enum(&self, map: &DefMap, id: EnumId) -> bool
        ensures value { result ≡ is_some (variants_in (overlay (finished_in self.now.maps) map.now) id) }
    {
        if id.loc.container.map == map.id() {
            return map.enum_variants(id).is_some();
        }
        match self.maps.get(&id.loc.container.map) {
            Some(finished) => finished.map.enum_variants(id).is_some(),
            None => false,
        }
    }

    #[tactic(auto, unfolding(hir_nameres::specs::World::finished_in))]
    fn has_map(&self, map: &DefMap, id: MapId) -> bool
        ensures value { result ≡ is_some (overlay (finished_in self.now.maps) map.now id) }
    {
        id == map.id() || self.maps.contains_key(&id)
    }

    fn is_missing(&self, map: &DefMap, reference: Reference) -> bool
        ensures value { result ≡ is_missing (overlay (finished_in self.now.maps) map.now) reference }
    {
        match reference {
            Reference::Module(id) => !self.has_module(map, id),
            Reference::Enum(id) => !self.has_enum(map, id),
            Reference::Map(id) => !self.has_map(map, id),
        }
    }

    /// Whether a reference, if it is one, leads to nothing.
    fn is_dangling(&self, map: &DefMap, reference: Option<Reference>) -> bool
        ensures value { result ≡ test_of (is_missing (overlay (finished_in self.now.maps) map.now)) reference }
    {
        match reference {
            Some(reference) => self.is_missing(map, reference),
            None => false,
        }
    }

    /// Whether a module has a dangling reference.
    fn has_dangling_in(&self, map: &DefMap, module: &ModuleData) -> bool
        ensures value { result ≡ listed_in (is_missing (overlay (finished_in self.now.maps) map.now)) «module».now }
    {
        let mut left = ModuleReferences::of(module);
        'next: while let Some(reference) = left.next() {
            if self.is_dangling(map, reference) {
                return true;
            }
        }
        false
    }

    fn has_dangling_in_modules(&self, map: &DefMap) -> bool
        ensures value { result ≡ list_any (listed_in (is_missing (overlay (finished_in self.now.maps) map.now))) map.now.modules }
    {
        let mut left = map.modules().as_slice();
        'next: while let [module, others @ ..] = left {
            if self.has_dangling_in(map, module) {
                return true;
            }
            left = others;
        }
        false
    }

    fn has_dangling_besides(&self, map: &DefMap, local: &LocalDefMap) -> bool
        ensures value { result ≡ listed_besides (is_missing (overlay (finished_in self.now.maps) map.now)) map.now local.now }
    {
        let mut left = MapReferences::of(map, local);
        'next: while let Some(reference) = left.next() {
            if self.is_dangling(map, reference) {
                return true;
            }
        }
        false
    }

    fn has_listed_dangling(&self, map: &DefMap, local: &LocalDefMap) -> bool
        ensures value { result ≡ any_listed (is_missing (overlay (finished_in self.now.maps) map.now)) map.now local.now }
    {
        self.has_dangling_in_modules(map) || self.has_dangling_besides(map, local)
    }

    /// Whether a map has a dangling reference.
    fn has_dangling(&self, map: &DefMap, local: &LocalDefMap) -> bool
        ensures value { result ≡ any_reference (is_missing (overlay (finished_in self.now.maps) map.now)) map.now local.now }
    {
        self.has_listed_dangling(map, local)
    }

    /// Whether the holder, if there is one, is a module of a finished map of the crate.
    #[tactic(auto, unfolding(hir_nameres::specs::World::finished_in))]
    fn is_holder_for(&self, id: MapId, holder: Option<ModuleId>) -> bool
        ensures value { result ≡ is_holder_for (finished_in self.now.maps) id holder }
    {
        match holder {
            None => true,
            Some(holder) => {
                holder.map.krate == id.krate
                    && match self.maps.get(&holder.map) {
                        Some(finished) => finished.map.has_module(holder.index),
                        None => false,
                    }
            }
        }
    }

    /// Whether a map is well-formed over the finished ones.
    fn is_well_formed(&self, map: &DefMap, local: &LocalDefMap) -> bool
        ensures value { result ≡ is_well_formed (finished_in self.now.maps) map.now local.now }
    {
        map.each_leads_to_root()
            && map.has_its_parents()
            && map.has_its_variants()
            && self.is_holder_for(map.id(), map.parent())
            && !self.has_dangling(map, local)
    }

    /// Whether a map may join the finished ones.
    #[tactic(auto, unfolding(hir_nameres::specs::World::finished_in))]
    pub(crate) fn may_join(&self, map: &DefMap, local: &LocalDefMap) -> bool
        ensures value { result ≡ may_join (finished_in self.now.maps) map.now local.now }
    {
        match self.maps.get(&map.id()) {
            Some(_) => false,
            None => self.is_well_formed(map, local),
        }
    }
}
