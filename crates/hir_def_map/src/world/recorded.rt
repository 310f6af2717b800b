//! Which of the maps that a map refers to are recorded for it.
//!
//! Where the map of a crate is recorded, all on which that depends are covered by it. So of the crates on which a crate
//! depends those alone are recorded that it depends on through no other one.
ghost use Rattle.std.specs.Prelude.{◌≡◌, IfOk, OnOk, ◌||◌};
ghost use Rattle.std.specs.List.{list_any};
ghost use Rattle.std.specs.BTreeMap.{is_at};
ghost use Rattle.hir_nameres.specs.HirIds.contracts.ids.MapIdOrd.TheImpl as map_order;
ghost use Rattle.hir_def_map.specs.Insertion.{Gains};
ghost use Rattle.hir_def_map.specs.Inner.Recorded.{AreCovered, GainsOnly, IsRecordedFor, Records, is_left_out};
ghost use Rattle.hir_def_map_rules.specs.Inner.ReferenceLists.{any_listed, listed_besides, listed_in};
ghost use Rattle.hir_def_map_rules.specs.References.{any_own_crate, lies_in, test_crate, test_of};

use crate::nameres::DefMap;
use crate::world::World;
use crate::world::references::{MapReferences, ModuleReferences};
use hir_base::ids::{Crate, MapId};
use hir_def_map_rules::local_def_map::LocalDefMap;
use hir_def_map_rules::module_data::ModuleData;
use hir_def_map_rules::reference::Reference;
use hir_nameres::hir_crate_graph::CrateSet;
use std::alloc::AllocError;
use std::collections::BTreeSet;

fn insert_id(ids: &mut BTreeSet<MapId>, id: MapId) -> Result<(), AllocError>
    ensures ok { OnOk result (Gains ids.old ids.new (λ k. is_at (map_order.ghosts.cmp id) k)) }
{
    ids.insert(id)?;
    Ok(())
}

/// Whether a map is the own one, or that of a crate that is covered.
fn is_left_out(covered: &CrateSet, own: MapId, id: MapId) -> bool
    ensures value { result ≡ is_left_out covered.now own id }
{
    id == own || (id.block.is_none() && covered.contains(id.krate))
}

impl World {
    /// Records the map of a crate, which covers those on which it depends.
    fn record_crate(
        &self,
        recorded: &mut BTreeSet<MapId>,
        covered: &mut CrateSet,
        krate: Crate,
    ) -> Result<(), AllocError>
        requires covered { AreCovered self.now.maps recorded.old covered.old }
        ensures gains { OnOk result (Gains recorded.old recorded.new (λ id. test_crate (lies_in id) krate)) }
        ensures covered { OnOk result (AreCovered self.now.maps recorded.new covered.new) }
    {
        let id = MapId { krate, block: None };
        insert_id(recorded, id)?;
        match self.maps.get(&id) {
            Some(finished) => covered.union_with(finished.map.crate_data().dependencies()),
            None => Ok(()),
        }
    }

    /// Records the map of a crate, unless it is covered or the map itself.
    fn record_uncovered(
        &self,
        recorded: &mut BTreeSet<MapId>,
        covered: &mut CrateSet,
        own: MapId,
        krate: Crate,
    ) -> Result<(), AllocError>
        requires covered { AreCovered self.now.maps recorded.old covered.old }
        ensures gains { OnOk result (GainsOnly recorded.old recorded.new own (λ id. test_crate (lies_in id) krate)) }
        ensures covered { OnOk result (AreCovered self.now.maps recorded.new covered.new) }
    {
        if is_left_out(covered, own, MapId { krate, block: None }) {
            return Ok(());
        }
        self.record_crate(recorded, covered, krate)
    }

    fn record_own_crate(
        &self,
        recorded: &mut BTreeSet<MapId>,
        covered: &mut CrateSet,
        own: MapId,
    ) -> Result<(), AllocError>
        requires covered { AreCovered self.now.maps recorded.old covered.old }
        ensures gains { OnOk result (GainsOnly recorded.old recorded.new own (λ id. any_own_crate (lies_in id) own)) }
        ensures covered { OnOk result (AreCovered self.now.maps recorded.new covered.new) }
    {
        if own.block.is_none() {
            return Ok(());
        }
        self.record_uncovered(recorded, covered, own, own.krate)
    }

    /// Records crates on which a map depends, from the greatest number down, as crates of greater numbers mostly depend
    /// on more.
    fn record_dependencies(
        &self,
        recorded: &mut BTreeSet<MapId>,
        covered: &mut CrateSet,
        own: MapId,
        dependencies: &CrateSet,
    ) -> Result<(), AllocError>
        requires covered { AreCovered self.now.maps recorded.old covered.old }
        ensures gains { OnOk result (GainsOnly recorded.old recorded.new own (λ id. list_any (test_crate (lies_in id)) dependencies.now)) }
        ensures covered { OnOk result (AreCovered self.now.maps recorded.new covered.new) }
    {
        let mut left = dependencies.iter();
        'next: while let Some(krate) = left.next_back() {
            self.record_uncovered(recorded, covered, own, krate)?;
        }
        Ok(())
    }

    /// Records a map, unless it is covered or the map itself.
    fn record_id(
        &self,
        recorded: &mut BTreeSet<MapId>,
        covered: &CrateSet,
        own: MapId,
        id: MapId,
    ) -> Result<(), AllocError>
        requires covered { AreCovered self.now.maps recorded.old covered.now }
        ensures records { OnOk result (Records self.now.maps recorded.old recorded.new own (λ k. is_at (map_order.ghosts.cmp id) k)) }
    {
        if is_left_out(covered, own, id) {
            return Ok(());
        }
        insert_id(recorded, id)
    }

    fn record(
        &self,
        recorded: &mut BTreeSet<MapId>,
        covered: &CrateSet,
        own: MapId,
        reference: Option<Reference>,
    ) -> Result<(), AllocError>
        requires covered { AreCovered self.now.maps recorded.old covered.now }
        ensures records { OnOk result (Records self.now.maps recorded.old recorded.new own (λ id. test_of (lies_in id) reference)) }
    {
        match reference {
            Some(reference) => self.record_id(recorded, covered, own, reference.map()),
            None => Ok(()),
        }
    }

    fn record_in(
        &self,
        recorded: &mut BTreeSet<MapId>,
        covered: &CrateSet,
        own: MapId,
        module: &ModuleData,
    ) -> Result<(), AllocError>
        requires covered { AreCovered self.now.maps recorded.old covered.now }
        ensures records { OnOk result (Records self.now.maps recorded.old recorded.new own (λ id. listed_in (lies_in id) «module».now)) }
    {
        let mut left = ModuleReferences::of(module);
        'next: while let Some(reference) = left.next() {
            self.record(recorded, covered, own, reference)?;
        }
        Ok(())
    }

    fn record_in_modules(
        &self,
        recorded: &mut BTreeSet<MapId>,
        covered: &CrateSet,
        own: MapId,
        modules: &[ModuleData],
    ) -> Result<(), AllocError>
        requires covered { AreCovered self.now.maps recorded.old covered.now }
        ensures records { OnOk result (Records self.now.maps recorded.old recorded.new own (λ id. list_any (listed_in (lies_in id)) modules.now)) }
    {
        for module in modules {
            self.record_in(recorded, covered, own, module)?;
        }
        Ok(())
    }

    fn record_besides(
        &self,
        recorded: &mut BTreeSet<MapId>,
        covered: &CrateSet,
        own: MapId,
        map: &DefMap,
        local: &LocalDefMap,
    ) -> Result<(), AllocError>
        requires covered { AreCovered self.now.maps recorded.old covered.now }
        ensures records { OnOk result (Records self.now.maps recorded.old recorded.new own (λ id. listed_besides (lies_in id) map.now local.now)) }
    {
        let mut left = MapReferences::of(map, local);
        'next: while let Some(reference) = left.next() {
            self.record(recorded, covered, own, reference)?;
        }
        Ok(())
    }

    /// Records crates on which a map depends, so that all of them are covered.
    fn record_crates(
        &self,
        recorded: &mut BTreeSet<MapId>,
        covered: &mut CrateSet,
        own: MapId,
        dependencies: &CrateSet,
    ) -> Result<(), AllocError>
        requires covered { AreCovered self.now.maps recorded.old covered.old }
        ensures gains { OnOk result (GainsOnly recorded.old recorded.new own (λ id. any_own_crate (lies_in id) own
            || list_any (test_crate (lies_in id)) dependencies.now)) }
        ensures covered { OnOk result (AreCovered self.now.maps recorded.new covered.new) }
    {
        self.record_own_crate(recorded, covered, own)?;
        self.record_dependencies(recorded, covered, own, dependencies)
    }

    /// Records all references of a map.
    fn record_all(
        &self,
        recorded: &mut BTreeSet<MapId>,
        covered: &CrateSet,
        own: MapId,
        map: &DefMap,
        local: &LocalDefMap,
    ) -> Result<(), AllocError>
        requires covered { AreCovered self.now.maps recorded.old covered.now }
        ensures records { OnOk result (Records self.now.maps recorded.old recorded.new own (λ id. any_listed (lies_in id) map.now local.now)) }
    {
        self.record_in_modules(recorded, covered, own, map.modules().as_slice())?;
        self.record_besides(recorded, covered, own, map, local)
    }

    /// The maps that are recorded for one: those that it refers to are among them, or fall with one of them.
    pub(crate) fn recorded(
        &self,
        map: &DefMap,
        local: &LocalDefMap,
    ) -> Result<BTreeSet<MapId>, AllocError>
        ensures value { IfOk result (λ recorded. IsRecordedFor self.now.maps recorded map.now local.now) }
    {
        let own = map.id();
        let dependencies = map.crate_data().dependencies();
        let mut recorded = BTreeSet::new(self.alloc);
        let mut covered = CrateSet::new(self.alloc);
        self.record_crates(&mut recorded, &mut covered, own, dependencies)?;
        self.record_all(&mut recorded, &covered, own, map, local)?;
        Ok(recorded)
    }
}
