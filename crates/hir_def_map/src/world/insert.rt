//! How a finished map joins the others.
ghost use Rattle.std.specs.Prelude.{◌≡◌, ◌+◌, ◌≤◌, None, Some, cond, IfErr, IfOk, OnOk, OnErr};
ghost use Rattle.std.specs.Vec.{vec_capacity};
ghost use Rattle.std.specs.BTreeMap.{btree_map_len, get, is_at, IsUnchanged, Updates};
ghost use Rattle.hir_nameres.specs.HirIds.contracts.ids.MapIdOrd.TheImpl as map_order;
ghost use Rattle.hir_nameres.specs.HirIds.declared.ids.MapId.{MapId};
ghost use Rattle.hir_def_map_rules.specs.Overlay.{holders_under, with_map};
ghost use Rattle.hir_def_map.specs.Inner.Dependents.{HasRoom, IsEntered, IsIndexed};
ghost use Rattle.hir_def_map.specs.Insertion.{may_join, Inserts};
ghost use Rattle.hir_def_map.specs.Inner.Recorded.{IsRecordedFor};
ghost use Rattle.hir_nameres.specs.World.{finished_in, local_in};

use crate::nameres::DefMap;
use crate::world::World;
use crate::world::dependents::Dependents;
use crate::world::finished::Finished;
use hir_base::ids::{MapId, ModuleId};
use hir_def_map_rules::local_def_map::LocalDefMap;
use std::alloc::AllocError;
use std::collections::{BTreeMap, BTreeSet};

/// Why a map doesn't join the finished ones, in the order in which it is looked for.
#[derive(Clone, Copy, Debug, PartialEq, Eq)]
pub enum InsertError {
    /// A map of its id is there, or it isn't well-formed over those that are there.
    Unchecked,
    Memory,
}

/// A map that doesn't join the finished ones.
#[derive(Drop)]
pub struct Refused {
    pub map: DefMap,
    pub local: LocalDefMap,
    pub why: InsertError,
}

fn make_room(falling: &mut Vec<MapId>, maps: &BTreeMap<MapId, Finished>) -> Result<(), AllocError>
    ensures ok { OnOk result (btree_map_len maps.now + 1 ≤ vec_capacity falling.new) }
    ensures items { falling.new.items ≡ falling.old.items }
    ensures capacity { vec_capacity falling.old ≤ vec_capacity falling.new }
{
    falling.reserve(maps.len() + 1)
}

fn add_entered(
    maps: &mut BTreeMap<MapId, Finished>,
    dependents: &mut Dependents,
    finished: Finished,
) -> Result<(), Finished>
    requires absent { get map_order.ghosts.cmp maps.old finished.map.id ≡ None }
    requires entered { IsEntered dependents.old maps.old finished }
    ensures maps { OnOk result (Updates map_order.ghosts.cmp maps.old maps.new finished.map.id (Some finished)) }
    ensures len { btree_map_len maps.new ≤ btree_map_len maps.old + 1 }
    ensures returned { IfErr result (λ f. f ≡ finished) }
    ensures err { OnErr result (IsUnchanged maps.old maps.new) }
    ensures indexed { IsIndexed dependents.new maps.new }
{
    let id = finished.map.id();
    match maps.insert(id, finished) {
        Ok(_) => Ok(()),
        Err(refused) => {
            let (_, finished) = refused.value;
            dependents.leave(&finished.named, id);
            Err(finished)
        }
    }
}

fn add(
    maps: &mut BTreeMap<MapId, Finished>,
    dependents: &mut Dependents,
    finished: Finished,
) -> Result<(), Finished>
    requires absent { get map_order.ghosts.cmp maps.old finished.map.id ≡ None }
    requires indexed { IsIndexed dependents.old maps.old }
    ensures maps { OnOk result (Updates map_order.ghosts.cmp maps.old maps.new finished.map.id (Some finished)) }
    ensures len { btree_map_len maps.new ≤ btree_map_len maps.old + 1 }
    ensures returned { IfErr result (λ f. f ≡ finished) }
    ensures err { OnErr result (IsUnchanged maps.old maps.new) }
    ensures indexed { IsIndexed dependents.new maps.new }
{
    let id = finished.map.id();
    match dependents.enter(&finished.named, id) {
        Ok(()) => add_entered(maps, dependents, finished),
        Err(_) => Err(finished),
    }
}

/// Adds a finished map to the others, or hands it back where memory is refused.
fn add_with_room(
    maps: &mut BTreeMap<MapId, Finished>,
    dependents: &mut Dependents,
    falling: &mut Vec<MapId>,
    finished: Finished,
) -> Result<(), Finished>
    requires absent { get map_order.ghosts.cmp maps.old finished.map.id ≡ None }
    requires indexed { IsIndexed dependents.old maps.old }
    requires room { HasRoom falling.old maps.old }
    ensures maps { OnOk result (Updates map_order.ghosts.cmp maps.old maps.new finished.map.id (Some finished)) }
    ensures returned { IfErr result (λ f. f ≡ finished) }
    ensures err { OnErr result (IsUnchanged maps.old maps.new) }
    ensures indexed { IsIndexed dependents.new maps.new }
    ensures room { HasRoom falling.new maps.new }
{
    match make_room(falling, maps) {
        Ok(()) => add(maps, dependents, finished),
        Err(_) => Err(finished),
    }
}

impl World {
    /// The modules that hold a map: that of its block, that of this one's block, and so on.
    #[tactic(auto, unfolding(hir_nameres::specs::World::finished_in))]
    fn holders_under(
        &self,
        id: MapId,
        holder: Option<ModuleId>,
    ) -> Result<Vec<ModuleId>, AllocError>
        ensures value { IfOk result (λ holders. holders.items ≡ holders_under (finished_in self.now.maps) id holder) }
    {
        let mut holders = Vec::new(self.alloc);
        let Some(holder) = holder else {
            return Ok(holders);
        };
        if holder.map.krate != id.krate {
            return Ok(holders);
        }
        match self.maps.get(&holder.map) {
            Some(finished) => {
                holders.push(holder)?;
                holders.extend_from_slice(finished.holders.as_slice())?;
                Ok(holders)
            }
            None => Ok(holders),
        }
    }

    /// The modules that hold a map, and the maps that are recorded for it.
    fn records_of(
        &self,
        map: &DefMap,
        local: &LocalDefMap,
    ) -> Result<(Vec<ModuleId>, BTreeSet<MapId>), AllocError>
        ensures holders { IfOk result (λ both. both.0.items ≡ holders_under (finished_in self.now.maps) map.now.id map.now.holder) }
        ensures named { IfOk result (λ both. IsRecordedFor self.now.maps both.1 map.now local.now) }
    {
        let holders = self.holders_under(map.id(), map.parent())?;
        let named = self.recorded(map, local)?;
        Ok((holders, named))
    }

    /// Adds a finished map, if none has its id and it is well-formed over those that are there.
    pub fn insert(&mut self, map: DefMap, local: LocalDefMap) -> Result<(), Refused>
        ensures answer { Inserts (may_join (finished_in self.old.maps) map local) map local result }
        ensures maps { OnOk result ((id : MapId) → finished_in self.new.maps id ≡ with_map (finished_in self.old.maps) map local id) }
        ensures locals { OnOk result ((id : MapId) → local_in self.new.maps id
            ≡ cond (is_at (map_order.ghosts.cmp map.id) id) (Some local) (local_in self.old.maps id)) }
        ensures err { OnErr result (IsUnchanged self.old.maps self.new.maps) }
    {
        if !self.may_join(&map, &local) {
            return Err(Refused {
                map,
                local,
                why: InsertError::Unchecked,
            });
        }
        let (holders, named) = match self.records_of(&map, &local) {
            Ok(both) => both,
            Err(_) => {
                return Err(Refused {
                    map,
                    local,
                    why: InsertError::Memory,
                });
            }
        };
        let finished = Finished {
            map,
            local,
            holders,
            named,
        };
        match add_with_room(
            &mut self.maps,
            &mut self.dependents,
            &mut self.falling,
            finished,
        ) {
            Ok(()) => Ok(()),
            Err(finished) => Err(Refused {
                map: finished.map,
                local: finished.local,
                why: InsertError::Memory,
            }),
        }
    }
}
