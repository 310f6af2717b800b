//! How finished maps are taken away.
ghost use Rattle.std.specs.Prelude.{◌≡◌, ◌+◌, ◌++◌, ◌∷◌, ◌<◌, ◌≤◌, [], if◌then◌else◌, is_some, true, None};
ghost use Rattle.std.specs.Vec.{vec_capacity, vec_len};
ghost use Rattle.std.specs.BTreeMap.{btree_map_len, get, IsUnchanged, Updates};
ghost use Rattle.hir_nameres.specs.HirIds.declared.ids.MapId.{MapId};
ghost use Rattle.hir_nameres.specs.HirIds.contracts.ids.MapIdOrd.TheImpl as map_order;
ghost use Rattle.hir_def_map.specs.Inner.Dependents.{HasRoom, IsIndexed};
ghost use Rattle.hir_nameres.specs.Removal.{refers_in, Depends, GainsRemoved, IsClosed, IsFalling};

use crate::world::World;
use crate::world::dependents::Dependents;
use crate::world::finished::Finished;
use hir_base::ids::MapId;
use std::alloc::AllocError;
use std::collections::BTreeMap;

fn take_one(maps: &mut BTreeMap<MapId, Finished>, dependents: &mut Dependents, id: MapId)
    requires indexed { IsIndexed dependents.old maps.old }
    ensures updates { Updates map_order.ghosts.cmp maps.old maps.new id None }
    ensures len { btree_map_len maps.new + (if is_some (get map_order.ghosts.cmp maps.old id) then 1 else 0) ≡ btree_map_len maps.old }
    ensures indexed { IsIndexed dependents.new maps.new }
{
    let Some(finished) = maps.remove(&id) else {
        return;
    };
    dependents.leave(&finished.named, id);
}

/// Takes a map away, and notes that others may depend on it.
fn fell(
    maps: &mut BTreeMap<MapId, Finished>,
    dependents: &mut Dependents,
    falling: &mut Vec<MapId>,
    id: MapId,
)
    requires indexed { IsIndexed dependents.old maps.old }
    requires there { is_some (get map_order.ghosts.cmp maps.old id) ≡ true }
    requires room { btree_map_len maps.old + vec_len falling.old ≤ vec_capacity falling.old }
    ensures updates { Updates map_order.ghosts.cmp maps.old maps.new id None }
    ensures len { btree_map_len maps.new + 1 ≡ btree_map_len maps.old }
    ensures indexed { IsIndexed dependents.new maps.new }
    ensures items { falling.new.items ≡ falling.old.items ++ id ∷ [] }
    ensures room { btree_map_len maps.new + vec_len falling.new ≤ vec_capacity falling.new }
{
    take_one(maps, dependents, id);
    falling.push_reserved(id);
}

/// Takes a map away, and each that names one that is away, until none does.
fn take_away(
    maps: &mut BTreeMap<MapId, Finished>,
    dependents: &mut Dependents,
    falling: &mut Vec<MapId>,
    id: MapId,
)
    requires closed { IsClosed maps.old }
    requires indexed { IsIndexed dependents.old maps.old }
    requires room { HasRoom falling.old maps.old }
    requires there { is_some (get map_order.ghosts.cmp maps.old id) ≡ true }
    ensures falling { IsFalling maps.old maps.new id }
    ensures closed { IsClosed maps.new }
    ensures indexed { IsIndexed dependents.new maps.new }
    ensures room { HasRoom falling.new maps.new }
{
    fell(maps, dependents, falling, id);
    'fall: while let Some(on) = falling.pop() {
        if let Some(next) = dependents.first(on) {
            falling.push_reserved(on);
            fell(maps, dependents, falling, next);
        }
    }
}

/// Takes a map away, notes that others may depend on it, and adds its id to those that are removed.
fn fell_into(
    maps: &mut BTreeMap<MapId, Finished>,
    dependents: &mut Dependents,
    falling: &mut Vec<MapId>,
    removed: &mut Vec<MapId>,
    id: MapId,
)
    requires indexed { IsIndexed dependents.old maps.old }
    requires there { is_some (get map_order.ghosts.cmp maps.old id) ≡ true }
    requires room { btree_map_len maps.old + vec_len falling.old ≤ vec_capacity falling.old }
    requires place { btree_map_len maps.old + vec_len removed.old ≤ vec_capacity removed.old }
    ensures updates { Updates map_order.ghosts.cmp maps.old maps.new id None }
    ensures len { btree_map_len maps.new + 1 ≡ btree_map_len maps.old }
    ensures indexed { IsIndexed dependents.new maps.new }
    ensures items { falling.new.items ≡ falling.old.items ++ id ∷ [] }
    ensures room { btree_map_len maps.new + vec_len falling.new ≤ vec_capacity falling.new }
    ensures removed { removed.new.items ≡ removed.old.items ++ id ∷ [] }
    ensures place { btree_map_len maps.new + vec_len removed.new ≤ vec_capacity removed.new }
{
    fell(maps, dependents, falling, id);
    removed.push_reserved(id);
}

/// Takes a map away, and each that names one that is away, until none does, and adds their ids to those that are removed.
fn take_away_into(
    maps: &mut BTreeMap<MapId, Finished>,
    dependents: &mut Dependents,
    falling: &mut Vec<MapId>,
    removed: &mut Vec<MapId>,
    id: MapId,
)
    requires closed { IsClosed maps.old }
    requires indexed { IsIndexed dependents.old maps.old }
    requires room { HasRoom falling.old maps.old }
    requires place { btree_map_len maps.old + vec_len removed.old ≤ vec_capacity removed.old }
    requires there { is_some (get map_order.ghosts.cmp maps.old id) ≡ true }
    ensures falling { IsFalling maps.old maps.new id }
    ensures closed { IsClosed maps.new }
    ensures indexed { IsIndexed dependents.new maps.new }
    ensures room { HasRoom falling.new maps.new }
    ensures removed { GainsRemoved maps.old maps.new removed.old.items removed.new.items }
    ensures place { btree_map_len maps.new + vec_len removed.new ≤ vec_capacity removed.new }
{
    fell_into(maps, dependents, falling, removed, id);
    'fall: while let Some(on) = falling.pop() {
        if let Some(next) = dependents.first(on) {
            falling.push_reserved(on);
            fell_into(maps, dependents, falling, removed, next);
        }
    }
}

impl World {
    /// Takes away a map and each that names it, directly or through others.
    ///
    /// It takes no memory, so it never fails. Its cost grows with the maps that fall and what these name, and hardly with those that stay.
    pub fn remove_with_dependents(&mut self, id: MapId) -> Result<(), AllocError>
        ensures ok { result ≡ Ok tt }
        ensures gone { (k : MapId) → Depends (refers_in self.old.maps) id k → get map_order.ghosts.cmp self.new.maps k ≡ None }
        ensures stay { (k : MapId) → ¬ Depends (refers_in self.old.maps) id k
            → get map_order.ghosts.cmp self.new.maps k ≡ get map_order.ghosts.cmp self.old.maps k }
        ensures absent { get map_order.ghosts.cmp self.old.maps id ≡ None → IsUnchanged self.old.maps self.new.maps }
    {
        if !self.maps.contains_key(&id) {
            return Ok(());
        }
        take_away(&mut self.maps, &mut self.dependents, &mut self.falling, id);
        Ok(())
    }

    /// Takes away a map and each that names it, directly or through others, and adds the id of each that went to `removed`.
    ///
    /// `removed` has room for as many ids as there are maps, so it takes no memory.
    pub fn remove_with_dependents_into(&mut self, id: MapId, removed: &mut Vec<MapId>)
        requires place { btree_map_len self.old.maps + vec_len removed.old ≤ vec_capacity removed.old }
        ensures gone { (k : MapId) → Depends (refers_in self.old.maps) id k → get map_order.ghosts.cmp self.new.maps k ≡ None }
        ensures stay { (k : MapId) → ¬ Depends (refers_in self.old.maps) id k
            → get map_order.ghosts.cmp self.new.maps k ≡ get map_order.ghosts.cmp self.old.maps k }
        ensures removed { GainsRemoved self.old.maps self.new.maps removed.old.items removed.new.items }
        ensures place { btree_map_len self.new.maps + vec_len removed.new ≤ vec_capacity removed.new }
    {
        if !self.maps.contains_key(&id) {
            return;
        }
        take_away_into(
            &mut self.maps,
            &mut self.dependents,
            &mut self.falling,
            removed,
            id,
        );
    }
}
