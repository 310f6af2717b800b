//! Look-ups of finished maps.
ghost use Rattle.std.specs.Prelude.{◌≡◌, option_map, length, slice_get};
ghost use Rattle.hir_def_map_rules.specs.Overlay.{map_in};
ghost use Rattle.hir_def_map_rules.specs.Ancestors.{frames_of, head_of, holders_of_frame};
ghost use Rattle.hir_def_map_rules.specs.References.{crate_map};
ghost use Rattle.hir_nameres.specs.World.{finished_in, local_in};

use crate::nameres::DefMap;
use crate::world::World;
use hir_base::ids::{Crate, MapId, ModuleId};
use hir_def_map_rules::local_def_map::LocalDefMap;

impl World {
    /// The map of an id, where it is there.
    #[tactic(auto, unfolding(hir_nameres::specs::World::finished_in))]
    pub fn map(&self, id: MapId) -> Option<&DefMap>
        ensures value { option_map (λ m. m.now) result ≡ map_in (finished_in self.now.maps) id }
    {
        match self.maps.get(&id) {
            Some(finished) => Some(&finished.map),
            None => None,
        }
    }

    /// The crates that the paths of a map may begin with.
    pub fn local(&self, id: MapId) -> Option<&LocalDefMap>
        ensures value { option_map (λ l. l.now) result ≡ local_in self.now.maps id }
    {
        match self.maps.get(&id) {
            Some(finished) => Some(&finished.local),
            None => None,
        }
    }

    /// The module that holds the block of a map.
    #[tactic(auto, unfolding(hir_nameres::specs::World::finished_in, hir_def_map_rules::specs::Ancestors::frames_of))]
    pub fn holder(&self, id: MapId) -> Option<ModuleId>
        ensures value { result ≡ head_of (holders_of_frame (frames_of (finished_in self.now.maps) id)) }
    {
        match self.maps.get(&id) {
            Some(finished) => finished.holders.first().copied(),
            None => None,
        }
    }
}

/// The def map of a crate, where it is finished.
pub fn crate_def_map(world: &World, krate: Crate) -> Option<&DefMap>
    ensures value { option_map (λ m. m.now) result ≡ map_in (finished_in world.now.maps) (crate_map krate) }
{
    world.map(MapId { krate, block: None })
}

/// The def map of a block, by the id of that, where it is finished.
pub fn block_def_map(world: &World, id: MapId) -> Option<&DefMap>
    ensures value { option_map (λ m. m.now) result ≡ map_in (finished_in world.now.maps) id }
{
    world.map(id)
}
