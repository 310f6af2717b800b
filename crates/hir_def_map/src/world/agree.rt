//! Whether worlds have the same maps.
ghost use Rattle.std.specs.Prelude.{◌≡◌};
ghost use Rattle.std.specs.List.{list_all};
ghost use Rattle.hir_def_map.specs.Agreement.{agrees_at};

use crate::world::World;
use hir_base::ids::MapId;

impl World {
    #[tactic(auto, unfolding(hir_nameres::specs::World::finished_in))]
    fn agrees_at(&self, other: &World, id: &MapId) -> bool
        ensures value { result ≡ agrees_at self.now.maps other.now.maps id.now }
    {
        match (self.maps.get(id), other.maps.get(id)) {
            (Some(one), Some(another)) => one.map == another.map && one.local == another.local,
            (None, None) => true,
            _ => false,
        }
    }

    /// Whether another world has, at each of the ids, an equal map with an equal `LocalDefMap`, or neither has one.
    pub fn agrees(&self, other: &World, ids: &[MapId]) -> bool
        ensures value { result ≡ list_all (agrees_at self.now.maps other.now.maps) ids.now }
    {
        let mut left = ids;
        'each: while let [id, others @ ..] = left {
            if !self.agrees_at(other, id) {
                return false;
            }
            left = others;
        }
        true
    }
}
