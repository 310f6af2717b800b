//! What has finished maps.

use crate::world::finished::Finished;
use hir_base::ids::MapId;
use std::collections::BTreeMap;

/// What has the finished maps of crates and blocks, none of which has a dangling reference.
pub trait FinishedMaps {
    ghost use Rattle.std.specs.Prelude.{◌≡◌};
    ghost use Rattle.std.specs.BTreeMap.{BTreeMap};
    ghost use Rattle.hir_def_map_rules.specs.HirIds.declared.ids.MapId.{MapId};
    ghost use Rattle.hir_nameres.specs.World.{IsChecked};
    ghost use Rattle.hir_nameres.specs.declared.world.finished.Finished.{Finished};

    // the maps by their ids
    ghost maps_of: { Self → BTreeMap MapId Finished };

    ghost checked: { (world : Self) → IsChecked (maps_of world) };

    /// The finished maps, by their ids.
    fn finished_maps(&self) -> &BTreeMap<MapId, Finished>
        ensures value { result.now ≡ maps_of self.now };
}
