//! The maps that are finished.
ghost use Rattle.std.specs.Prelude.{◌≡◌};
ghost use Rattle.hir_def_map_rules.specs.Overlay.{no_maps};
ghost use Rattle.hir_nameres.specs.World.{IsChecked, finished_in};
ghost use Rattle.hir_def_map.specs.Inner.Dependents.{HasRoom, IsIndexed};

pub mod agree;
pub mod dependents;
pub mod insert;
pub mod look_up;
mod recorded;
mod references;
pub mod remove;
mod well_formed;

use dependents::Dependents;
use finished::Finished;
use finished_maps::FinishedMaps;
use hir_base::ids::MapId;
pub use hir_def_map_rules::reference;
pub use hir_nameres::world::{finished, finished_maps, part};
use std::alloc::Global;
use std::collections::BTreeMap;

/// The finished maps of crates and blocks, none of which has a dangling reference.
#[derive(Drop)]
pub struct World {
    pub maps: BTreeMap<MapId, Finished>,
    /// Which of them refer to one of them.
    pub(crate) dependents: Dependents,
    /// The worklist of a removal: those that were removed and on which others may still depend. Between two calls it is empty, with room for all.
    pub(crate) falling: Vec<MapId>,
    pub(crate) alloc: Global,
    ghost checked: { IsChecked maps },
    ghost indexed: { IsIndexed dependents maps },
    ghost room: { HasRoom falling maps },
}

impl World {
    /// No maps.
    pub fn new(alloc: Global) -> World
        ensures value { finished_in result.maps ≡ no_maps }
    {
        World {
            maps: BTreeMap::new(alloc),
            dependents: Dependents::new(alloc),
            falling: Vec::new(alloc),
            alloc,
        }
    }
}

impl FinishedMaps for World {
    ghost maps_of = { λ world. world.maps };

    ghost checked = { λ world. world.checked };

    fn finished_maps(&self) -> &BTreeMap<MapId, Finished> {
        &self.maps
    }
}
