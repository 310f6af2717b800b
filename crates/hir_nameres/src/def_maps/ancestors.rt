//! Asking about a module and about those that hold it, after rust-analyzer's `with_ancestor_maps`.
ghost use Rattle.std.specs.Prelude.{◌≡◌, ◌∷◌};
ghost use Rattle.hir_def_map_rules.specs.AskMaps.{AsksMaps, with_maps};
ghost use Rattle.hir_def_map_rules.specs.Ancestors.{holders_in};
ghost use Rattle.hir_nameres.specs.DefMaps.{maps_of};
ghost use Rattle.hir_def_map_rules.specs.Overlay.{overlay};
ghost use Rattle.hir_nameres.specs.World.{finished_in};

use crate::def_maps::DefMaps;
use crate::nameres::DefMap;
use crate::world::finished_maps::FinishedMaps;
use crate::world::part::WorldPart;
use hir_base::ids::ModuleId;

impl DefMaps<'_> {
    /// Asks about a module and its map, then about the module that holds the block of that map, and so on outwards, until
    /// there is an answer.
    pub fn with_ancestor_maps<T, F: FnMut(&DefMap, ModuleId) -> Option<T> + Drop>(
        &self,
        at: ModuleId,
        mut f: F,
    ) -> Option<T>
        requires { F.IsAlwaysCallable f }
        ensures value { AsksMaps F.step f (with_maps (maps_of self.now) (at ∷ holders_in (maps_of self.now) at)) result }
    {
        let mut next = Some(at);
        'out: while let Some(asked) = next {
            if let Some(map) = self.map(asked.map) {
                if let Some(answer) = f(map, asked) {
                    return Some(answer);
                }
            }
            next = self.holder_of(asked);
        }
        None
    }
}

impl DefMap {
    /// Asks about a module and its map, then about the module that holds the block of that map, and so on outwards, until
    /// there is an answer. The map itself comes before a finished one of its id.
    pub fn with_ancestor_maps<W: FinishedMaps, T, F: FnMut(&DefMap, ModuleId) -> Option<T> + Drop>(
        &self,
        world: &W,
        at: ModuleId,
        f: F,
    ) -> Option<T>
        requires { F.IsAlwaysCallable f }
        ensures value { AsksMaps F.step f (with_maps (overlay (finished_in (W.maps_of world.now)) self.now)
            (at ∷ holders_in (overlay (finished_in (W.maps_of world.now)) self.now) at)) result }
    {
        let maps = DefMaps::new(WorldPart::all(world), self);
        maps.with_ancestor_maps(at, f)
    }
}
