//! Look-ups in a part of a world.
ghost use Rattle.std.specs.Prelude.{◌≡◌, true, option_copied, option_map};
ghost use Rattle.std.specs.List.{list_any};
ghost use Rattle.hir_def_map_rules.specs.HirIds.contracts.ids.MapIdPartialEq.TheImpl as map_id;
ghost use Rattle.hir_nameres.specs.WorldParts.{among, are_within, is_within, part_of};
ghost use Rattle.hir_def_map_rules.specs.Ancestors.{frames_of, head_of, holders_of_frame};
ghost use Rattle.hir_def_map_rules.specs.Overlay.{Placed, map_in};
ghost use Rattle.hir_nameres.specs.World.{finished_in, placed_of};

use crate::nameres::DefMap;
use crate::world::finished::Finished;
use crate::world::finished_maps::FinishedMaps;
use crate::world::part::WorldPart;
use hir_base::ids::{MapId, ModuleId};
use hir_def_map_rules::hir_crate_graph::CrateSet;
use hir_def_map_rules::local_def_map::LocalDefMap;

impl<'a> WorldPart<'a> {
    /// All maps.
    #[tactic(auto, unfolding(crate::specs::WorldParts::part_of))]
    pub fn all<W: FinishedMaps>(world: &'a W) -> WorldPart<'a>
        ensures value { part_of result ≡ finished_in (W.maps_of world.now) }
    {
        WorldPart {
            maps: world.finished_maps(),
            crates: None,
            holders: &[],
        }
    }

    /// The maps of some crates, those of their blocks not among them, and the maps in which some modules lie.
    ///
    /// What a crate reads has no holders. A block reads also the module that holds it, the one that holds that one's
    /// block, and so on.
    #[tactic(auto, unfolding(crate::specs::WorldParts::part_of))]
    pub fn among<W: FinishedMaps>(
        world: &'a W,
        crates: &'a CrateSet,
        holders: &'a [ModuleId],
    ) -> WorldPart<'a>
        ensures value { part_of result ≡ among crates.now holders.now (finished_in (W.maps_of world.now)) }
    {
        WorldPart {
            maps: world.finished_maps(),
            crates: Some(crates),
            holders,
        }
    }

    /// Whether one of the holders lies in a map.
    fn has_holder_in(&self, id: MapId) -> bool
        ensures value { result ≡ list_any (λ (h : ModuleId). map_id.ghosts.eq h.map id) self.now.holders.now }
    {
        let mut left = self.holders;
        'next: while let [holder, others @ ..] = left {
            if holder.map == id {
                return true;
            }
            left = others;
        }
        false
    }

    fn is_within(&self, id: MapId) -> bool
        ensures value { result ≡ is_within (option_copied self.now.crates) self.now.holders.now id }
    {
        match self.crates {
            Some(crates) => {
                (id.block.is_none() && crates.contains(id.krate)) || self.has_holder_in(id)
            }
            None => true,
        }
    }

    /// Whether the holders have the modules among them in this order, which is told by one walk over them.
    ///
    /// What holds a block's map is at the end of the list of what holds the block itself.
    fn are_in_order(&self, modules: &[ModuleId]) -> bool
        ensures within { result ≡ true → are_within (option_copied self.now.crates) self.now.holders.now modules.now ≡ true }
    {
        let mut left = modules;
        let mut holders = self.holders;
        'next: while let [holder, others @ ..] = holders {
            if let [module, rest @ ..] = left {
                if holder.map == module.map {
                    left = rest;
                }
            }
            holders = others;
        }
        left.is_empty()
    }

    fn are_each_within(&self, modules: &[ModuleId]) -> bool
        ensures value { result ≡ are_within (option_copied self.now.crates) self.now.holders.now modules.now }
    {
        let mut left = modules;
        'next: while let [module, others @ ..] = left {
            if !self.is_within(module.map) {
                return false;
            }
            left = others;
        }
        true
    }

    fn are_within(&self, modules: &[ModuleId]) -> bool
        ensures value { result ≡ are_within (option_copied self.now.crates) self.now.holders.now modules.now }
    {
        self.are_in_order(modules) || self.are_each_within(modules)
    }

    /// The finished map of an id, where it is there and may be read with all that holds it.
    #[tactic(auto, using(crate::proofs::Parts::parts), unfolding(crate::specs::World::finished_in))]
    fn finished(&self, id: MapId) -> Option<&'a Finished>
        ensures value { option_map placed_of (option_copied result) ≡ part_of self.now id }
    {
        if !self.is_within(id) {
            return None;
        }
        match self.maps.get(&id) {
            Some(finished) => {
                if self.are_within(finished.holders.as_slice()) {
                    Some(finished)
                } else {
                    None
                }
            }
            None => None,
        }
    }

    /// The map of an id, where it is there and may be read.
    pub fn map(&self, id: MapId) -> Option<&'a DefMap>
        ensures value { option_map (λ m. m.now) result ≡ map_in (part_of self.now) id }
    {
        match self.finished(id) {
            Some(finished) => Some(&finished.map),
            None => None,
        }
    }

    /// The crates that the paths of a map may begin with, where it is there and may be read.
    pub fn local(&self, id: MapId) -> Option<&'a LocalDefMap>
        ensures value { option_map (λ l. l.now) result ≡ option_map (λ (p : Placed). p.local) (part_of self.now id) }
    {
        match self.finished(id) {
            Some(finished) => Some(&finished.local),
            None => None,
        }
    }

    /// The module that holds the block of a map.
    #[tactic(auto, unfolding(hir_def_map_rules::specs::Ancestors::frames_of))]
    pub fn holder(&self, id: MapId) -> Option<ModuleId>
        ensures value { result ≡ head_of (holders_of_frame (frames_of (part_of self.now) id)) }
    {
        match self.finished(id) {
            Some(finished) => finished.holders.first().copied(),
            None => None,
        }
    }
}
