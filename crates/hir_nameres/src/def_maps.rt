//! The finished maps with the current one on top.
ghost use Rattle.std.specs.Prelude.{◌≡◌, option_map};
ghost use Rattle.hir_def_map_rules.specs.HirPerNs.ModuleTree.{chain_from};
ghost use Rattle.hir_def_map_rules.specs.Overlay.{overlay, entry_in, holders_under, map_in, module_in, parent_in, placed_in};
ghost use Rattle.hir_def_map_rules.specs.Ancestors.{above_in, head_of, holder_in, holders_in, up_in};
ghost use Rattle.hir_def_map_rules.specs.Inner.AncestorLaws.{above_in_crate, above_up, holders_up, same_holder};
ghost use Rattle.hir_def_map_rules.specs.Scoping.FirstSegment.{legacy_of, macro_use_of, prelude_of};
ghost use Rattle.hir_def_map_rules.specs.Scoping.Segments.{variant_in};
ghost use Rattle.hir_def_map_rules.specs.Scoping.Start.{is_dependency, is_in_edition_2015};
ghost use Rattle.hir_nameres.specs.WorldParts.{part_of};
ghost use Rattle.hir_nameres.specs.DefMaps.{maps_of, maps_placed};

mod ancestors;
mod dump;
mod paths;
mod visibilities;

use crate::nameres::DefMap;
use crate::world::part::WorldPart;
use hir_base::edition::Edition;
use hir_base::ids::{Crate, EnumId, ExternCrateId, MapId, ModuleId, UseId};
use hir_base::macro_kind::MacroId;
use hir_base::name::Name;
use hir_def_map_rules::enum_variants::EnumVariant;
use hir_def_map_rules::hir_scope::module_tree::ModuleTree;
use hir_def_map_rules::hir_scope::per_ns::PerNs;

/// Finished maps, and one that may still be being built, which comes before a finished one of its id.
#[derive(Clone, Copy)]
pub struct DefMaps<'a> {
    pub world: WorldPart<'a>,
    pub own: &'a DefMap,
}

impl<'a> DefMaps<'a> {
    #[tactic(auto, unfolding(crate::specs::DefMaps::maps_of))]
    pub fn new(world: WorldPart<'a>, own: &'a DefMap) -> DefMaps<'a>
        ensures value { maps_of result ≡ overlay (part_of world.entry) own.now }
        ensures own { result.own.now ≡ own.now }
    {
        DefMaps { world, own }
    }

    /// The map of an id.
    #[tactic(auto, using(hir_def_map_rules::proofs::LookUps::beside_found), unfolding(crate::specs::DefMaps::maps_of))]
    pub fn map(&self, id: MapId) -> Option<&'a DefMap>
        ensures value { option_map (λ m. m.now) result ≡ map_in (maps_of self.now) id }
    {
        if id == self.own.id() {
            Some(self.own)
        } else {
            self.world.map(id)
        }
    }
}

impl DefMaps<'_> {
    /// What a name stands for in a module; nothing where the module isn't there.
    #[tactic(auto, using(hir_def_map_rules::proofs::LookUps::found))]
    pub fn entry(&self, at: ModuleId, name: &Name) -> PerNs
        ensures value { result ≡ entry_in (maps_of self.now) at name.now }
    {
        match self.map(at.map) {
            Some(map) => map.entry(at.index, name),
            None => PerNs::none(),
        }
    }

    /// What a module is in.
    #[tactic(auto, using(hir_def_map_rules::proofs::LookUps::found))]
    pub fn parent_of(&self, of: ModuleId) -> Option<ModuleId>
        ensures value { result ≡ parent_in (maps_of self.now) of }
    {
        match self.map(of.map) {
            Some(map) => map.parent_of(of.index),
            None => None,
        }
    }

    /// The last of the macros of a name that are in textual scope in a module.
    #[tactic(auto, using(hir_def_map_rules::proofs::LookUps::found))]
    pub fn legacy_macro(&self, at: ModuleId, name: &Name) -> Option<MacroId>
        ensures value { result ≡ legacy_of (module_in (maps_of self.now) at) name.now }
    {
        match self.map(at.map) {
            Some(map) => map.legacy_macro(at.index, name),
            None => None,
        }
    }

    /// The variant of a name in an enum.
    #[tactic(auto, using(hir_def_map_rules::proofs::LookUps::found))]
    pub fn variant(&self, id: EnumId, name: &Name) -> Option<EnumVariant>
        ensures value { result ≡ variant_in (maps_of self.now) id name.now }
    {
        match self.map(id.loc.container.map) {
            Some(map) => match map.enum_variants(id) {
                Some(variants) => variants.get(name),
                None => None,
            },
            None => None,
        }
    }

    /// The macro of a name in the `macro_use` prelude of a map, and the `extern crate` that brought it, if one did.
    pub fn macro_use(&self, id: MapId, name: &Name) -> Option<(MacroId, Option<ExternCrateId>)>
        ensures value { result ≡ macro_use_of (map_in (maps_of self.now) id) name.now }
    {
        match self.map(id) {
            Some(map) => map.macro_use(name),
            None => None,
        }
    }

    /// The prelude module of a map, and the `use` that names it, if one does.
    pub fn prelude(&self, id: MapId) -> Option<(ModuleId, Option<UseId>)>
        ensures value { result ≡ prelude_of (map_in (maps_of self.now) id) }
    {
        match self.map(id) {
            Some(map) => map.prelude(),
            None => None,
        }
    }

    /// Whether a map is of edition 2015.
    pub fn is_in_edition_2015(&self, id: MapId) -> bool
        ensures value { result ≡ is_in_edition_2015 (map_in (maps_of self.now) id) }
    {
        match self.map(id) {
            Some(map) => matches!(map.edition(), Edition::Edition2015),
            None => false,
        }
    }

    /// Whether a map's crate stands on another.
    pub fn depends_on(&self, id: MapId, krate: Crate) -> bool
        ensures value { result ≡ is_dependency (map_in (maps_of self.now) id) krate }
    {
        match self.map(id) {
            Some(map) => map.crate_data().depends_on(krate),
            None => false,
        }
    }

    /// The module that holds the block of a module's map.
    pub fn holder_of(&self, at: ModuleId) -> Option<ModuleId>
        ensures value { result ≡ holder_in (maps_of self.now) at }
        ensures above { holders_in (maps_of self.now) at ≡ chain_from (holders_in (maps_of self.now)) result }
    {
        self.holder(at)
    }

    /// The holder that a map of the own id would have among the finished ones.
    fn new_holder(&self) -> Option<ModuleId>
        ensures value { result ≡ head_of (holders_under (part_of self.now.world) self.now.own.now.id self.now.own.now.holder) }
    {
        match self.own.parent() {
            Some(holder) => {
                if holder.map.krate == self.own.id().krate && self.world.map(holder.map).is_some() {
                    Some(holder)
                } else {
                    None
                }
            }
            None => None,
        }
    }

    /// The holder of the own map: that of the finished map of its id, where there is one.
    #[tactic(auto, using(hir_def_map_rules::proofs::LookUps::beside_found))]
    fn own_holder(&self) -> Option<ModuleId>
        ensures value { result ≡ head_of (placed_in (part_of self.now.world) self.now.own.now).holders }
    {
        let id = self.own.id();
        if self.world.map(id).is_some() {
            self.world.holder(id)
        } else {
            self.new_holder()
        }
    }
}

impl ModuleTree for DefMaps<'_> {
    ghost parent_of = { λ m. up_in (maps_of m) };

    ghost holder_of = { λ m. holder_in (maps_of m) };

    ghost above = { λ m. above_in (maps_of m) };

    ghost holders = { λ m. holders_in (maps_of m) };

    ghost above_step = { λ m. above_up (maps_of m) (maps_placed m) };

    ghost holders_step = { λ m. holders_up (maps_of m) (maps_placed m) };

    ghost same_holder = { λ m. same_holder (maps_of m) };

    ghost one_crate = { λ m. above_in_crate (maps_of m) (maps_placed m) };

    #[tactic(auto, using(hir_def_map_rules::proofs::LookUps::found))]
    fn parent(&self, of: ModuleId) -> Option<ModuleId> {
        match self.map(of.map) {
            Some(map) => match map.step_up(of.index) {
                Some(index) => Some(ModuleId { map: of.map, index }),
                None => None,
            },
            None => None,
        }
    }

    #[tactic(auto, using(hir_def_map_rules::proofs::LookUps::beside_found), unfolding(crate::specs::DefMaps::maps_of))]
    fn holder(&self, of: ModuleId) -> Option<ModuleId> {
        if of.map == self.own.id() {
            self.own_holder()
        } else {
            self.world.holder(of.map)
        }
    }
}
