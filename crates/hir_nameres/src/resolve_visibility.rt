//! What written visibilities mean in a map.
ghost use Rattle.std.specs.Prelude.{◌≡◌, IfSome, option_copied};
ghost use Rattle.hir_def_map_rules.specs.HirPerNs.Visibility.{is_visible, lesser_of, IsMeet};
ghost use Rattle.hir_def_map_rules.specs.Overlay.{overlay};
ghost use Rattle.hir_def_map_rules.specs.Ancestors.{above_in, holders_in};
ghost use Rattle.hir_nameres.specs.World.{finished_in};
ghost use Rattle.hir_def_map_rules.specs.Scoping.Asking.{local_of};
ghost use Rattle.hir_def_map_rules.specs.Visibilities.{module_seen, path_seen, resolved_visibility};

use crate::def_maps::DefMaps;
use crate::nameres::DefMap;
use crate::world::finished_maps::FinishedMaps;
use crate::world::part::WorldPart;
use hir_base::ids::{MapId, ModuleDefId, ModuleId};
use hir_def_map_rules::hir_raw_visibility::raw_visibility::{
    RawVisibility, VisibilityExplicitness,
};
use hir_def_map_rules::hir_scope::per_ns::PerNs;
use hir_def_map_rules::hir_scope::visibility::Visibility;
use hir_def_map_rules::local_def_map::LocalDefMap;

/// The visibility in a module that a path names; outside the map its root stands for it, unless in an impl.
fn module_seen(
    within_impl: bool,
    map: MapId,
    explicitness: VisibilityExplicitness,
    def: ModuleDefId,
) -> Option<Visibility>
    ensures value { result ≡ module_seen within_impl map explicitness def }
{
    let ModuleDefId::ModuleId(module) = def else {
        return None;
    };
    if within_impl || module.map == map {
        Some(Visibility::Module(module, explicitness))
    } else {
        Some(Visibility::Module(ModuleId { map, index: 0 }, explicitness))
    }
}

/// The visibility in the module that a path reaches, where it reaches one.
pub fn path_seen(
    within_impl: bool,
    map: MapId,
    explicitness: VisibilityExplicitness,
    stop: Option<usize>,
    items: PerNs,
) -> Option<Visibility>
    ensures value { result ≡ path_seen within_impl map explicitness stop items }
{
    if stop.is_some() {
        return None;
    }
    match items.types {
        Some(item) => module_seen(within_impl, map, explicitness, item.def),
        None => None,
    }
}

impl DefMap {
    /// What a visibility means that is written in a module; none where its path doesn't lead to one.
    pub fn resolve_visibility<W: FinishedMaps>(
        &self,
        local: Option<&LocalDefMap>,
        world: &W,
        at: ModuleId,
        raw: &RawVisibility,
        within_impl: bool,
    ) -> Option<Visibility>
        ensures value { result ≡ resolved_visibility (overlay (finished_in (W.maps_of world.now)) self.now) (local_of (option_copied local.entry)) at within_impl raw.now }
    {
        let maps = DefMaps::new(WorldPart::all(world), self);
        maps.resolve_visibility(local, at, raw, within_impl)
    }

    /// The lesser of two visibilities, if one has all that the other has.
    pub fn lesser<W: FinishedMaps>(
        &self,
        world: &W,
        one: Visibility,
        other: Visibility,
    ) -> Option<Visibility>
        ensures value { result ≡ lesser_of (above_in (overlay (finished_in (W.maps_of world.now)) self.now)) self.now.id one other }
        ensures meet { IfSome result (λ least. IsMeet (is_visible (above_in (overlay (finished_in (W.maps_of world.now)) self.now))
            (holders_in (overlay (finished_in (W.maps_of world.now)) self.now))) least one other) }
    {
        DefMaps::new(WorldPart::all(world), self).lesser(one, other)
    }

    /// Whether a module may see what has this visibility.
    pub fn is_visible<W: FinishedMaps>(&self, world: &W, vis: Visibility, from: ModuleId) -> bool
        ensures value { result ≡ is_visible (above_in (overlay (finished_in (W.maps_of world.now)) self.now))
            (holders_in (overlay (finished_in (W.maps_of world.now)) self.now)) vis from }
    {
        DefMaps::new(WorldPart::all(world), self).is_visible(vis, from)
    }
}
