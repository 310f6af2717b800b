//! What visibilities mean in a map that is built.
ghost use Rattle.std.specs.Prelude.{◌≡◌};
ghost use Rattle.hir_nameres.specs.WorldParts.{part_of};
ghost use Rattle.hir_import_rules.specs.Visibilities.{lesser_in, visibility_in};

use hir_base::ids::ModuleId;
use hir_nameres::def_maps::DefMaps;
use hir_nameres::hir_raw_visibility::raw_visibility::RawVisibility;
use hir_nameres::hir_scope::visibility::Visibility;
use hir_nameres::nameres::DefMap;
use hir_nameres::nameres::local_def_map::LocalDefMap;
use hir_nameres::world::part::WorldPart;

/// What a visibility means that is written in a module of the map; one whose path leads to no module counts as public.
#[tactic(auto, unfolding(hir_import_rules::specs::Visibilities::visibility_in, hir_nameres::specs::DefMaps::maps_of))]
pub fn visibility(
    map: &DefMap,
    local: &LocalDefMap,
    world: WorldPart<'_>,
    at: ModuleId,
    raw: &RawVisibility,
) -> Visibility
    ensures value { result ≡ visibility_in (part_of world.entry) local.now map.now at raw.now }
{
    DefMaps::new(world, map).visibility_from_ast(Some(local), at, raw)
}

/// The lesser of two visibilities in the map beside finished ones, if they aren't unrelated.
#[tactic(auto, unfolding(hir_import_rules::specs::Visibilities::lesser_in, hir_nameres::specs::DefMaps::maps_of))]
pub fn lesser(
    map: &DefMap,
    world: WorldPart<'_>,
    one: Visibility,
    other: Visibility,
) -> Option<Visibility>
    ensures value { result ≡ lesser_in (part_of world.entry) map.now one other }
{
    let maps = DefMaps::new(world, map);
    one.min(&maps, other, map.id())
}
