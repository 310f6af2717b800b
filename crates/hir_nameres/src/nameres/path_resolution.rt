//! What paths mean, after rust-analyzer's `path_resolution.rs`.
//!
//! A path has a root (`start`) and segments. The root of a plain path is its first segment, which is looked up in turn in
//! the macros in textual scope, in the module's scope or among the builtin types, in the extern prelude, in the
//! `macro_use` prelude, and in the prelude module (`first_segment`): in each namespace the first answer counts. Each
//! further segment is a name of the module or enum that the type before it is, as far as the asking module may see it
//! (`segments`). A path that is asked in a block is asked again in the module that holds the block, and so on outwards,
//! and what is missing is taken from there (`blocks`).
//!
//! The difficulty is who asks. Past a module of another crate, that module asks for the rest of the path, and the answer
//! is a fixed point, since nothing there changes any more; past a `super` that leads out of a block, the module there
//! asks. While a map is being built, its own names may still grow, so an answer also says whether further items could
//! change it.
ghost use Rattle.std.specs.Prelude.{◌≡◌, None, option_copied};
ghost use Rattle.hir_def_map_rules.specs.Overlay.{overlay};
ghost use Rattle.hir_nameres.specs.World.{finished_in};
ghost use Rattle.hir_def_map_rules.specs.Scoping.{resolution_of};
ghost use Rattle.hir_def_map_rules.specs.Scoping.Asking.{by_other, local_of};
ghost use Rattle.hir_def_map_rules.specs.Scoping.Start.{from_start};
ghost use Rattle.hir_def_map_rules.specs.Reaches.{reached_items};

mod blocks;
mod first_segment;
pub mod query;
mod segments;
pub mod slots;
mod start;

use crate::def_maps::DefMaps;
use crate::nameres::DefMap;
use crate::world::finished_maps::FinishedMaps;
use crate::world::part::WorldPart;
use hir_base::ids::ModuleId;
use hir_base::mod_path::ModPath;
pub use hir_base::resolve_mode::{BuiltinShadowMode, MacroSubNs};
use hir_def_map_rules::hir_scope::per_ns::PerNs;
use hir_def_map_rules::local_def_map::LocalDefMap;
pub use hir_def_map_rules::path_result::{
    ReachedFixedPoint, ResolveMode, ResolvePathResult, ResolvePathResultPrefixInfo,
};

impl DefMap {
    /// What a path means, asked from a module.
    ///
    /// Without a local map the extern prelude is empty.
    pub fn resolve_path_fp_with_macro<W: FinishedMaps>(
        &self,
        local: Option<&LocalDefMap>,
        world: &W,
        mode: ResolveMode,
        at: ModuleId,
        path: &ModPath,
        shadow: BuiltinShadowMode,
        sub_ns: Option<MacroSubNs>,
    ) -> ResolvePathResult
        ensures resolves { result ≡ resolution_of (overlay (finished_in (W.maps_of world.now)) self.now)
            (record { local = local_of (option_copied local.entry); mode = mode; shadow = shadow; sub_ns = sub_ns }) at path.now }
    {
        let maps = DefMaps::new(WorldPart::all(world), self);
        maps.resolve_path_fp_with_macro(local, mode, at, path, shadow, sub_ns)
    }

    /// What a path means where no import asks, and the number of the segment at which it stopped, if it did.
    pub fn resolve_path<W: FinishedMaps>(
        &self,
        local: Option<&LocalDefMap>,
        world: &W,
        at: ModuleId,
        path: &ModPath,
        shadow: BuiltinShadowMode,
        sub_ns: Option<MacroSubNs>,
    ) -> (PerNs, Option<usize>)
        ensures items { result.0 ≡ (resolution_of (overlay (finished_in (W.maps_of world.now)) self.now)
            (by_other (local_of (option_copied local.entry)) shadow sub_ns) at path.now).resolved_def }
        ensures stop { result.1 ≡ (resolution_of (overlay (finished_in (W.maps_of world.now)) self.now)
            (by_other (local_of (option_copied local.entry)) shadow sub_ns) at path.now).segment_index }
    {
        let mode = ResolveMode::Other;
        let resolution = self.resolve_path_fp_with_macro(
            local, world, mode, at, path, shadow, sub_ns,
        );
        (resolution.resolved_def, resolution.segment_index)
    }

    /// What a path means where no import asks, a block's root having nothing of what its holder has.
    pub fn resolve_path_locally<W: FinishedMaps>(
        &self,
        local: Option<&LocalDefMap>,
        world: &W,
        at: ModuleId,
        path: &ModPath,
        shadow: BuiltinShadowMode,
    ) -> (PerNs, Option<usize>, ResolvePathResultPrefixInfo)
        ensures items { result.0 ≡ (from_start (overlay (finished_in (W.maps_of world.now)) self.now)
            (by_other (local_of (option_copied local.entry)) shadow None) at path.now.kind path.now.segments).resolved_def }
        ensures stop { result.1 ≡ (from_start (overlay (finished_in (W.maps_of world.now)) self.now)
            (by_other (local_of (option_copied local.entry)) shadow None) at path.now.kind path.now.segments).segment_index }
        ensures prefix { result.2 ≡ (from_start (overlay (finished_in (W.maps_of world.now)) self.now)
            (by_other (local_of (option_copied local.entry)) shadow None) at path.now.kind path.now.segments).prefix_info }
    {
        let maps = DefMaps::new(WorldPart::all(world), self);
        let resolution = maps.resolve_path_locally(local, at, path, shadow);
        (
            resolution.resolved_def,
            resolution.segment_index,
            resolution.prefix_info,
        )
    }

    /// What an import's path leads to, also where it stops early.
    pub fn reached_items<W: FinishedMaps>(
        &self,
        local: Option<&LocalDefMap>,
        world: &W,
        at: ModuleId,
        path: &ModPath,
    ) -> PerNs
        ensures value { result ≡ reached_items (overlay (finished_in (W.maps_of world.now)) self.now) (local_of (option_copied local.entry)) at path.now }
    {
        let maps = DefMaps::new(WorldPart::all(world), self);
        maps.reached_items(local, at, path)
    }
}
