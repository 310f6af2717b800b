//! Where a path starts.
ghost use Rattle.std.specs.Prelude.{◌≡◌, ◌+◌, ◌<◌, ◌^◌, length};
ghost use Rattle.hir_nameres.specs.DefMaps.{maps_of};
ghost use Rattle.hir_nameres.specs.Scoping.Query.{asking_of};
ghost use Rattle.hir_def_map_rules.specs.Scoping.Start.{abs_from, climb, from_start, is_import, is_in_reach, module_bound, settled_in_block, super_from};

use crate::def_maps::DefMaps;
use crate::nameres::path_resolution::first_segment::{is_block_root, shadow_before};
use crate::nameres::path_resolution::query::Query;
use crate::nameres::path_resolution::{ReachedFixedPoint, ResolveMode, ResolvePathResult};
use crate::nameres::reads::crate_root;
use hir_base::ids::{Crate, ModuleDefId, ModuleId};
use hir_base::mod_path::PathKind;
use hir_base::name::Name;
use hir_def_map_rules::hir_scope::per_ns::PerNs;
use hir_def_map_rules::hir_scope::visibility::Visibility;

/// A module, which all may see.
fn module_bound(module: ModuleId) -> PerNs
    ensures value { result ≡ module_bound «module» }
{
    PerNs::types(ModuleDefId::ModuleId(module), Visibility::Public, None)
}

/// Whether an import asks.
pub fn is_import(mode: ResolveMode) -> bool
    ensures value { result ≡ is_import mode }
{
    matches!(mode, ResolveMode::Import)
}

/// An answer that is settled where the path led into a module inside another block.
fn settled_in_block(module: ModuleId, found: ResolvePathResult) -> ResolvePathResult
    ensures value { result ≡ settled_in_block «module» found }
{
    if module.map.block.is_none() || is_block_root(module) {
        return found;
    }
    ResolvePathResult {
        resolved_def: found.resolved_def,
        segment_index: found.segment_index,
        reached_fixedpoint: ReachedFixedPoint::Yes,
        prefix_info: found.prefix_info,
    }
}

impl DefMaps<'_> {
    /// Whether `$crate` may name a crate.
    fn is_in_reach(&self, from: ModuleId, krate: Crate) -> bool
        ensures value { result ≡ is_in_reach (maps_of self.now) from krate }
    {
        krate == from.map.krate || self.depends_on(from.map, krate)
    }

    /// The module so many levels above, where there are as many; a block's root counts as the module that holds it.
    #[tactic(auto, using(hir_def_map_rules::proofs::Climb::climbs))]
    pub fn climb(&self, levels: u8, from: ModuleId) -> Option<ModuleId>
        ensures value { result ≡ climb (maps_of self.now) levels from }
    {
        let mut at = from;
        let mut left = levels;
        'up: while left > 0 {
            match self.parent_of(at) {
                Some(parent) => at = self.nearest_non_block_module(parent),
                None => return None,
            }
            left -= 1;
        }
        Some(at)
    }

    /// A path from the module that `super` leads to.
    fn super_from(
        &self,
        from: ModuleId,
        segments: &[Name],
        reached: Option<ModuleId>,
    ) -> ResolvePathResult
        ensures value { result ≡ super_from (maps_of self.now) from segments.now reached }
    {
        let Some(module) = reached else {
            return ResolvePathResult::unresolved(ReachedFixedPoint::Yes);
        };
        let bound = module_bound(module);
        if module.map.block == from.map.block {
            self.resolve_rest(from, segments, 0, bound)
        } else {
            settled_in_block(module, self.resolve_rest(module, segments, 0, bound))
        }
    }

    /// A path from what the extern prelude names.
    pub fn abs_from(&self, from: ModuleId, others: &[Name], names: PerNs) -> ResolvePathResult
        requires in_range { 1 + length others.now < 2 ^ 64 }
        ensures value { result ≡ abs_from (maps_of self.now) from others.now names }
    {
        if names.types.is_some() {
            self.resolve_rest(from, others, 1, names)
        } else {
            ResolvePathResult::unresolved(ReachedFixedPoint::No)
        }
    }
}

impl Query<'_> {
    /// A path, its root and its segments apart, asked from a module of a map.
    pub fn from_start(&self, from: ModuleId, kind: PathKind, segments: &[Name]) -> ResolvePathResult
        ensures value { result ≡ from_start (maps_of self.now.maps) (asking_of self.now) from kind segments.now }
    {
        match kind {
            PathKind::Crate => {
                let root = module_bound(crate_root(from.map.krate));
                self.maps.resolve_rest(from, segments, 0, root)
            }
            PathKind::DollarCrate(krate) => {
                if self.maps.is_in_reach(from, krate) {
                    let root = module_bound(crate_root(krate));
                    self.maps.resolve_rest(from, segments, 0, root)
                } else {
                    ResolvePathResult::unresolved(ReachedFixedPoint::No)
                }
            }
            PathKind::Super(levels) => {
                let reached = self
                    .maps
                    .climb(levels, self.maps.nearest_non_block_module(from));
                self.maps.super_from(from, segments, reached)
            }
            PathKind::Plain => match segments {
                [] => ResolvePathResult::unresolved(ReachedFixedPoint::Yes),
                [first, others @ ..] => {
                    if self.maps.is_in_edition_2015(from.map) && is_import(self.mode) {
                        let names = self.name_in_crate_root_or_extern_prelude(from, first);
                        self.maps.resolve_rest(from, others, 1, names)
                    } else {
                        let shadow = shadow_before(others, self.shadow);
                        let names = self.name_in_module(shadow, from, first);
                        self.maps.resolve_rest(from, others, 1, names)
                    }
                }
            },
            PathKind::Abs => match segments {
                [] => ResolvePathResult::unresolved(ReachedFixedPoint::Yes),
                [first, others @ ..] => {
                    if self.maps.is_in_edition_2015(from.map) {
                        let names = self.name_in_crate_root_or_extern_prelude(from, first);
                        self.maps.resolve_rest(from, others, 1, names)
                    } else {
                        self.maps.abs_from(from, others, self.extern_name(first))
                    }
                }
            },
        }
    }
}
