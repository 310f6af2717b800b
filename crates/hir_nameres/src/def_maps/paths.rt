//! What paths mean over several maps.
ghost use Rattle.std.specs.Prelude.{◌≡◌, None, option_copied};
ghost use Rattle.hir_nameres.specs.DefMaps.{maps_of};
ghost use Rattle.hir_def_map_rules.specs.Scoping.{resolution_of};
ghost use Rattle.hir_def_map_rules.specs.Scoping.Asking.{by_other, local_of};
ghost use Rattle.hir_def_map_rules.specs.Scoping.Start.{from_start};
ghost use Rattle.hir_def_map_rules.specs.Reaches.{reached_items};

use crate::def_maps::DefMaps;
use crate::nameres::path_resolution::query::Query;
use crate::nameres::path_resolution::{
    BuiltinShadowMode, MacroSubNs, ResolveMode, ResolvePathResult,
};
use hir_base::ids::ModuleId;
use hir_base::mod_path::ModPath;
use hir_def_map_rules::hir_scope::per_ns::PerNs;
use hir_def_map_rules::local_def_map::LocalDefMap;

impl DefMaps<'_> {
    /// What a path means, asked from a module.
    ///
    /// Without a local map the extern prelude is empty.
    pub fn resolve_path_fp_with_macro(
        &self,
        local: Option<&LocalDefMap>,
        mode: ResolveMode,
        at: ModuleId,
        path: &ModPath,
        shadow: BuiltinShadowMode,
        sub_ns: Option<MacroSubNs>,
    ) -> ResolvePathResult
        ensures resolves { result ≡ resolution_of (maps_of self.now)
            (record { local = local_of (option_copied local.entry); mode = mode; shadow = shadow; sub_ns = sub_ns }) at path.now }
    {
        let query = Query {
            maps: *self,
            local,
            mode,
            shadow,
            sub_ns,
        };
        query.resolve(at, path.kind(), path.segments())
    }

    /// What a path means where no import asks, a block's root having nothing of what its holder has.
    pub fn resolve_path_locally(
        &self,
        local: Option<&LocalDefMap>,
        at: ModuleId,
        path: &ModPath,
        shadow: BuiltinShadowMode,
    ) -> ResolvePathResult
        ensures resolves { result ≡ from_start (maps_of self.now)
            (by_other (local_of (option_copied local.entry)) shadow None) at path.now.kind path.now.segments }
    {
        let query = Query {
            maps: *self,
            local,
            mode: ResolveMode::Other,
            shadow,
            sub_ns: None,
        };
        query.from_start(at, path.kind(), path.segments())
    }

    /// What an import's path leads to, also where it stops early.
    pub fn reached_items(&self, local: Option<&LocalDefMap>, at: ModuleId, path: &ModPath) -> PerNs
        ensures value { result ≡ reached_items (maps_of self.now) (local_of (option_copied local.entry)) at path.now }
    {
        let mode = ResolveMode::Import;
        let shadow = BuiltinShadowMode::Module;
        self.resolve_path_fp_with_macro(local, mode, at, path, shadow, None)
            .resolved_def
    }
}
