//! What visibilities mean over several maps.
ghost use Rattle.std.specs.Prelude.{◌≡◌, false, map, IfOk, IfSome, option_copied};
ghost use Rattle.hir_def_map_rules.specs.HirPerNs.Visibility.{is_visible, lesser_of, IsMeet};
ghost use Rattle.hir_def_map_rules.specs.Ancestors.{above_in, holders_in};
ghost use Rattle.hir_nameres.specs.DefMaps.{maps_of};
ghost use Rattle.hir_def_map_rules.specs.Scoping.Asking.{local_of};
ghost use Rattle.hir_def_map_rules.specs.Visibilities.{assoc_visibility_of, resolved_visibility, written_visibility};

use crate::def_maps::DefMaps;
use crate::nameres::path_resolution::{BuiltinShadowMode, ResolveMode};
use crate::resolve_visibility::path_seen;
use hir_base::ids::ModuleId;
use hir_def_map_rules::hir_raw_visibility::raw_visibility::RawVisibility;
use hir_def_map_rules::hir_scope::visibility::Visibility;
use hir_def_map_rules::local_def_map::LocalDefMap;
use std::alloc::{AllocError, Global};

impl DefMaps<'_> {
    /// What a visibility means that is written in a module; none where its path doesn't lead to one.
    pub fn resolve_visibility(
        &self,
        local: Option<&LocalDefMap>,
        at: ModuleId,
        raw: &RawVisibility,
        within_impl: bool,
    ) -> Option<Visibility>
        ensures value { result ≡ resolved_visibility (maps_of self.now) (local_of (option_copied local.entry)) at within_impl raw.now }
    {
        match raw {
            RawVisibility::Module(path, explicitness) => {
                let mode = ResolveMode::Other;
                let shadow = BuiltinShadowMode::Module;
                let answer = self.resolve_path_fp_with_macro(local, mode, at, path, shadow, None);
                path_seen(
                    within_impl,
                    at.map,
                    *explicitness,
                    answer.segment_index,
                    answer.resolved_def,
                )
            }
            RawVisibility::PubSelf(explicitness) => Some(Visibility::Module(at, *explicitness)),
            RawVisibility::PubCrate => Some(Visibility::PubCrate(at.map.krate)),
            RawVisibility::Public => Some(Visibility::Public),
        }
    }

    /// What a visibility means that is written in a module; one whose path doesn't lead to a module counts as public.
    pub fn visibility_from_ast(
        &self,
        local: Option<&LocalDefMap>,
        at: ModuleId,
        raw: &RawVisibility,
    ) -> Visibility
        ensures value { result ≡ written_visibility (maps_of self.now) (local_of (option_copied local.entry)) at false raw.now }
    {
        match self.resolve_visibility(local, at, raw, false) {
            Some(vis) => vis,
            None => Visibility::Public,
        }
    }

    /// Who may see an item of a trait, whose own visibility is handed in, or of an impl.
    pub fn assoc_visibility(
        &self,
        local: Option<&LocalDefMap>,
        at: ModuleId,
        of_trait: Option<&RawVisibility>,
        raw: &RawVisibility,
    ) -> Visibility
        ensures value { result ≡ assoc_visibility_of (maps_of self.now) (local_of (option_copied local.entry)) at (option_copied of_trait.entry) raw.now }
    {
        if let Some(of_trait) = of_trait {
            return self.visibility_from_ast(local, at, of_trait);
        }
        match self.resolve_visibility(local, at, raw, true) {
            Some(vis) => vis,
            None => Visibility::Public,
        }
    }

    /// Who may see each field, in order.
    pub fn field_visibilities(
        &self,
        alloc: Global,
        local: Option<&LocalDefMap>,
        at: ModuleId,
        raws: &[RawVisibility],
    ) -> Result<Vec<Visibility>, AllocError>
        ensures value { IfOk result (λ fields. fields.items
            ≡ map (written_visibility (maps_of self.now) (local_of (option_copied local.entry)) at false) raws.now) }
    {
        let mut fields = Vec::new(alloc);
        for raw in raws {
            fields.push(self.visibility_from_ast(local, at, raw))?;
        }
        Ok(fields)
    }

    /// The lesser of two visibilities, if one has all that the other has.
    pub fn lesser(&self, one: Visibility, other: Visibility) -> Option<Visibility>
        ensures value { result ≡ lesser_of (above_in (maps_of self.now)) self.now.own.now.id one other }
        ensures meet { IfSome result (λ least. IsMeet (is_visible (above_in (maps_of self.now)) (holders_in (maps_of self.now))) least one other) }
    {
        one.min(self, other, self.own.id())
    }

    /// Whether a module may see what has this visibility.
    pub fn is_visible(&self, vis: Visibility, from: ModuleId) -> bool
        ensures value { result ≡ is_visible (above_in (maps_of self.now)) (holders_in (maps_of self.now)) vis from }
    {
        vis.is_visible_from(self, from)
    }
}
