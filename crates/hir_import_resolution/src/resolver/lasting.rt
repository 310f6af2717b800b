//! Whether what was found out lasts as the map grows.
ghost use Rattle.std.specs.Prelude.{◌≡◌, true, false, Some};
ghost use Rattle.hir_nameres.specs.HirIds.declared.ids.TraitId.{TraitId};
ghost use Rattle.hir_nameres.specs.HirPerNs.declared.visibility.Visibility.{Visibility};
ghost use Rattle.hir_def_map_rules.specs.State.{module_at};
ghost use Rattle.hir_def_map_laws.specs.ReadLaw.{stops_bare};
ghost use Rattle.hir_import_resolution.specs.Inner.State.{with_lasting};
ghost use Rattle.hir_import_rules.specs.Lasting.{HasVariants, IsPlaced};
ghost use Rattle.hir_import_rules.specs.Names.{trait_vis};

use crate::lasting::{has_variants, is_placed, is_trait_placed, stops_bare};
use crate::resolver::Resolver;
use hir_base::ids::TraitId;
use hir_glob_imports::Edge;
use hir_nameres::nameres::path_resolution::ResolvePathResult;

impl Resolver<'_> {
    /// Notes whether a path stops at an enum that has no variants yet.
    pub(crate) fn note_stop(&mut self, path: ResolvePathResult)
        ensures rest { self.new ≡ with_lasting self.old self.new.lasting }
        ensures lasted { self.new.lasting ≡ true → self.old.lasting ≡ true }
        ensures unstopped { self.new.lasting ≡ true → stops_bare self.old.scopes.map path ≡ false }
    {
        self.lasting = self.lasting && !stops_bare(self.scopes.map(), path);
    }

    /// Notes whether an edge leads out of an enum that has no variants yet, or its visibility names a module that isn't there.
    pub(crate) fn note_edge(&mut self, edge: Edge)
        ensures rest { self.new ≡ with_lasting self.old self.new.lasting }
        ensures lasted { self.new.lasting ≡ true → self.old.lasting ≡ true }
        ensures placed { self.new.lasting ≡ true → IsPlaced self.old.scopes.map edge.vis }
        ensures enums { self.new.lasting ≡ true → HasVariants self.old.scopes.map edge.source }
    {
        let map = self.scopes.map();
        self.lasting = self.lasting && is_placed(map, edge.vis) && has_variants(map, edge.source);
    }

    /// Notes whether the visibility of a trait that a module keeps without a name names a module that isn't there.
    pub(crate) fn note_trait(&mut self, home: u32, kept: Option<TraitId>)
        ensures rest { self.new ≡ with_lasting self.old self.new.lasting }
        ensures lasted { self.new.lasting ≡ true → self.old.lasting ≡ true }
        ensures placed { self.new.lasting ≡ true → (id : TraitId) (vis : Visibility) → kept ≡ Some id → trait_vis (module_at self.old.scopes.map home) id ≡ Some vis → IsPlaced self.old.scopes.map vis }
    {
        if let Some(id) = kept {
            self.lasting = self.lasting && is_trait_placed(self.scopes.map(), home, id);
        }
    }
}
