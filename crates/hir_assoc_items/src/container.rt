//! A trait or an impl, and where the paths of its calls are looked up.
ghost use Rattle.std.specs.Prelude.{◌≡◌, IfOk};
ghost use Rattle.hir_assoc_items.specs.AssocItems.{crate_of, definition_of, limit_of, macro_called, module_of};
ghost use Rattle.hir_assoc_items.specs.Steps.{container_view};
ghost use Rattle.hir_assoc_items.specs.Written.{written_view};

use crate::written::{AssocKind, Written};
use hir_base::ids::{
    AssocItemId, ConstId, Crate, FunctionId, HasModule, ItemContainerId, ItemLoc, ModuleId,
    TypeAliasId,
};
use hir_base::macro_kind::MacroId;
use hir_base::mod_path::ModPath;
use hir_base::name::Name;
use hir_collector_rules::hir_nameres::def_maps::DefMaps;
use hir_collector_rules::hir_nameres::nameres::local_def_map::LocalDefMap;
use hir_collector_rules::hir_nameres::nameres::path_resolution::{
    BuiltinShadowMode, MacroSubNs, ResolveMode,
};
use std::alloc::AllocError;

/// A trait or an impl, the maps in which the paths of its calls are looked up, and the crates that these may begin with.
#[derive(Clone, Copy)]
pub struct Container<'a> {
    pub holder: ItemContainerId,
    pub maps: DefMaps<'a>,
    pub local: &'a LocalDefMap,
}

impl Container<'_> {
    /// The module in which it is.
    pub fn module(&self) -> ModuleId
        ensures value { result ≡ module_of (container_view self.now) }
    {
        self.holder.module()
    }

    /// That module's crate.
    pub fn krate(&self) -> Crate
        ensures value { result ≡ crate_of (container_view self.now) }
    {
        self.module().map.krate
    }

    /// How deep calls may be; where its map isn't there, no call is expanded.
    pub fn recursion_limit(&self) -> u32
        ensures value { result ≡ limit_of (container_view self.now) }
    {
        match self.maps.map(self.module().map) {
            Some(map) => map.recursion_limit(),
            None => 0,
        }
    }

    /// The macro that a path reaches as that of a call.
    pub fn called_macro(&self, path: &ModPath) -> Option<MacroId>
        ensures value { result ≡ macro_called (container_view self.now) path.now }
    {
        let answer = self.maps.resolve_path_fp_with_macro(
            Some(self.local),
            ResolveMode::Other,
            self.module(),
            path,
            BuiltinShadowMode::Module,
            Some(MacroSubNs::Bang),
        );
        match answer.resolved_def.macros {
            Some(item) => Some(item.def),
            None => None,
        }
    }

    /// The name and the definition of a function, a type alias or a constant with a name.
    pub fn definition(&self, item: &Written) -> Result<Option<(Name, AssocItemId)>, AllocError>
        ensures value { IfOk result (λ found. found ≡ definition_of (container_view self.now) (written_view item.now)) }
    {
        let loc = ItemLoc {
            container: self.holder,
            file_id: item.tree.file,
            block: item.tree.block,
            id: item.id,
        };
        match &item.kind {
            AssocKind::Function(name) => {
                let id = AssocItemId::FunctionId(FunctionId { loc });
                Ok(Some((name.clone()?, id)))
            }
            AssocKind::Const(Some(name)) => {
                let id = AssocItemId::ConstId(ConstId { loc });
                Ok(Some((name.clone()?, id)))
            }
            AssocKind::TypeAlias(name) => {
                let id = AssocItemId::TypeAliasId(TypeAliasId { loc });
                Ok(Some((name.clone()?, id)))
            }
            AssocKind::Const(None) | AssocKind::MacroCall(_) => Ok(None),
        }
    }
}
