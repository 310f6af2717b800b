//! What a def map says of itself, of its crate and of its modules.
ghost use Rattle.std.specs.Prelude.{◌≡◌, ◌||◌, ◌&&◌, ◌<◌, Option, option_map, length, nat_lt, slice_get};
ghost use Rattle.hir_def_map_rules.specs.State.{at_name, crate_root, module_at, parent_at, root_of};
ghost use Rattle.hir_def_map_rules.specs.Reads.{containing_module, contains_module, feature_in, is_without_std};

use crate::nameres::DefMap;
use hir_base::ast_id::BlockId;
use hir_base::ids::{Crate, MapId, ModuleId};
use hir_base::name::Name;
use hir_def_map_rules::module_data::ModuleData;
use std::collections::BTreeSet;
use std::ops::{Index, IndexMut};

/// The root of a crate.
pub fn crate_root(krate: Crate) -> ModuleId
    ensures value { result ≡ crate_root krate }
{
    ModuleId {
        map: MapId { krate, block: None },
        index: 0,
    }
}

impl DefMap {
    /// The crate of the map, also of a block's.
    pub fn krate(&self) -> Crate
        ensures value { result ≡ self.now.id.krate }
    {
        self.id().krate
    }

    /// The block of the map, where it is one's.
    pub fn block_id(&self) -> Option<BlockId>
        ensures value { result ≡ self.now.id.block }
    {
        self.id().block
    }

    /// The root of the crate, also asked of a block's map.
    pub fn crate_root(&self) -> ModuleId
        ensures value { result ≡ crate_root self.now.id.krate }
    {
        crate_root(self.krate())
    }

    /// Whether a module is one of the map's.
    pub fn contains(&self, module: ModuleId) -> bool
        ensures value { result ≡ contains_module self.now «module» }
    {
        module.map == self.id() && module.index < self.module_count()
    }

    /// The module that all others of the map are below.
    pub fn root_module_id(&self) -> ModuleId
        ensures value { result ≡ root_of self.now.id }
    {
        self.root()
    }

    /// What a module is in: its parent, or for a root the module that holds the block. A module of another map is in nothing.
    pub fn containing_module(&self, module: ModuleId) -> Option<ModuleId>
        ensures value { result ≡ containing_module self.now «module» }
    {
        if !self.contains(module) {
            return None;
        }
        match self.parent_of(module.index) {
            Some(parent) => Some(parent),
            None => self.parent(),
        }
    }

    /// How deep calls of macros may be nested.
    pub fn recursion_limit(&self) -> u32
        ensures value { result ≡ self.now.crate_data.recursion_limit }
    {
        self.crate_data().recursion_limit()
    }

    /// Whether the crate has `std` left out, itself or with `core`.
    pub fn is_no_std(&self) -> bool
        ensures value { result ≡ is_without_std self.now.crate_data }
    {
        self.crate_data().no_std() || self.crate_data().no_core()
    }

    /// Whether the crate has `core` left out.
    pub fn is_no_core(&self) -> bool
        ensures value { result ≡ self.now.crate_data.no_core }
    {
        self.crate_data().no_core()
    }

    /// Whether the crate may write impls that only `core` may.
    pub fn is_rustc_coherence_is_core(&self) -> bool
        ensures value { result ≡ self.now.crate_data.rustc_coherence_is_core }
    {
        self.crate_data().rustc_coherence_is_core()
    }

    /// The tools whose attributes are inert, in the order in which they were registered.
    pub fn registered_tools(&self) -> &[Name]
        ensures value { result.now ≡ self.now.crate_data.registered_tools }
    {
        self.crate_data().registered_tools()
    }

    /// The unstable features that the crate lists.
    pub fn features(&self) -> &BTreeSet<Name>
        ensures value { result.now.keys ≡ self.now.crate_data.features }
    {
        self.crate_data().features()
    }

    /// Whether the crate lists an unstable feature.
    pub fn has_feature(&self, name: &Name) -> bool
        ensures value { result ≡ feature_in self.now.crate_data name.now }
    {
        self.crate_data().has_feature(name)
    }
}

/// A module by its id, on the condition that the map has it.
impl Index<ModuleId> for DefMap {
    ghost use Rattle.std.specs.Prelude.{◌≡◌, true, Some};
    ghost use Rattle.hir_def_map_rules.specs.Reads.{contains_module};
    ghost use Rattle.hir_def_map_rules.specs.State.{module_at};

    type Output = ModuleData;

    ghost can_index = { λ map id. contains_module map id ≡ true };

    ghost index_gives = { λ map id found. module_at map id.index ≡ Some found };

    fn index(&self, id: ModuleId) -> &ModuleData {
        &self.modules[id]
    }
}

/// The same, to be changed. What it becomes is a module of the same id.
impl IndexMut<ModuleId> for DefMap {
    ghost use Rattle.std.specs.Prelude.{◌≡◌, true, Some};
    ghost use Rattle.std.specs.Borrow.{sem};
    ghost use Rattle.hir_nameres.specs.Lending.{LendsModule};

    fn index_mut(&mut self, id: ModuleId) -> &mut ModuleData
        requires { contains_module self.old id ≡ true }
        ensures* lends { sem 𝓛 (LendsModule self.entry id result) }
        ensures value { module_at self.old id.index ≡ Some result.now }
    {
        &mut self.modules[id]
    }
}
