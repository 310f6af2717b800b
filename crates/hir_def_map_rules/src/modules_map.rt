//! The modules of a map by their ids.
ghost use Rattle.std.specs.Prelude.{◌≡◌, ◌<◌, ◌++◌, [], ◌∷◌, length, slice_get, true, Some, IfOk, OnOk, OnErr};
ghost use Rattle.std.specs.Borrow.{sem};
ghost use Rattle.hir_def_map_rules.specs.Declaration.{listed};
ghost use Rattle.hir_def_map_rules.specs.Inner.ModulesMap.{has_id, LendsEach, LendsOne};
ghost use Rattle.hir_def_map_rules.specs.State.{changed_at, changes_module, globs_in, pushed_module, with_child, with_module_scope};

use crate::declaration::{Declaration, list_in};
use crate::module_data::{ModuleData, insert_module, push_in};
use hir_base::ids::{MapId, ModuleId};
use hir_base::name::Name;
use hir_scope::glob_imports::PerNsGlobImports;
use hir_scope::imports::ImportOrExternCrate;
use hir_scope::per_ns::PerNs;
use std::alloc::{AllocError, Global};
use std::marker::Model;
use std::ops::{DerefSlice, DerefSliceMut, Index, IndexMut};

/// The modules of a map by their ids, and as a slice by their numbers, after rust-analyzer's `ModulesMap`.
#[derive(Drop)]
pub struct ModulesMap {
    map: MapId,
    modules: Vec<ModuleData>,
}

impl Model for ModulesMap {
    ghost use Rattle.hir_def_map_rules.specs.State.{Modules};

    ghost Value = { Modules };

    ghost view = { λ m. record { map = m.map; modules = m.modules.items } };
}

impl ModulesMap {
    /// The root alone.
    pub fn new(alloc: Global, map: MapId, root: ModuleData) -> Result<ModulesMap, AllocError>
        ensures value { IfOk result (λ made. made ≡ record { map = map; modules = root ∷ [] }) }
    {
        let mut modules = Vec::new(alloc);
        modules.push(root)?;
        Ok(ModulesMap { map, modules })
    }

    /// The id of the map.
    pub fn map_id(&self) -> MapId
        ensures value { result ≡ self.now.map }
    {
        self.map
    }

    /// The modules by number.
    pub fn as_slice(&self) -> &[ModuleData]
        ensures value { result.now ≡ self.now.modules }
    {
        self.modules.as_slice()
    }

    /// How many there are; their numbers are those below it.
    pub fn len(&self) -> usize
        ensures value { result ≡ length self.now.modules }
    {
        self.modules.len()
    }

    /// Whether a module is one of these.
    pub fn contains(&self, module: ModuleId) -> bool
        ensures value { result ≡ has_id self.now «module» }
    {
        module.map == self.map && (module.index as usize) < self.modules.len()
    }

    pub fn allocator(&self) -> Global {
        *self.modules.allocator()
    }

    /// Puts a module behind the others, and gives one of those its name as a child's.
    pub fn insert(
        &mut self,
        parent: usize,
        name: Name,
        id: ModuleId,
        module: ModuleData,
    ) -> Result<(), AllocError>
        requires in_range { parent < length self.old.modules }
        ensures ok { OnOk result (self.new.modules ≡ changed_at self.old.modules parent (with_child name id) ++ «module» ∷ []) }
        ensures err { OnErr result (self.new.modules ≡ self.old.modules) }
        ensures kept { self.new.map ≡ self.old.map }
    {
        insert_module(&mut self.modules, parent, name, id, module)
    }

    /// Binds items to a place in one of the modules, where it is there.
    pub fn push(
        &mut self,
        glob_imports: &mut PerNsGlobImports,
        at: usize,
        place: (ModuleId, Name),
        items: PerNs,
        import: Option<ImportOrExternCrate>,
    ) -> Result<bool, AllocError>
        ensures ok { OnOk result (self.new.modules
            ≡ changed_at self.old.modules at (pushed_module glob_imports.old place items import)) }
        ensures globs { OnOk result (glob_imports.new
            ≡ globs_in (slice_get self.old.modules at) glob_imports.old place items import) }
        ensures changed { IfOk result (λ changed. changed
            ≡ changes_module (slice_get self.old.modules at) glob_imports.old place items import) }
        ensures err { OnErr result (self.new.modules ≡ self.old.modules) }
        ensures err_globs { OnErr result (glob_imports.new ≡ glob_imports.old) }
        ensures kept { self.new.map ≡ self.old.map }
    {
        push_in(&mut self.modules, glob_imports, at, place, items, import)
    }

    /// Lists a declaration in one of the modules, where it is there.
    pub fn list(&mut self, at: usize, declaration: Declaration) -> Result<(), AllocError>
        ensures ok { OnOk result (self.new.modules
            ≡ changed_at self.old.modules at (with_module_scope (listed declaration))) }
        ensures err { OnErr result (self.new.modules ≡ self.old.modules) }
        ensures kept { self.new.map ≡ self.old.map }
    {
        list_in(&mut self.modules, at, declaration)
    }
}

impl DerefSlice for ModulesMap {
    type Elem = ModuleData;

    ghost deref_gives = { λ m ms. ms ≡ m.modules };

    fn deref(&self) -> &[ModuleData] {
        self.modules.as_slice()
    }
}

impl DerefSliceMut for ModulesMap {
    fn deref_mut(&mut self) -> &mut [ModuleData]
        ensures* lends { sem 𝓛 (LendsEach self.entry result) }
        ensures value { result.now ≡ self.old.modules }
    {
        self.modules.as_mut_slice()
    }
}

/// A module by its id, on the condition that it's there.
impl Index<ModuleId> for ModulesMap {
    ghost use Rattle.std.specs.Prelude.{◌≡◌, true, Some, slice_get};
    ghost use Rattle.hir_def_map_rules.specs.Inner.ModulesMap.{has_id};

    type Output = ModuleData;

    ghost can_index = { λ m id. has_id m id ≡ true };

    ghost index_gives = { λ m id found. slice_get m.modules id.index ≡ Some found };

    fn index(&self, id: ModuleId) -> &ModuleData {
        &self.modules[id.index as usize]
    }
}

/// The same, to be changed.
impl IndexMut<ModuleId> for ModulesMap {
    fn index_mut(&mut self, id: ModuleId) -> &mut ModuleData
        requires { has_id self.old id ≡ true }
        ensures* lends { sem 𝓛 (LendsOne self.entry id result) }
        ensures value { slice_get self.old.modules id.index ≡ Some result.now }
    {
        &mut self.modules[id.index as usize]
    }
}

impl PartialEq for ModulesMap {
    ghost use Rattle.std.specs.Cmp.{partial_equiv_from_equiv};
    ghost use Rattle.hir_def_map_rules.specs.Equality.{same_modules, same_modules_equiv};

    ghost eq = { same_modules };

    ghost laws = { partial_equiv_from_equiv same_modules_equiv };

    fn eq(&self, other: &ModulesMap) -> bool {
        self.map == other.map && self.modules == other.modules
    }
}

impl Eq for ModulesMap {
    ghost use Rattle.hir_def_map_rules.specs.Equality.{same_modules_equiv};

    ghost laws = { same_modules_equiv };
}
