//! The def map of a crate, after rust-analyzer's `nameres.rs`.
ghost use Rattle.std.specs.Prelude.{◌≡◌, ◌<◌, length, IfOk, OnOk, OnErr, Some, is_some, option_map};
ghost use Rattle.std.specs.Borrow.{sem};
ghost use Rattle.hir_def_map_rules.specs.HirIds.Refusal.{Gives};
ghost use Rattle.hir_def_map_rules.specs.State.{at_name, child_at, entry_at, parent_at, module_at, empty_map, scope_at, root_of, variants_at, with_enum, with_macro_use, with_module, with_prelude, globs_after, pushed, push_changes, IsNumbered};
ghost use Rattle.hir_def_map_rules.specs.Scoping.FirstSegment.{legacy_of};
ghost use Rattle.hir_def_map_rules.specs.Building.{new_module_verdict, IsMemory};
ghost use Rattle.hir_nameres.specs.Lending.{LendsCrateData, LendsModules, LendsScopeAt};

mod declare;
mod dump;
mod macros;
pub mod module_ids;
pub mod path_resolution;
mod reads;
mod same;
mod tree;

use hir_base::ast_id::AstId;
use hir_base::edition::Edition;
use hir_base::ids::{Crate, EnumId, ExternCrateId, FunctionId, MapId, ModuleId, UseId};
use hir_base::macro_kind::{MacroId, ProcMacroId};
use hir_base::name::Name;
pub use hir_def_map_rules::add_module_error::AddModuleError;
pub use hir_def_map_rules::block_info::BlockInfo;
use hir_def_map_rules::crate_data::DefMapCrateData;
use hir_def_map_rules::derive_helpers::DeriveHelpers;
use hir_def_map_rules::diagnostics::DefDiagnostics;
use hir_def_map_rules::enum_variants::EnumVariants;
use hir_def_map_rules::hir_scope::glob_imports::PerNsGlobImports;
use hir_def_map_rules::hir_scope::imports::ImportOrExternCrate;
use hir_def_map_rules::hir_scope::item_scope::ItemScope;
use hir_def_map_rules::hir_scope::per_ns::PerNs;
use hir_def_map_rules::hir_scope::visibility::Visibility;
use hir_def_map_rules::macro_data::MacroData;
use hir_def_map_rules::module_data::ModuleData;
use hir_def_map_rules::modules_map::ModulesMap;
use hir_def_map_rules::origin::ModuleOrigin;
pub use hir_def_map_rules::{
    crate_data, declaration, derive_helpers, diagnostics, enum_variants, local_def_map, macro_data,
    module_data, modules_map, origin,
};
use std::alloc::{AllocError, Global};
use std::collections::BTreeMap;
use std::marker::Model;

/// The most modules that a map may have.
pub const MAX_MODULES: usize = 0x7fff_ffff;

/// The modules of a crate or of a block by number, the root first, with what their names stand for.
pub struct DefMap {
    holder: Option<ModuleId>,
    modules: ModulesMap,
    enums: BTreeMap<EnumId, EnumVariants>,
    macro_use_prelude: BTreeMap<Name, (MacroId, Option<ExternCrateId>)>,
    prelude: Option<(ModuleId, Option<UseId>)>,
    macro_ids: BTreeMap<AstId, MacroId>,
    proc_macros: BTreeMap<FunctionId, ProcMacroId>,
    macro_data: BTreeMap<MacroId, MacroData>,
    derive_helpers: BTreeMap<AstId, DeriveHelpers>,
    diagnostics: DefDiagnostics,
    crate_data: DefMapCrateData,
}

impl Drop for DefMap {
    fn drop(self) {
        let DefMap {
            holder: _,
            modules: _,
            enums: _,
            macro_use_prelude: _,
            prelude: _,
            macro_ids: _,
            proc_macros: _,
            macro_data: _,
            derive_helpers: _,
            diagnostics: _,
            crate_data: _,
        } = self;
    }
}

impl Model for DefMap {
    ghost use Rattle.hir_def_map_rules.specs.Inner.Codes.{coded_map};
    ghost use Rattle.hir_def_map_rules.specs.State.{Map, IsNumbered};

    ghost Value = { Map };

    ghost coded = { coded_map };

    ghost view = { λ d. record {
      id = d.modules.map;
      holder = d.holder;
      modules = d.modules.modules;
      enums = d.enums.entries;
      macro_use_prelude = d.macro_use_prelude.entries;
      prelude = d.prelude;
      macro_ids = d.macro_ids.entries;
      proc_macros = d.proc_macros.entries;
      macro_data = d.macro_data.entries;
      derive_helpers = d.derive_helpers.entries;
      diagnostics = d.diagnostics;
      crate_data = d.crate_data;
    } };

    ghost invariant = { λ d. IsNumbered d.modules.modules };
}

impl DefMap {
    /// A map with its root alone.
    pub fn empty(
        alloc: Global,
        krate: Crate,
        crate_data: DefMapCrateData,
        root_data: ModuleData,
        block: Option<BlockInfo>,
    ) -> Result<DefMap, AllocError>
        ensures value { IfOk result (λ map. map ≡ empty_map krate crate_data root_data block) }
    {
        let id = MapId {
            krate,
            block: block.map(|info| info.block),
        };
        let modules = ModulesMap::new(alloc, id, root_data)?;
        Ok(DefMap {
            holder: block.map(|info| info.parent),
            modules,
            enums: BTreeMap::new(alloc),
            macro_use_prelude: BTreeMap::new(alloc),
            prelude: None,
            macro_ids: BTreeMap::new(alloc),
            proc_macros: BTreeMap::new(alloc),
            macro_data: BTreeMap::new(alloc),
            derive_helpers: BTreeMap::new(alloc),
            diagnostics: DefDiagnostics::new(Vec::new(alloc)),
            crate_data,
        })
    }

    pub fn id(&self) -> MapId
        ensures value { result ≡ self.now.id }
    {
        self.modules.map_id()
    }

    pub fn edition(&self) -> Edition
        ensures value { result ≡ self.now.crate_data.edition }
    {
        self.crate_data.edition()
    }

    /// The module that holds the block, in a block's map.
    pub fn parent(&self) -> Option<ModuleId>
        ensures value { result ≡ self.now.holder }
    {
        self.holder
    }

    /// The module that all others of the map are below.
    pub fn root(&self) -> ModuleId
        ensures value { result ≡ root_of self.now.id }
    {
        ModuleId {
            map: self.id(),
            index: 0,
        }
    }

    /// How many modules the map has; their numbers are those below it.
    pub fn module_count(&self) -> u32
        ensures value { result ≡ length self.now.modules }
        ensures numbered { IsNumbered self.now.modules }
    {
        self.modules.len() as u32
    }

    /// The modules by their ids, and by number as a slice.
    pub fn modules(&self) -> &ModulesMap
        ensures value { result.now ≡ record { map = self.now.id; modules = self.now.modules } }
    {
        &self.modules
    }

    /// The modules by number, to be changed; there are as many as before.
    pub fn modules_mut(&mut self) -> &mut [ModuleData]
        ensures value { result.now ≡ self.old.modules }
        ensures* lends { sem 𝓛 (LendsModules self.entry result) }
    {
        &mut self.modules
    }

    /// What the names of a module stand for, to be changed: each write of `ItemScope` can be made on it. The names that
    /// globs brought are kept by the caller.
    #[tactic(auto, using(hir_def_map_rules::specs::Inner::OverlayLaws::same_id))]
    pub fn scope_mut(&mut self, at: u32) -> &mut ItemScope
        requires in_range { at < length self.old.modules }
        ensures value { Some result.now ≡ scope_at self.old at }
        ensures* lends { sem 𝓛 (LendsScopeAt self.entry at result) }
    {
        let map = self.id();
        let id = ModuleId { map, index: at };
        self.modules[id].scope_mut()
    }

    /// Whether the map has a module of this number.
    pub fn has_module(&self, at: u32) -> bool
        ensures value { result ≡ is_some (module_at self.now at) }
    {
        self.modules.as_slice().get(at as usize).is_some()
    }

    /// Where a module is written.
    pub fn origin(&self, at: u32) -> Option<ModuleOrigin>
        ensures value { result ≡ option_map (λ m. m.origin) (module_at self.now at) }
    {
        match self.modules.as_slice().get(at as usize) {
            Some(module) => Some(module.origin()),
            None => None,
        }
    }

    /// Who may see a module.
    pub fn visibility(&self, at: u32) -> Option<Visibility>
        ensures value { result ≡ option_map (λ m. m.visibility) (module_at self.now at) }
    {
        match self.modules.as_slice().get(at as usize) {
            Some(module) => Some(module.visibility()),
            None => None,
        }
    }

    /// What a module is in.
    pub fn parent_of(&self, at: u32) -> Option<ModuleId>
        ensures value { result ≡ parent_at self.now at }
    {
        match self.modules.as_slice().get(at as usize) {
            Some(module) => module.parent(),
            None => None,
        }
    }

    /// The first module of this name in a module.
    pub fn child(&self, at: u32, name: &Name) -> Option<ModuleId>
        ensures value { result ≡ child_at self.now at name.now }
    {
        match self.modules.as_slice().get(at as usize) {
            Some(module) => module.child(name),
            None => None,
        }
    }

    /// What the names of a module stand for, and what it declares.
    pub fn scope(&self, at: u32) -> Option<&ItemScope>
        ensures value { option_map (λ s. s.now) result ≡ scope_at self.now at }
    {
        match self.modules.as_slice().get(at as usize) {
            Some(module) => Some(module.scope()),
            None => None,
        }
    }

    /// What a name stands for in a module.
    pub fn entry(&self, at: u32, name: &Name) -> PerNs
        ensures value { result ≡ entry_at self.now at name.now }
    {
        match self.modules.as_slice().get(at as usize) {
            Some(module) => module.entry(name),
            None => PerNs::none(),
        }
    }

    /// The last of the macros of a name that are in textual scope in a module.
    pub fn legacy_macro(&self, at: u32, name: &Name) -> Option<MacroId>
        ensures value { result ≡ legacy_of (module_at self.now at) name.now }
    {
        match self.modules.as_slice().get(at as usize) {
            Some(module) => module.legacy_macro(name),
            None => None,
        }
    }

    /// Adds a module with the next number. The module `parent` gets the child name, unless it has one such already.
    pub fn add_module(
        &mut self,
        parent: u32,
        name: Name,
        module_data: ModuleData,
    ) -> Result<ModuleId, AddModuleError>
        requires in_range { parent < length self.old.modules }
        ensures answer { Gives IsMemory result (new_module_verdict self.old) }
        ensures ok { OnOk result (self.new ≡ with_module self.old parent name module_data) }
        ensures err { OnErr result (self.new ≡ self.old) }
    {
        let count = self.modules.len();
        if count >= MAX_MODULES {
            return Err(AddModuleError::TooMany);
        }
        let id = ModuleId {
            map: self.id(),
            index: count as u32,
        };
        if self
            .modules
            .insert(parent as usize, name, id, module_data)
            .is_err()
        {
            return Err(AddModuleError::Memory);
        }
        Ok(id)
    }

    /// The crate-level attributes.
    pub fn crate_data(&self) -> &DefMapCrateData
        ensures value { result.now ≡ self.now.crate_data }
    {
        &self.crate_data
    }

    /// The crate-level attributes, to be changed.
    pub fn crate_data_mut(&mut self) -> &mut DefMapCrateData
        ensures value { result.now ≡ self.old.crate_data }
        ensures* lends { sem 𝓛 (LendsCrateData self.entry result) }
    {
        &mut self.crate_data
    }

    /// The variants of an enum that the map declares.
    pub fn enum_variants(&self, id: EnumId) -> Option<&EnumVariants>
        ensures value { option_map (λ v. v.now) result ≡ variants_at self.now id }
    {
        self.enums.get(&id)
    }

    /// Keeps the variants of an enum that the map declares.
    pub fn add_enum(&mut self, id: EnumId, variants: EnumVariants) -> Result<(), AllocError>
        ensures ok { OnOk result (self.new ≡ with_enum self.old id variants) }
        ensures err { OnErr result (self.new ≡ self.old) }
    {
        self.enums.insert(id, variants)?;
        Ok(())
    }

    /// The macro of a name in the `macro_use` prelude, and the `extern crate` that brought it, if one did.
    pub fn macro_use(&self, name: &Name) -> Option<(MacroId, Option<ExternCrateId>)>
        ensures value { result ≡ at_name self.now.macro_use_prelude name.now }
    {
        self.macro_use_prelude.get(name).copied()
    }

    /// The macros of the `macro_use` prelude by name, each with the `extern crate` that brought it, if one did.
    pub fn macro_use_prelude(&self) -> &BTreeMap<Name, (MacroId, Option<ExternCrateId>)>
        ensures value { result.now.entries ≡ self.now.macro_use_prelude }
    {
        &self.macro_use_prelude
    }

    /// Gives the `macro_use` prelude a macro, in place of another of its name.
    pub fn add_macro_use(
        &mut self,
        name: Name,
        makro: MacroId,
        extern_crate: Option<ExternCrateId>,
    ) -> Result<(), AllocError>
        ensures ok { OnOk result (self.new ≡ with_macro_use self.old name makro extern_crate) }
        ensures err { OnErr result (self.new ≡ self.old) }
    {
        self.macro_use_prelude.insert(name, (makro, extern_crate))?;
        Ok(())
    }

    /// The module whose names each module but a block's root finds, and the `use` that names it, if one does.
    pub fn prelude(&self) -> Option<(ModuleId, Option<UseId>)>
        ensures value { result ≡ self.now.prelude }
    {
        self.prelude
    }

    pub fn set_prelude(&mut self, prelude: Option<(ModuleId, Option<UseId>)>)
        ensures value { self.new ≡ with_prelude self.old prelude }
    {
        self.prelude = prelude;
    }

    /// Binds items under a name in a module by an import, and says whether that changed anything.
    ///
    /// The names that globs brought are kept by the caller. Nothing happens where the module isn't
    /// there. After rust-analyzer's `DefCollector::update`.
    pub fn push(
        &mut self,
        glob_imports: &mut PerNsGlobImports,
        at: u32,
        name: Name,
        items: PerNs,
        import: Option<ImportOrExternCrate>,
    ) -> Result<bool, AllocError>
        ensures ok { OnOk result (self.new ≡ pushed self.old glob_imports.old at name items import) }
        ensures globs { OnOk result
            (glob_imports.new ≡ globs_after self.old glob_imports.old at name items import) }
        ensures changed { IfOk result (λ changed. changed
            ≡ push_changes self.old glob_imports.old at name items import) }
        ensures err { OnErr result (self.new ≡ self.old) }
        ensures err_globs { OnErr result (glob_imports.new ≡ glob_imports.old) }
    {
        let module = ModuleId {
            map: self.id(),
            index: at,
        };
        self.modules
            .push(glob_imports, at as usize, (module, name), items, import)
    }
}
