//! Where a run stands, and what each change leaves.
#![tactic(auto, unfolding(hir_collector_rules::specs::State::core_in))]

ghost use Rattle.std.specs.Prelude.{◌≡◌, ◌<◌, ◌≤◌, true, false, ◌∷◌, ◌++◌, [], Some, length, option_map, slice_get, slice_set, IfNone, IfOk, IfSome, None, OnOk};
ghost use Rattle.hir_collector_rules.specs.HirDefMapRules.State.{with_enum, new_id, new_module, with_declared, with_use, with_impl, with_extern_block, with_extern_crate, with_unnamed_const};
ghost use Rattle.hir_collector_rules.specs.HirNameres.WorldParts.{part_of};
ghost use Rattle.hir_collector_rules.specs.HirDefMapRules.Macros.{with_diagnostic, with_macro_def};
ghost use Rattle.hir_collector_rules.specs.HirImportRules.Visibilities.{visibility_in};
ghost use Rattle.hir_collector_rules.specs.HirImportRules.Changed.{nothing};
ghost use Rattle.hir_collector_rules.specs.State.{at_rest, core_in, counted, eager_among, eager_at, with_asked, with_bound, with_calls, with_eager, with_fate, with_imports, with_local, with_map};
ghost use Rattle.hir_collector_rules.specs.ItemIds.{container_of, module_id};
ghost use Rattle.hir_collector_rules.specs.Items.{own_visibility};
ghost use Rattle.hir_collector_rules.specs.Calls.{IsWaiting};
ghost use Rattle.hir_collector_rules.specs.CallMoves.{Rested, RestsTooFar};
ghost use Rattle.hir_collector_rules.specs.TreeReads.{head_of};
ghost use Rattle.hir_collector_rules.specs.Imports.{crate_named, dependency_named, extern_after};
ghost use Rattle.hir_collector_rules.specs.Macros.{macros_brought, other_scope, textual_at, with_macros_used, with_textual_macro, with_textual_scope};
ghost use Rattle.hir_collector_rules.specs.Start.{core_by};
ghost use Rattle.hir_collector_rules.specs.ModuleFiles.{file_key};
ghost use Rattle.hir_collector_rules.specs.Reports.{call_report, unresolved_calls};
ghost use Rattle.hir_collector_rules.specs.Derivation.{collected_view, told_run};
ghost use Rattle.hir_collector_rules.specs.Moves.{begun};
ghost use Rattle.hir_collector_state.specs.Waiting.{IsNoted};

use crate::def_collector::changes::{has_same_textual, most_compared, note_variants, note_wanted};
use hir_base::ast_id::{AstId, EditionedFileId, FileId, HirFileId};
use hir_base::cfg_options::CfgOptions;
use hir_base::ids::{
    ConstId, Crate, EnumId, ExternBlockId, ExternCrateId, ImplId, ItemContainerId, MapId,
    ModuleDefId, ModuleId, UseId,
};
use hir_base::macro_kind::MacroId;
use hir_base::name::Name;
use hir_collector_rules::collected::{Asked, Collected};
use hir_collector_rules::crate_attrs::says;
use hir_collector_rules::exported::ExportedFunction;
use hir_collector_rules::hir_crate_graph::crate_set::CrateSet;
use hir_collector_rules::hir_glob_imports::GlobImports;
use hir_collector_rules::hir_import_rules::{ImportDirective, ImportSource, Taken};
use hir_collector_rules::hir_nameres::nameres::DefMap;
use hir_collector_rules::hir_nameres::nameres::crate_data::DefMapCrateData;
use hir_collector_rules::hir_nameres::nameres::diagnostics::DefDiagnostic;
use hir_collector_rules::hir_nameres::nameres::enum_variants::EnumVariants;
use hir_collector_rules::hir_nameres::nameres::local_def_map::LocalDefMap;
use hir_collector_rules::hir_nameres::nameres::module_data::ModuleData;
use hir_collector_rules::hir_nameres::nameres::origin::ModuleOrigin;
use hir_collector_rules::hir_nameres::world::part::WorldPart;
use hir_collector_rules::hir_scope::glob_imports::PerNsGlobImports;
use hir_collector_rules::hir_scope::item_scope::ItemScope;
use hir_collector_rules::hir_scope::per_ns::PerNs;
use hir_collector_rules::hir_scope::visibility::Visibility;
use hir_collector_rules::macro_directive::{EagerMacro, EagerMacros, Fate, MacroDirective};
use hir_collector_rules::site::{ItemHead, Site};
use hir_collector_rules::source_database::{Dependency, Key};
use hir_collector_rules::start::{STEP_LIMIT, Start, StepError};
use hir_collector_start::censor::censor_root;
use hir_collector_start::diagnostics::{
    call_report, report_all, report_unresolved, unresolved_calls, unresolved_crates,
};
use hir_collector_start::first_keys::first_keys;
use hir_collector_start::leftovers::untaken;
use hir_collector_start::macro_use::{root_scope, use_prelude_macros, use_wanted};
use hir_collector_start::preludes::own_prelude;
use hir_collector_start::textual;
use hir_import_growth::visibilities::visibility;
use hir_import_growth::{Changed, forget};
use hir_item_tree::raw_visibility::RawVisibility;
use hir_item_tree::shape::ExternCrateName;
use hir_item_tree::tree_id::{TreeId, TreeKey};
use std::alloc::{AllocError, Global};
use std::marker::Model;
use std::rc::Rc;

mod changes;
mod invocations;
mod waiting;

/// Where a run stands, what it has still to visit aside. Its parts are changed here, and by `hir_collector_imports` alone.
#[derive(Drop)]
pub struct DefCollector {
    pub map: DefMap,
    pub local: LocalDefMap,
    pub dependencies: Vec<Dependency>,
    pub options: CfgOptions,
    pub from_glob_import: PerNsGlobImports,
    pub globs: GlobImports,
    pub reached: Vec<ImportDirective>,
    pub taken: Vec<Taken>,
    pub calls: Vec<MacroDirective>,
    pub fates: Vec<Fate>,
    pub eager: Vec<EagerMacros>,
    pub settled: usize,
    pub is_proc_macro: bool,
    pub exported: Vec<ExportedFunction>,
    pub asked: Vec<Key>,
    pub count: u32,
    /// The slots of paths that may have changed since calls were tried.
    pub changed: Changed,
}

impl Model for DefCollector {
    ghost use Rattle.std.specs.Prelude.{◌≤◌};
    ghost use Rattle.hir_collector_rules.specs.Codes.{coded_run};
    ghost use Rattle.hir_collector_rules.specs.State.{Run};
    ghost use Rattle.hir_collector_rules.specs.declared.start.TheConstants.{STEP_LIMIT};

    ghost Value = { Run };

    ghost coded = { coded_run };

    ghost view = { λ r. record {
      map = r.map;
      local = r.local;
      dependencies = r.dependencies.items;
      options = r.options;
      names = r.from_glob_import;
      globs = r.globs;
      reached = r.reached.items;
      taken = r.taken.items;
      calls = r.calls.items;
      fates = r.fates.items;
      eager = r.eager.items;
      settled = r.settled;
      is_proc_macro = r.is_proc_macro;
      exported = r.exported.items;
      asked = r.asked.items;
      count = r.count;
      changed = r.changed;
    } };

    ghost invariant = { λ r. r.count ≤ STEP_LIMIT };
}

/// The first crate of a name.
fn dependency_named(dependencies: &[Dependency], name: &Name) -> Option<Crate>
    ensures value { result ≡ dependency_named dependencies.now name.now }
{
    for dependency in dependencies {
        if dependency.name == *name {
            return Some(dependency.krate);
        }
    }
    None
}

/// Whether the call at the place waits.
fn waits(fates: &Vec<Fate>, i: usize) -> bool
    ensures yes { result ≡ true → slice_get fates.now.items i ≡ Some Fate.Waits }
    ensures no { result ≡ false → ¬ (slice_get fates.now.items i ≡ Some Fate.Waits) }
{
    match fates.get(i) {
        Some(Fate::Waits) => true,
        Some(Fate::Handled | Fate::GivenUp) | None => false,
    }
}

/// This becomes of the call at the place.
fn end(fates: &mut Vec<Fate>, i: usize, fate: Fate)
    ensures value { fates.new.items ≡ slice_set fates.old.items i fate }
{
    if i < fates.len() {
        fates[i] = fate;
    }
}

/// Adds an eager macro to those of the call at the place, if there is one.
fn add_at(eager: &mut Vec<EagerMacros>, i: usize, seen: EagerMacro) -> Result<(), AllocError>
    ensures ok { OnOk result (eager.new.items ≡ slice_set eager.old.items i (eager_among eager.old.items i ++ seen ∷ [])) }
{
    if i >= eager.len() {
        drop(seen);
        return Ok(());
    }
    eager[i].add(seen)
}

impl DefCollector {
    /// The root module alone, beside what all modules find; its tree and the maps of what holds a block asked for.
    pub fn start(
        alloc: Global,
        world: WorldPart<'_>,
        crate_data: DefMapCrateData,
        local: LocalDefMap,
        dependencies: Vec<Dependency>,
        options: CfgOptions,
        is_proc_macro: bool,
        holders: &[ModuleId],
        start: Start,
        tree: TreeId,
    ) -> Result<DefCollector, AllocError>
        ensures value { IfOk result (λ run. core_in run ≡ core_by (part_of world.entry) crate_data local dependencies.items options is_proc_macro holders.now start tree) }
    {
        let root = ModuleData::new(alloc, start.origin(), start.visibility(), None);
        let mut map = DefMap::empty(alloc, start.krate(), crate_data, root, start.block())?;
        let found = own_prelude(alloc, world, &map, &local, start)?;
        map.set_prelude(found);
        use_prelude_macros(world, &mut map)?;
        let asked = first_keys(alloc, holders, start, tree)?;
        Ok(DefCollector {
            map,
            local,
            dependencies,
            options,
            from_glob_import: PerNsGlobImports::new(alloc),
            globs: GlobImports::new(alloc),
            reached: Vec::new(alloc),
            taken: Vec::new(alloc),
            calls: Vec::new(alloc),
            fates: Vec::new(alloc),
            eager: Vec::new(alloc),
            settled: 0,
            is_proc_macro,
            exported: Vec::new(alloc),
            asked,
            count: 0,
            changed: Changed::everything(alloc),
        })
    }

    /// The modules so far.
    pub fn map(&self) -> &DefMap
        ensures value { result.now ≡ (core_in self.now).map }
    {
        &self.map
    }

    /// The crates that paths may begin with.
    pub fn local(&self) -> &LocalDefMap
        ensures value { result.now ≡ (core_in self.now).local }
    {
        &self.local
    }

    /// The module of a number.
    pub fn module_id(&self, home: u32) -> ModuleId
        ensures value { result ≡ module_id (core_in self.now).map home }
    {
        ModuleId {
            map: self.map.id(),
            index: home,
        }
    }

    /// What holds the items of a site.
    pub fn container(&self, site: &Site) -> ItemContainerId
        ensures value { result ≡ container_of (core_in self.now).map site.now }
    {
        match site.extern_block {
            Some(block) => ItemContainerId::ExternBlockId(block),
            None => ItemContainerId::ModuleId(self.module_id(site.home)),
        }
    }

    /// What a visibility means that is written in a module; one whose path leads to no module counts as public.
    pub fn visibility_in(
        &self,
        world: WorldPart<'_>,
        at: ModuleId,
        raw: &RawVisibility,
    ) -> Visibility
        ensures value { result ≡ visibility_in (part_of world.entry) (core_in self.now).local (core_in self.now).map at raw.now }
    {
        visibility(&self.map, &self.local, world, at, raw)
    }

    /// The visibility of an item at a site.
    pub fn visibility(&self, world: WorldPart<'_>, site: &Site, head: ItemHead<'_>) -> Visibility
        ensures value { result ≡ own_visibility (part_of world.entry) (core_in self.now).local (core_in self.now).map site.now (head_of head.entry) }
    {
        self.visibility_in(world, self.module_id(site.home), head.visibility)
    }

    /// Where the run takes its memory.
    pub fn allocator(&self) -> Global {
        *self.reached.allocator()
    }

    /// How many steps were taken.
    pub fn count(&self) -> u32
        ensures value { result ≡ (core_in self.now).count }
        ensures small { result ≤ STEP_LIMIT }
    {
        self.count
    }

    /// Counts a step.
    pub fn tick(&mut self) -> Result<(), StepError>
        ensures ok { OnOk result (core_in self.new ≡ counted (core_in self.old)) }
        ensures below { OnOk result ((core_in self.old).count < STEP_LIMIT) }
        ensures noted { OnOk result (IsNoted self.old self.new) }
        ensures many { result ≡ Err StepError.TooMany → STEP_LIMIT ≤ (core_in self.old).count }
    {
        if self.count >= STEP_LIMIT {
            return Err(StepError::TooMany);
        }
        self.count += 1;
        Ok(())
    }

    /// Binds what a declaration brings under a name in a module. Along globs it goes with `hir_collector_imports::spread_changes`.
    ///
    /// After rust-analyzer's `DefCollector::update`.
    pub fn bind(&mut self, home: u32, name: Name, items: PerNs) -> Result<(), AllocError>
        ensures ok { OnOk result (core_in self.new ≡ with_bound (core_in self.old) home name items) }
        ensures noted { OnOk result (IsNoted self.old self.new) }
    {
        let bound = name.clone()?;
        forget(&mut self.globs, home, &name, items)?;
        let changes = self
            .map
            .push(&mut self.from_glob_import, home, name, items, None)?;
        if !changes {
            return Ok(());
        }
        self.changed.add(home, &bound)?;
        Ok(())
    }

    /// Adds a macro to those in textual scope in a module: it comes last among those of its name.
    pub fn define_textual(
        &mut self,
        home: u32,
        name: Name,
        makro: MacroId,
    ) -> Result<(), AllocError>
        requires in_range { home < length (core_in self.old).map.modules }
        ensures ok { OnOk result (core_in self.new ≡ with_map (core_in self.old) (with_textual_macro (core_in self.old).map home name makro)) }
        ensures noted { OnOk result (IsNoted self.old self.new) }
    {
        self.changed.add(home, &name)?;
        textual::define(&mut self.map, home, name, makro)?;
        Ok(())
    }

    /// Lets a module take over the macros that are in textual scope in another.
    pub fn take_textual(&mut self, home: u32, from: u32) -> Result<(), AllocError>
        requires in_range { home < length (core_in self.old).map.modules }
        ensures ok { OnOk result (core_in self.new ≡ with_map (core_in self.old) (with_textual_scope (core_in self.old).map home (textual_at (core_in self.old).map from))) }
        ensures noted { OnOk result (IsNoted self.old self.new) }
    {
        let tried = self.reached.len().saturating_add(self.calls.len());
        let most = most_compared(&self.changed, tried);
        if has_same_textual(&self.map, home, from, most) {
            return Ok(());
        }
        self.changed.add_everything();
        textual::take(self.allocator(), &mut self.map, home, from)?;
        Ok(())
    }

    /// Notes the macro that an item defines.
    pub fn define_macro(&mut self, node: AstId, makro: MacroId) -> Result<(), AllocError>
        ensures ok { OnOk result (core_in self.new ≡ with_map (core_in self.old) (with_macro_def (core_in self.old).map node makro)) }
        ensures noted { OnOk result (IsNoted self.old self.new) }
    {
        self.map.add_macro_def(node, makro)?;
        Ok(())
    }

    /// Makes a module, which begins with the macros that are in textual scope in the one around it.
    pub fn open(
        &mut self,
        home: u32,
        name: Name,
        origin: ModuleOrigin,
        visibility: Visibility,
    ) -> Result<ModuleId, StepError>
        requires in_range { home < length (core_in self.old).map.modules }
        ensures made { IfOk result (λ id. id ≡ new_id (core_in self.old).map) }
        ensures ok { OnOk result (core_in self.new ≡ with_map (core_in self.old) (begun (core_in self.old).map home name (new_module origin visibility (Some (module_id (core_in self.old).map home))))) }
        ensures noted { OnOk result (IsNoted self.old self.new) }
        ensures many { result ≡ Err StepError.TooMany → STEP_LIMIT ≤ length (core_in self.old).map.modules }
    {
        let alloc = self.allocator();
        let parent = self.module_id(home);
        let module = ModuleData::new(alloc, origin, visibility, Some(parent));
        let id = self.map.add_module(home, name, module)?;
        textual::take(alloc, &mut self.map, id.index, home)?;
        Ok(id)
    }

    /// Lists a definition in a module.
    pub fn declare(&mut self, home: u32, def: ModuleDefId) -> Result<(), AllocError>
        ensures ok { OnOk result (core_in self.new ≡ with_map (core_in self.old) (with_declared (core_in self.old).map home def)) }
        ensures noted { OnOk result (IsNoted self.old self.new) }
    {
        self.map.declare(home, def)?;
        Ok(())
    }

    /// Keeps the variants of an enum, which were asked for.
    pub fn add_enum(&mut self, id: EnumId, variants: EnumVariants) -> Result<(), AllocError>
        ensures ok { OnOk result (core_in self.new ≡ with_asked (with_map (core_in self.old) (with_enum (core_in self.old).map id variants)) (Key.Variants id)) }
        ensures noted { OnOk result (IsNoted self.old self.new) }
    {
        note_variants(&mut self.changed, &self.map, id);
        self.asked.push(Key::Variants(id))?;
        self.map.add_enum(id, variants)?;
        Ok(())
    }

    /// The tree of a file in the crate's edition, under the crate.
    pub fn file_key(&self, id: FileId) -> TreeKey
        ensures value { result ≡ file_key (core_in self.now).map.id.krate (core_in self.now).map.crate_data.edition id }
    {
        TreeKey {
            krate: self.map.id().krate,
            id: TreeId {
                file: HirFileId::File(EditionedFileId {
                    file_id: id,
                    edition: self.map.edition(),
                }),
                block: None,
            },
        }
    }

    /// Notes a key that was asked for.
    pub fn ask(&mut self, key: Key) -> Result<(), AllocError>
        ensures ok { OnOk result (core_in self.new ≡ with_asked (core_in self.old) key) }
        ensures noted { OnOk result (IsNoted self.old self.new) }
    {
        self.asked.push(key)?;
        Ok(())
    }

    /// Adds a diagnostic.
    pub fn tell(&mut self, report: DefDiagnostic) -> Result<(), AllocError>
        ensures ok { OnOk result (core_in self.new ≡ with_map (core_in self.old) (with_diagnostic (core_in self.old).map report)) }
        ensures noted { OnOk result (IsNoted self.old self.new) }
    {
        self.map.add_diagnostic(report)?;
        Ok(())
    }

    /// The options of the crate that are set.
    pub fn options(&self) -> &CfgOptions
        ensures value { result.now ≡ (core_in self.now).options }
    {
        &self.options
    }

    /// Lists a `use` item in a module.
    pub fn list_use(&mut self, home: u32, use_: UseId) -> Result<(), AllocError>
        ensures ok { OnOk result (core_in self.new ≡ with_map (core_in self.old) (with_use (core_in self.old).map home use_)) }
        ensures noted { OnOk result (IsNoted self.old self.new) }
    {
        self.map.define_use(home, use_)?;
        Ok(())
    }

    /// Lists an `extern crate` in a module.
    pub fn list_extern_crate(&mut self, home: u32, id: ExternCrateId) -> Result<(), AllocError>
        ensures ok { OnOk result (core_in self.new ≡ with_map (core_in self.old) (with_extern_crate (core_in self.old).map home id)) }
        ensures noted { OnOk result (IsNoted self.old self.new) }
    {
        self.map.define_extern_crate_decl(home, id)?;
        Ok(())
    }

    /// Lists an impl in a module.
    pub fn list_impl(&mut self, home: u32, id: ImplId, of_trait: bool) -> Result<(), AllocError>
        ensures ok { OnOk result (core_in self.new ≡ with_map (core_in self.old) (with_impl (core_in self.old).map home id of_trait)) }
        ensures noted { OnOk result (IsNoted self.old self.new) }
    {
        self.map.define_impl(home, id, of_trait)?;
        Ok(())
    }

    /// Lists an extern block in a module.
    pub fn list_extern_block(&mut self, home: u32, id: ExternBlockId) -> Result<(), AllocError>
        ensures ok { OnOk result (core_in self.new ≡ with_map (core_in self.old) (with_extern_block (core_in self.old).map home id)) }
        ensures noted { OnOk result (IsNoted self.old self.new) }
    {
        self.map.define_extern_block(home, id)?;
        Ok(())
    }

    /// Lists a constant without a name in a module.
    pub fn list_unnamed_const(&mut self, home: u32, id: ConstId) -> Result<(), AllocError>
        ensures ok { OnOk result (core_in self.new ≡ with_map (core_in self.old) (with_unnamed_const (core_in self.old).map home id)) }
        ensures noted { OnOk result (IsNoted self.old self.new) }
    {
        self.map.define_unnamed_const(home, id)?;
        Ok(())
    }

    /// The crate that an `extern crate` names: its own, or the first dependency of the name.
    pub fn crate_named(&self, name: &ExternCrateName) -> Option<Crate>
        ensures value { result ≡ crate_named (core_in self.now).map.id.krate (core_in self.now).dependencies name.now }
    {
        match name {
            ExternCrateName::SelfCrate => Some(self.map.id().krate),
            ExternCrateName::Name(name) => dependency_named(&self.dependencies, name),
        }
    }

    /// What the root of the crate binds that an `extern crate` names, if it is another one.
    fn other_scope<'a>(&self, world: WorldPart<'a>, name: &ExternCrateName) -> Option<&'a ItemScope>
        ensures value { option_map (λ s. s.now) result ≡ other_scope (part_of world.entry) (core_in self.now).dependencies name.now }
    {
        match name {
            ExternCrateName::SelfCrate => None,
            ExternCrateName::Name(name) => {
                let krate = dependency_named(&self.dependencies, name)?;
                root_scope(world, krate)
            }
        }
    }

    /// Uses the macros that an `extern crate` brings into the macro-use prelude of a crate's map.
    #[tactic(auto, using(crate::proofs::Noted::noted_still), unfolding(hir_collector_rules::specs::State::core_in))]
    pub fn use_macros(
        &mut self,
        world: WorldPart<'_>,
        head: ItemHead<'_>,
        name: &ExternCrateName,
        by: ExternCrateId,
    ) -> Result<(), AllocError>
        ensures ok { OnOk result (core_in self.new ≡ with_map (core_in self.old) (with_macros_used (core_in self.old).map
            (macros_brought (part_of world.entry) (core_in self.old).map (core_in self.old).dependencies (head_of head.entry) name.now) (Some by))) }
        ensures noted { OnOk result (IsNoted self.old self.new) }
    {
        let attrs = head.attrs.attrs.as_slice();
        if !says(attrs, "macro_use") {
            return Ok(());
        }
        if self.map.id().block.is_some() {
            return Ok(());
        }
        let Some(scope) = self.other_scope(world, name) else {
            return Ok(());
        };
        let alloc = self.allocator();
        note_wanted(alloc, &mut self.changed, scope, attrs)?;
        use_wanted(alloc, &mut self.map, scope, attrs, by)?;
        Ok(())
    }

    /// Lets paths begin with the name of an `extern crate` of the crate's root module.
    #[tactic(auto, using(crate::proofs::Noted::noted_still), unfolding(hir_collector_rules::specs::State::core_in))]
    pub fn add_extern(&mut self, import: &ImportDirective) -> Result<(), AllocError>
        ensures ok { OnOk result (core_in self.new ≡ with_local (core_in self.old) (extern_after (core_in self.old).map (core_in self.old).local import.now)) }
        ensures noted { OnOk result (IsNoted self.old self.new) }
    {
        if import.home != 0 || self.map.id().block.is_some() {
            return Ok(());
        }
        let ImportSource::ExternCrate {
            id,
            krate: Some(krate),
        } = import.source
        else {
            return Ok(());
        };
        let Some(name) = import.name()? else {
            return Ok(());
        };
        let root = ModuleId {
            map: MapId { krate, block: None },
            index: 0,
        };
        self.changed.add_prelude(&name)?;
        self.local.add_extern(name, root, Some(id))?;
        Ok(())
    }

    /// Notes an import that was come upon.
    pub fn reach(&mut self, import: ImportDirective) -> Result<(), AllocError>
        ensures ok { OnOk result (core_in self.new ≡ with_imports (core_in self.old) (import ∷ [])) }
        ensures noted { OnOk result (IsNoted self.old self.new) }
    {
        let taken = Taken::nothing(self.allocator());
        self.reached.push(import)?;
        self.taken.push(taken)?;
        Ok(())
    }

    /// Notes a macro call, a path of a derive or an attribute that was come upon.
    pub fn await_call(&mut self, call: MacroDirective) -> Result<(), AllocError>
        ensures ok { OnOk result (core_in self.new ≡ with_calls (core_in self.old) (call ∷ [])) }
        ensures noted { OnOk result (IsNoted self.old self.new) }
    {
        self.calls.push(call)?;
        self.fates.push(Fate::Waits)?;
        let none = EagerMacros::new(self.allocator());
        self.eager.push(none)?;
        Ok(())
    }

    /// How many calls there were when imports rested last: these may be tried.
    pub fn settled(&self) -> usize
        ensures value { result ≡ (core_in self.now).settled }
    {
        self.settled
    }

    /// The call at the place, where it waits.
    pub fn waiting(&self, i: usize) -> Option<&MacroDirective>
        ensures waits { IfSome result (λ call. IsWaiting (at_rest (core_in self.now)) i call.now) }
        ensures none { IfNone result ((call : MacroDirective) → ¬ IsWaiting (at_rest (core_in self.now)) i call) }
    {
        if waits(&self.fates, i) {
            self.calls.get(i)
        } else {
            None
        }
    }

    /// How many calls, paths of derives and attributes were come upon.
    pub fn call_count(&self) -> usize
        ensures value { result ≡ length (core_in self.now).calls }
    {
        self.calls.len()
    }

    /// What may have changed since calls were tried.
    pub fn changed(&self) -> &Changed
        ensures value { result.now ≡ self.now.changed }
    {
        &self.changed
    }

    /// What has changed was looked at.
    pub fn forget_changes(&mut self)
        ensures value { core_in self.new ≡ core_in self.old }
        ensures globs { self.new.globs ≡ self.old.globs }
        ensures none { self.new.changed ≡ nothing }
    {
        self.changed.clear();
    }

    /// Whether a call is deeper than calls may be.
    pub fn is_too_deep(&self, call: &MacroDirective) -> bool
        ensures deep { result ≡ true → (core_in self.now).map.crate_data.recursion_limit ≤ call.now.site.level }
        ensures shallow { result ≡ false → call.now.site.level < (core_in self.now).map.crate_data.recursion_limit }
        ensures below { result ≡ false → call.now.site.level < 4294967295 }
    {
        call.site.level >= self.map.recursion_limit()
    }

    /// This becomes of the call at the place.
    pub fn end_call(&mut self, i: usize, fate: Fate)
        ensures value { core_in self.new ≡ with_fate (core_in self.old) i fate }
        ensures noted { IsNoted self.old self.new }
    {
        end(&mut self.fates, i, fate);
    }

    /// Imports rest: all calls that there are may be tried from now on, which is a step where some could not be before.
    pub fn rest(&mut self) -> Result<(), StepError>
        ensures ok { OnOk result (Rested (core_in self.old) (core_in self.new)) }
        ensures noted { OnOk result (IsNoted self.old self.new) }
        ensures many { result ≡ Err StepError.TooMany → RestsTooFar (core_in self.old) }
    {
        let there = self.calls.len();
        if self.settled == there {
            return Ok(());
        }
        self.settled = there;
        self.tick()
    }

    /// The eager macros that the call at the place reached while a path that they ask for first reached nothing.
    pub fn eager_at(&self, i: usize) -> &[EagerMacro]
        ensures value { result.now ≡ eager_at (core_in self.now) i }
    {
        match self.eager.get(i) {
            Some(seen) => seen.as_slice(),
            None => &[],
        }
    }

    /// Notes one more of them.
    pub fn meet_eager(&mut self, i: usize, seen: EagerMacro) -> Result<(), AllocError>
        ensures ok { OnOk result (core_in self.new ≡ with_eager (core_in self.old) i seen) }
        ensures noted { OnOk result (IsNoted self.old self.new) }
    {
        add_at(&mut self.eager, i, seen)?;
        Ok(())
    }

    /// What is told of the call at the place where it is left over, or given up.
    pub fn call_report(
        &self,
        world: WorldPart<'_>,
        i: usize,
        call: &MacroDirective,
    ) -> Result<DefDiagnostic, AllocError>
        ensures value { IfOk result (λ d. d ≡ call_report (part_of world.entry) (core_in self.now).local (core_in self.now).map call.now (eager_at (core_in self.now) i)) }
    {
        call_report(world, &self.map, &self.local, call, self.eager_at(i))
    }

    /// What is told of calls that are left over.
    pub fn unresolved_calls(&self, world: WorldPart<'_>) -> Result<Vec<DefDiagnostic>, AllocError>
        ensures value { IfOk result (λ told. told.items ≡ unresolved_calls (part_of world.entry) (core_in self.now).local (core_in self.now).map (core_in self.now).calls
            (core_in self.now).fates (core_in self.now).eager) }
    {
        unresolved_calls(
            self.allocator(),
            world,
            &self.map,
            &self.local,
            &self.calls,
            &self.fates,
            &self.eager,
        )
    }

    /// What a run comes to: what waits still is left over, which is told so, and imports that were never taken are.
    ///
    /// After rust-analyzer's `DefCollector::finish`.
    pub fn finish(
        self,
        calls_told: Vec<DefDiagnostic>,
        round_limit_met: bool,
        transitive: Rc<CrateSet>,
    ) -> Result<Collected, AllocError>
        ensures value { IfOk result (λ c. collected_view c ≡ told_run (core_in self) calls_told.items round_limit_met transitive.value) }
    {
        let alloc = self.allocator();
        let leftover = untaken(alloc, &self.reached, &self.taken)?;
        let names = unresolved_crates(alloc, &self.reached, &self.taken)?;
        let mut map = self.map;
        let krate = map.id().krate;
        if self.is_proc_macro {
            censor_root(&mut map, &self.exported);
        }
        report_all(&mut map, calls_told)?;
        report_unresolved(&mut map, &names, &self.reached, &self.taken)?;
        Ok(Collected {
            map,
            local: self.local,
            leftover,
            round_limit_met,
            asked: Asked::new(self.asked, krate, transitive),
        })
    }
}
