//! What waits for a macro, and what derives and exported macros leave.
#![tactic(auto, unfolding(hir_collector_rules::specs::State::core_in))]

ghost use Rattle.std.specs.Prelude.{◌≡◌, ◌<◌, true, false, length, option_map, OnOk};
ghost use Rattle.hir_collector_rules.specs.HirNameres.WorldParts.{part_of};
ghost use Rattle.hir_collector_rules.specs.HirDefMapRules.Macros.{with_derive_helper, with_exported, with_macro_data};
ghost use Rattle.hir_collector_rules.specs.State.{core_in, eager_at, with_exported_function, with_map};
ghost use Rattle.hir_collector_rules.specs.Attributes.{exports_from};
ghost use Rattle.hir_collector_rules.specs.Calls.{asked_before, called_macro, first_missing, inner_macro, is_inert_now, kept_of};
ghost use Rattle.hir_collector_rules.specs.CallMoves.{IsAttributeWaiting};
ghost use Rattle.hir_collector_rules.specs.Changes.{with_derived};
ghost use Rattle.hir_collector_state.specs.Waiting.{IsNoted, call_reads, inner_reads};

use crate::def_collector::DefCollector;
use hir_base::ast_id::AstId;
use hir_base::ids::HasModule;
use hir_base::macro_kind::{BuiltinDeriveImplId, MacroId, ProcMacroId};
use hir_base::mod_path::ModPath;
use hir_base::resolve_mode::MacroSubNs;
use hir_collector_rules::exported::ExportedFunction;
use hir_collector_rules::hir_nameres::def_maps::DefMaps;
use hir_collector_rules::hir_nameres::nameres::DefMap;
use hir_collector_rules::hir_nameres::nameres::derive_helpers::DeriveHelper;
use hir_collector_rules::hir_nameres::nameres::macro_data::MacroData;
use hir_collector_rules::hir_nameres::nameres::path_resolution::slots::PathSlots;
use hir_collector_rules::hir_nameres::nameres::path_resolution::{BuiltinShadowMode, ResolveMode};
use hir_collector_rules::hir_nameres::world::part::WorldPart;
use hir_collector_rules::macro_directive::{MacroDirective, MacroDirectiveKind};
use hir_collector_start::called::{called_macro, inner_macro, missing_of};
use hir_collector_start::helpers::is_helper;
use std::alloc::AllocError;

/// Lists the impl that a builtin derive macro stands for in a module of a map.
fn list_in_scope(map: &mut DefMap, home: u32, imp: BuiltinDeriveImplId) -> Result<(), AllocError>
    requires in_range { home < length map.old.modules }
    ensures ok { OnOk result (map.new ≡ with_derived map.old home imp) }
{
    map.scope_mut(home).define_builtin_derive_impl(imp)
}

impl DefCollector {
    /// Keeps the name of a macro, and the attributes that deriving with it brings into scope.
    pub fn describe_macro(&mut self, makro: MacroId, what: MacroData) -> Result<(), AllocError>
        ensures ok { OnOk result (core_in self.new ≡ with_map (core_in self.old) (with_macro_data (core_in self.old).map makro what)) }
        ensures noted { OnOk result (IsNoted self.old self.new) }
    {
        self.map.add_macro_data(makro, what)?;
        Ok(())
    }

    /// Whether functions of a module export macros: those of the root of a procedural-macro crate.
    pub fn exports_from(&self, home: u32) -> bool
        ensures value { result ≡ exports_from (core_in self.now).is_proc_macro (core_in self.now).map home }
    {
        self.is_proc_macro && self.map.id().block.is_none() && home == 0
    }

    /// Notes a function that exports a macro.
    pub fn export(
        &mut self,
        function: ExportedFunction,
        makro: ProcMacroId,
    ) -> Result<(), AllocError>
        ensures ok { OnOk result (core_in self.new ≡ with_exported_function (with_map (core_in self.old) (with_exported (core_in self.old).map function.id makro)) function) }
        ensures noted { OnOk result (IsNoted self.old self.new) }
    {
        self.map.export_proc_macro(function.id, makro)?;
        self.exported.push(function)?;
        Ok(())
    }

    /// Brings a helper of a derive into scope on an item, which is noted: an attribute that waits there may be it.
    pub fn help(&mut self, node: AstId, helper: DeriveHelper) -> Result<(), AllocError>
        ensures ok { OnOk result (core_in self.new ≡ with_map (core_in self.old) (with_derive_helper (core_in self.old).map node helper)) }
        ensures noted { OnOk result (IsNoted self.old self.new) }
    {
        self.changed.add_item(node)?;
        self.map.add_derive_helper(node, helper)?;
        Ok(())
    }

    /// Lists the impl that a builtin derive macro stands for in a module.
    pub fn list_derived(&mut self, home: u32, imp: BuiltinDeriveImplId) -> Result<(), AllocError>
        requires in_range { home < length (core_in self.old).map.modules }
        ensures ok { OnOk result (core_in self.new ≡ with_map (core_in self.old) (with_derived (core_in self.old).map home imp)) }
        ensures noted { OnOk result (IsNoted self.old self.new) }
    {
        list_in_scope(&mut self.map, home, imp)?;
        Ok(())
    }

    /// Whether what waits at the place is an attribute.
    pub fn is_attribute_waiting(&self, i: usize) -> bool
        ensures waits { result ≡ true → IsAttributeWaiting (core_in self.now) i }
        ensures none { result ≡ false → ¬ IsAttributeWaiting (core_in self.now) i }
    {
        match self.waiting(i) {
            Some(call) => call.waiting_item().is_some(),
            None => false,
        }
    }

    /// The macro that a call, a path of a derive or an attribute reaches.
    pub fn called_macro(&self, world: WorldPart<'_>, call: &MacroDirective) -> Option<MacroId>
        ensures value { result ≡ called_macro (part_of world.entry) (core_in self.now).local (core_in self.now).map call.now }
    {
        called_macro(world, &self.map, &self.local, call)
    }

    /// The macro that a path reaches in a module, which a macro asks to have resolved first.
    pub fn inner_macro(&self, world: WorldPart<'_>, home: u32, path: &ModPath) -> Option<MacroId>
        ensures value { result ≡ inner_macro (part_of world.entry) (core_in self.now).local (core_in self.now).map home path.now }
    {
        inner_macro(world, &self.map, &self.local, home, path)
    }

    /// The first of the paths that a macro asked for where the call at the place reached it that reaches nothing.
    pub fn missing_path<'a>(
        &'a self,
        world: WorldPart<'_>,
        i: usize,
        call: &MacroDirective,
        makro: MacroId,
    ) -> Option<&'a ModPath>
        ensures value { option_map (λ path. path.now) result ≡ first_missing (part_of world.entry) (core_in self.now).local (core_in self.now).map call.now.site.home
            (asked_before (eager_at (core_in self.now) i) makro) }
    {
        missing_of(
            world,
            &self.map,
            &self.local,
            call.site.home,
            self.eager_at(i),
            makro,
        )
    }

    /// Whether what waits is an attribute, and inert by now: a helper.
    pub fn is_inert_now(&self, call: &MacroDirective) -> bool
        ensures value { result ≡ is_inert_now (core_in self.now).map call.now }
    {
        match &call.kind {
            MacroDirectiveKind::Attr { path, .. } => is_helper(&self.map, call.ast_id, path),
            MacroDirectiveKind::FnLike { .. } | MacroDirectiveKind::Derive { .. } => false,
        }
    }

    /// What is kept of a macro in its map.
    pub fn kept_of<'a>(&'a self, world: WorldPart<'a>, makro: MacroId) -> Option<&'a MacroData>
        ensures value { option_map (λ what. what.now) result ≡ kept_of (part_of world.entry) (core_in self.now).map makro }
    {
        let maps = DefMaps::new(world, &self.map);
        match maps.map(makro.module().map) {
            Some(map) => map.macro_data(makro),
            None => None,
        }
    }

    /// The slots that such a path reads.
    pub fn inner_slots<'a>(
        &'a self,
        world: WorldPart<'a>,
        home: u32,
        path: &'a ModPath,
    ) -> PathSlots<'a>
        ensures value { result ≡ inner_reads (part_of world.entry) (core_in self.now).local (core_in self.now).map home path.now }
    {
        DefMaps::new(world, &self.map).path_slots(
            Some(&self.local),
            ResolveMode::Other,
            self.module_id(home),
            path,
            BuiltinShadowMode::Module,
            Some(MacroSubNs::Bang),
        )
    }

    /// The slots that the path of a call reads.
    pub fn call_slots<'a>(&'a self, world: WorldPart<'a>, call: &'a MacroDirective) -> PathSlots<'a>
        ensures value { result ≡ call_reads (part_of world.entry) (core_in self.now).local (core_in self.now).map call.now }
    {
        DefMaps::new(world, &self.map).path_slots(
            Some(&self.local),
            ResolveMode::Other,
            self.module_id(call.site.home),
            call.path(),
            BuiltinShadowMode::Module,
            Some(call.sub_ns()),
        )
    }
}
