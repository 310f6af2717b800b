//! What traits and impls hold, over the present sources.
ghost use Rattle.std.specs.Prelude.{◌≡◌, IfOk, Err};
ghost use Rattle.hir_session_state.specs.HirIds.declared.ast_id.AstKind.TheVariants as kind;
ghost use Rattle.hir_session_state.specs.HirIds.declared.ids.ItemContainerId.TheVariants as container;
ghost use Rattle.hir_session_state.specs.HirTables.Tables.{KeepsTables};
ghost use Rattle.hir_session_state.specs.HirNameres.DefMaps.{maps_of};
ghost use Rattle.hir_session_state.specs.HirCollectorRules.Calls.{AreCallsPlaced};
ghost use Rattle.hir_session_state.specs.HirCollectorRules.Keys.{environment};
ghost use Rattle.hir_assoc_items.specs.AssocItems.{FlattensTo, IsTooMany, ReachesUnknown, container_of, items_written, listing_of};
ghost use Rattle.hir_session_state.specs.Inputs.{workspace_by};
ghost use Rattle.hir_session_state.specs.SourceTable.{workspace_in};

use super::Inputs;
use crate::sources::Sources;
use hir_assoc_items::assoc::{ImplItems, TraitItems};
use hir_assoc_items::error::AssocItemsError;
use hir_base::ast_id::{AstId, MacroCallId};
use hir_base::ids::{AssocItemId, ImplId, TraitId};
use hir_base::name::Name;
use hir_session_sources::source_trees::SourceTrees;
use hir_session_state::hir_def_map::def_maps::DefMaps;
use hir_session_state::hir_def_map::nameres::diagnostics::DefDiagnostics;
use hir_session_state::hir_def_map::nameres::local_def_map::LocalDefMap;
use hir_tables::Tables;
use std::alloc::Global;
use std::mem::replace;

/// What a trait or an impl holds.
#[derive(Drop)]
pub struct AssocList {
    pub items: Vec<(Name, AssocItemId)>,
    pub calls: Vec<(AstId, MacroCallId)>,
    pub diagnostics: DefDiagnostics,
}

/// What a trait holds.
fn list_of_trait(
    alloc: Global,
    sources: &mut Sources<'_>,
    tables: &mut Tables,
    maps: DefMaps<'_>,
    local: &LocalDefMap,
    id: TraitId,
) -> Result<AssocList, AssocItemsError>
    ensures same { workspace_in sources.new.crates.now sources.new.table.now ≡ workspace_in sources.old.crates.now sources.old.table.now }
    ensures kept { KeepsTables tables.old tables.new }
    ensures placed { AreCallsPlaced tables.old → AreCallsPlaced tables.new }
    ensures flattened { IfOk result (λ list. FlattensTo (environment tables.new (workspace_in sources.old.crates.now sources.old.table.now))
        (container_of (maps_of maps.entry) local.now (container.TraitId id))
        (items_written tables.old (workspace_in sources.old.crates.now sources.old.table.now) id.loc kind.Trait)
        (listing_of list.items.items list.calls.items list.diagnostics)) }
    ensures many { result ≡ Err AssocItemsError.TooMany
        → IsTooMany (environment tables.new (workspace_in sources.old.crates.now sources.old.table.now))
        (container_of (maps_of maps.entry) local.now (container.TraitId id))
        (items_written tables.old (workspace_in sources.old.crates.now sources.old.table.now) id.loc kind.Trait) }
    ensures unknown { result ≡ Err AssocItemsError.UnknownSource
        → ReachesUnknown (environment tables.new (workspace_in sources.old.crates.now sources.old.table.now))
        (container_of (maps_of maps.entry) local.now (container.TraitId id))
        (items_written tables.old (workspace_in sources.old.crates.now sources.old.table.now) id.loc kind.Trait) }
{
    match TraitItems::query_with_diagnostics(alloc, sources, maps, local, tables, id) {
        Ok((held, diagnostics)) => Ok(AssocList {
            items: held.items,
            calls: held.macro_calls,
            diagnostics,
        }),
        Err(error) => Err(error),
    }
}

/// What an impl holds.
fn list_of_impl(
    alloc: Global,
    sources: &mut Sources<'_>,
    tables: &mut Tables,
    maps: DefMaps<'_>,
    local: &LocalDefMap,
    id: ImplId,
) -> Result<AssocList, AssocItemsError>
    ensures same { workspace_in sources.new.crates.now sources.new.table.now ≡ workspace_in sources.old.crates.now sources.old.table.now }
    ensures kept { KeepsTables tables.old tables.new }
    ensures placed { AreCallsPlaced tables.old → AreCallsPlaced tables.new }
    ensures flattened { IfOk result (λ list. FlattensTo (environment tables.new (workspace_in sources.old.crates.now sources.old.table.now))
        (container_of (maps_of maps.entry) local.now (container.ImplId id))
        (items_written tables.old (workspace_in sources.old.crates.now sources.old.table.now) id.loc kind.Impl)
        (listing_of list.items.items list.calls.items list.diagnostics)) }
    ensures many { result ≡ Err AssocItemsError.TooMany
        → IsTooMany (environment tables.new (workspace_in sources.old.crates.now sources.old.table.now))
        (container_of (maps_of maps.entry) local.now (container.ImplId id))
        (items_written tables.old (workspace_in sources.old.crates.now sources.old.table.now) id.loc kind.Impl) }
    ensures unknown { result ≡ Err AssocItemsError.UnknownSource
        → ReachesUnknown (environment tables.new (workspace_in sources.old.crates.now sources.old.table.now))
        (container_of (maps_of maps.entry) local.now (container.ImplId id))
        (items_written tables.old (workspace_in sources.old.crates.now sources.old.table.now) id.loc kind.Impl) }
{
    match ImplItems::of(alloc, sources, maps, local, tables, id) {
        Ok((held, diagnostics)) => Ok(AssocList {
            items: held.items,
            calls: held.macro_calls,
            diagnostics,
        }),
        Err(error) => Err(error),
    }
}

impl Inputs {
    /// What a trait holds. What the sources have under its crate is kept.
    pub fn list_trait(
        &mut self,
        alloc: Global,
        tables: &mut Tables,
        maps: DefMaps<'_>,
        local: &LocalDefMap,
        id: TraitId,
    ) -> Result<AssocList, AssocItemsError>
        ensures same { self.new ≡ self.old }
        ensures kept { KeepsTables tables.old tables.new }
        ensures placed { AreCallsPlaced tables.old → AreCallsPlaced tables.new }
        ensures flattened { IfOk result (λ list. FlattensTo (environment tables.new (workspace_by self.old))
            (container_of (maps_of maps.entry) local.now (container.TraitId id))
            (items_written tables.old (workspace_by self.old) id.loc kind.Trait)
            (listing_of list.items.items list.calls.items list.diagnostics)) }
        ensures many { result ≡ Err AssocItemsError.TooMany → IsTooMany (environment tables.new (workspace_by self.old))
            (container_of (maps_of maps.entry) local.now (container.TraitId id))
            (items_written tables.old (workspace_by self.old) id.loc kind.Trait) }
        ensures unknown { result ≡ Err AssocItemsError.UnknownSource → ReachesUnknown (environment tables.new (workspace_by self.old))
            (container_of (maps_of maps.entry) local.now (container.TraitId id))
            (items_written tables.old (workspace_by self.old) id.loc kind.Trait) }
    {
        let trees = replace(&mut self.trees, SourceTrees::new(alloc));
        let mut sources = Sources {
            crates: &self.crates,
            table: &self.sources,
            trees,
        };
        let list = list_of_trait(alloc, &mut sources, tables, maps, local, id);
        self.trees = sources.trees;
        list
    }

    /// What an impl holds. What the sources have under its crate is kept.
    pub fn list_impl(
        &mut self,
        alloc: Global,
        tables: &mut Tables,
        maps: DefMaps<'_>,
        local: &LocalDefMap,
        id: ImplId,
    ) -> Result<AssocList, AssocItemsError>
        ensures same { self.new ≡ self.old }
        ensures kept { KeepsTables tables.old tables.new }
        ensures placed { AreCallsPlaced tables.old → AreCallsPlaced tables.new }
        ensures flattened { IfOk result (λ list. FlattensTo (environment tables.new (workspace_by self.old))
            (container_of (maps_of maps.entry) local.now (container.ImplId id))
            (items_written tables.old (workspace_by self.old) id.loc kind.Impl)
            (listing_of list.items.items list.calls.items list.diagnostics)) }
        ensures many { result ≡ Err AssocItemsError.TooMany → IsTooMany (environment tables.new (workspace_by self.old))
            (container_of (maps_of maps.entry) local.now (container.ImplId id))
            (items_written tables.old (workspace_by self.old) id.loc kind.Impl) }
        ensures unknown { result ≡ Err AssocItemsError.UnknownSource → ReachesUnknown (environment tables.new (workspace_by self.old))
            (container_of (maps_of maps.entry) local.now (container.ImplId id))
            (items_written tables.old (workspace_by self.old) id.loc kind.Impl) }
    {
        let trees = replace(&mut self.trees, SourceTrees::new(alloc));
        let mut sources = Sources {
            crates: &self.crates,
            table: &self.sources,
            trees,
        };
        let list = list_of_impl(alloc, &mut sources, tables, maps, local, id);
        self.trees = sources.trees;
        list
    }
}
