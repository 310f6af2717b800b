//! Queries for the items of traits and impls.
ghost use Rattle.std.specs.Prelude.{◌≡◌, IfOk, map};
ghost use Rattle.hir_collector_rules.specs.HirTables.Tables.{KeepsTables};
ghost use Rattle.hir_collector_rules.specs.HirNameres.DefMaps.{maps_of};
ghost use Rattle.hir_collector_rules.specs.Calls.{AreCallsPlaced};
ghost use Rattle.hir_collector_rules.specs.Keys.{environment};
ghost use Rattle.hir_assoc_items.specs.AssocItems.{FlattensTo, IsTooMany, ReachesUnknown, container_of, items_written, listing_of};
ghost use Rattle.hir_assoc_items.specs.Steps.{AreMeant, container_view, listing_view};
ghost use Rattle.hir_assoc_items.specs.Written.{written_view};

use crate::assoc::{ImplItems, TraitItems};
use crate::container::Container;
use crate::depth::expansions_around;
use crate::error::AssocItemsError;
use crate::flatten::{Listing, flatten};
use crate::written::{Written, of_rows};
use hir_base::ast_id::AstKind;
use hir_base::ids::{ImplId, ItemContainerId, ItemLoc, ModuleId, TraitId};
use hir_collector_rules::hir_nameres::def_maps::DefMaps;
use hir_collector_rules::hir_nameres::nameres::diagnostics::DefDiagnostics;
use hir_collector_rules::hir_nameres::nameres::local_def_map::LocalDefMap;
use hir_collector_rules::source_database::SourceDatabase;
use hir_collector_start::sources::source_at;
use hir_item_tree::check::NodeId;
use hir_item_tree::tree_id::{TreeId, TreeKey};
use hir_tables::Tables;
use std::alloc::{AllocError, Global};

/// The items that are written for a trait or an impl, in the source as it is now.
fn written_items<D: SourceDatabase>(
    alloc: Global,
    db: &mut D,
    locations: &Tables,
    loc: ItemLoc<ModuleId>,
    kind: AstKind,
) -> Result<Vec<Written>, AllocError>
    ensures value { IfOk result (λ items. map written_view items.items ≡ items_written locations.now (D.workspace db.old) loc kind) }
    ensures meant { IfOk result (λ items. AreMeant locations.now (map written_view items.items)) }
    ensures same { D.workspace db.new ≡ D.workspace db.old }
{
    let id = TreeId {
        file: loc.file_id,
        block: loc.block,
    };
    let krate = loc.container.map.krate;
    let source = source_at(alloc, db, locations, TreeKey { krate, id })?;
    match source.assoc(NodeId { kind, id: loc.id }) {
        Some(rows) => {
            let level = expansions_around(locations, loc.file_id, loc.block);
            of_rows(alloc, id, level, rows)
        }
        None => Ok(Vec::new(alloc)),
    }
}

/// What the list of a trait or an impl comes to.
fn flattened<D: SourceDatabase>(
    alloc: Global,
    db: &mut D,
    container: &Container<'_>,
    locations: &mut Tables,
    loc: ItemLoc<ModuleId>,
    kind: AstKind,
) -> Result<Listing, AssocItemsError>
    ensures kept { KeepsTables locations.old locations.new }
    ensures others { locations.new ≡ record locations.old { entries = locations.new.entries; calls = locations.new.calls } }
    ensures placed { AreCallsPlaced locations.old → AreCallsPlaced locations.new }
    ensures same { D.workspace db.new ≡ D.workspace db.old }
    ensures value { IfOk result (λ found. FlattensTo (environment locations.new (D.workspace db.old)) (container_view container.now) (items_written locations.old (D.workspace db.old) loc kind) (listing_view found)) }
    ensures many { result ≡ Err AssocItemsError.TooMany → IsTooMany (environment locations.new (D.workspace db.old)) (container_view container.now) (items_written locations.old (D.workspace db.old) loc kind) }
    ensures unknown { result ≡ Err AssocItemsError.UnknownSource → ReachesUnknown (environment locations.new (D.workspace db.old)) (container_view container.now) (items_written locations.old (D.workspace db.old) loc kind) }
{
    let items = written_items(alloc, db, locations, loc, kind)?;
    flatten(alloc, db, container, locations, items)
}

impl TraitItems {
    /// The items of a trait in the sources as they are now, and what went wrong.
    ///
    /// The paths of its calls are looked up in the module that holds it, in `maps` and `local`. Calls get numbers.
    pub fn query_with_diagnostics<D: SourceDatabase>(
        alloc: Global,
        db: &mut D,
        maps: DefMaps<'_>,
        local: &LocalDefMap,
        locations: &mut Tables,
        tr: TraitId,
    ) -> Result<(TraitItems, DefDiagnostics), AssocItemsError>
        ensures kept { KeepsTables locations.old locations.new }
        ensures others { locations.new ≡ record locations.old { entries = locations.new.entries; calls = locations.new.calls } }
        ensures placed { AreCallsPlaced locations.old → AreCallsPlaced locations.new }
        ensures same { D.workspace db.new ≡ D.workspace db.old }
        ensures value { IfOk result (λ r. FlattensTo (environment locations.new (D.workspace db.old)) (container_of (maps_of maps.entry) local.now (ItemContainerId.TraitId tr))
            (items_written locations.old (D.workspace db.old) tr.loc AstKind.Trait) (listing_of r.0.items.items r.0.macro_calls.items r.1)) }
        ensures many { result ≡ Err AssocItemsError.TooMany → IsTooMany (environment locations.new (D.workspace db.old)) (container_of (maps_of maps.entry) local.now (ItemContainerId.TraitId tr))
            (items_written locations.old (D.workspace db.old) tr.loc AstKind.Trait) }
        ensures unknown { result ≡ Err AssocItemsError.UnknownSource → ReachesUnknown (environment locations.new (D.workspace db.old)) (container_of (maps_of maps.entry) local.now (ItemContainerId.TraitId tr))
            (items_written locations.old (D.workspace db.old) tr.loc AstKind.Trait) }
    {
        let container = Container {
            holder: ItemContainerId::TraitId(tr),
            maps,
            local,
        };
        let found = flattened(alloc, db, &container, locations, tr.loc, AstKind::Trait)?;
        let items = TraitItems {
            items: found.items,
            macro_calls: found.macro_calls,
        };
        Ok((items, DefDiagnostics::new(found.diagnostics)))
    }
}

impl ImplItems {
    /// The items of an impl in the sources as they are now, and what went wrong.
    ///
    /// The paths of its calls are looked up in the module that holds it, in `maps` and `local`. Calls get numbers.
    pub fn of<D: SourceDatabase>(
        alloc: Global,
        db: &mut D,
        maps: DefMaps<'_>,
        local: &LocalDefMap,
        locations: &mut Tables,
        id: ImplId,
    ) -> Result<(ImplItems, DefDiagnostics), AssocItemsError>
        ensures kept { KeepsTables locations.old locations.new }
        ensures others { locations.new ≡ record locations.old { entries = locations.new.entries; calls = locations.new.calls } }
        ensures placed { AreCallsPlaced locations.old → AreCallsPlaced locations.new }
        ensures same { D.workspace db.new ≡ D.workspace db.old }
        ensures value { IfOk result (λ r. FlattensTo (environment locations.new (D.workspace db.old)) (container_of (maps_of maps.entry) local.now (ItemContainerId.ImplId id))
            (items_written locations.old (D.workspace db.old) id.loc AstKind.Impl) (listing_of r.0.items.items r.0.macro_calls.items r.1)) }
        ensures many { result ≡ Err AssocItemsError.TooMany → IsTooMany (environment locations.new (D.workspace db.old)) (container_of (maps_of maps.entry) local.now (ItemContainerId.ImplId id))
            (items_written locations.old (D.workspace db.old) id.loc AstKind.Impl) }
        ensures unknown { result ≡ Err AssocItemsError.UnknownSource → ReachesUnknown (environment locations.new (D.workspace db.old)) (container_of (maps_of maps.entry) local.now (ItemContainerId.ImplId id))
            (items_written locations.old (D.workspace db.old) id.loc AstKind.Impl) }
    {
        let container = Container {
            holder: ItemContainerId::ImplId(id),
            maps,
            local,
        };
        let found = flattened(alloc, db, &container, locations, id.loc, AstKind::Impl)?;
        let items = ImplItems {
            items: found.items,
            macro_calls: found.macro_calls,
        };
        Ok((items, DefDiagnostics::new(found.diagnostics)))
    }
}
