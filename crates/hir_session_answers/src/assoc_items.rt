//! The traits and impls whose items are asked for, and these items in source items.
ghost use Rattle.std.specs.Prelude.{◌≡◌, IfOk, Some, None, slice_get};
ghost use Rattle.std.specs.List.{filter_map};
ghost use Rattle.hir_session_state.specs.HirNameres.DefMaps.{maps_of};
ghost use Rattle.hir_session_state.specs.HirScope.Scope.Reads.{impls_of_kind};
ghost use Rattle.hir_session_state.specs.HirScope.declared.item_scope.iter.impls.ImplKind.TheVariants.{Any};
ghost use Rattle.hir_session_state.specs.HirDefMapRules.Scoping.{resolution_of};
ghost use Rattle.hir_session_answers.specs.Answers.{asking_of};
ghost use Rattle.hir_session_answers.specs.AssocItems.{assoc_source, called_source, impls_of, items_told, named_source, source_item_of, trait_named, trait_of};
ghost use Rattle.hir_assoc_items.specs.AssocItems.{listing_of};
ghost use Rattle.hir_session_state.specs.HirMessages.declared.command.Shadow.TheVariants as shadow;

use crate::diagnostics::{diagnostics_at, node_at};
use crate::source_items::source_calls::source_at;
use hir_base::ast_id::{AstId, AstKind, MacroCallId};
use hir_base::ids::{
    AssocItemId, ImplId, ItemContainerId, ItemLoc, ModuleDefId, ModuleId, TraitId,
};
use hir_base::mod_path::ModPath;
use hir_base::name::Name;
use hir_session_state::hir_def_map::def_maps::DefMaps;
use hir_session_state::hir_def_map::nameres::DefMap;
use hir_session_state::hir_def_map::nameres::diagnostics::DefDiagnostics;
use hir_session_state::hir_def_map::nameres::local_def_map::LocalDefMap;
use hir_session_state::hir_def_map::nameres::path_resolution::{BuiltinShadowMode, ResolveMode};
use hir_session_state::hir_messages::answer::{SourceCallKind, SourceItem, SourceKind};
use hir_session_state::hir_messages::diagnostic::{CalledItem, Diagnostics};
use hir_session_state::hir_messages::items::{AssocItem, AssocItems, CalledItems, Items};
use hir_session_state::hir_scope::item_scope::ItemScope;
use hir_tables::Tables;
use std::alloc::{AllocError, Global};

/// A trait, where a definition is one.
fn as_trait(def: ModuleDefId) -> Option<TraitId>
    ensures value { result ≡ trait_of def }
{
    match def {
        ModuleDefId::TraitId(id) => Some(id),
        _ => None,
    }
}

/// The trait that a path names in a module of one of the maps, where the path doesn't go on past it.
pub fn trait_at(
    maps: &DefMaps<'_>,
    local: &LocalDefMap,
    at: ModuleId,
    path: &ModPath,
) -> Option<TraitId>
    ensures value { result ≡ trait_named (resolution_of (maps_of maps.now) (asking_of local.now shadow.Other None) at path.now) }
{
    let mode = ResolveMode::Other;
    let shadow = BuiltinShadowMode::Other;
    let found = maps.resolve_path_fp_with_macro(Some(local), mode, at, path, shadow, None);
    match (found.segment_index, found.resolved_def.types) {
        (None, Some(item)) => as_trait(item.def),
        _ => None,
    }
}

/// The impl of a number in a scope.
fn impl_in(scope: &ItemScope, number: u32) -> Option<ImplId>
    ensures value { result ≡ slice_get (impls_of_kind Any scope.now.impls) number }
{
    scope.impls().nth(number as usize)
}

/// The impl of a number in a module of a map.
pub fn impl_at(map: &DefMap, index: u32, number: u32) -> Option<ImplId>
    ensures value { result ≡ slice_get (impls_of map.now index) number }
{
    match map.scope(index) {
        Some(scope) => impl_in(scope, number),
        None => None,
    }
}

/// The source item of a node of this kind in a trait or an impl.
fn item_at(
    alloc: Global,
    tables: &Tables,
    kind: AstKind,
    loc: ItemLoc<ItemContainerId>,
) -> Result<Option<SourceItem>, AllocError>
    ensures value { IfOk result (λ o. o ≡ source_item_of tables.now kind loc.file_id loc.block loc.id) }
{
    match source_at(alloc, tables, loc.file_id, loc.block)? {
        Some(source) => Ok(Some(SourceItem {
            source,
            kind: SourceKind::Node(kind),
            id: loc.id,
        })),
        None => Ok(None),
    }
}

/// The source item of an item of a trait or an impl.
fn assoc_item_at(
    alloc: Global,
    tables: &Tables,
    item: AssocItemId,
) -> Result<Option<SourceItem>, AllocError>
    ensures value { IfOk result (λ o. o ≡ assoc_source tables.now item) }
{
    match item {
        AssocItemId::FunctionId(id) => item_at(alloc, tables, AstKind::Fn, id.loc),
        AssocItemId::ConstId(id) => item_at(alloc, tables, AstKind::Const, id.loc),
        AssocItemId::TypeAliasId(id) => item_at(alloc, tables, AstKind::TypeAlias, id.loc),
    }
}

/// An item of a list, by its name.
fn named_at(
    alloc: Global,
    tables: &Tables,
    item: &(Name, AssocItemId),
) -> Result<Option<AssocItem>, AllocError>
    ensures value { IfOk result (λ o. o ≡ named_source tables.now item.now) }
{
    match assoc_item_at(alloc, tables, item.1)? {
        Some(def) => {
            let name = item.0.clone()?;
            Ok(Some(AssocItem { name, def }))
        }
        None => Ok(None),
    }
}

/// A call of a list.
fn called_at(
    alloc: Global,
    tables: &Tables,
    call: (AstId, MacroCallId),
) -> Result<Option<CalledItem>, AllocError>
    ensures value { IfOk result (λ o. o ≡ called_source tables.now call) }
{
    match node_at(alloc, tables, call.0)? {
        Some(item) => Ok(Some(CalledItem {
            item,
            kind: SourceCallKind::FnLike,
        })),
        None => Ok(None),
    }
}

fn all_named(
    alloc: Global,
    tables: &Tables,
    items: &[(Name, AssocItemId)],
) -> Result<Vec<AssocItem>, AllocError>
    ensures value { IfOk result (λ told. told.items ≡ filter_map (named_source tables.now) items.now) }
{
    let mut told = Vec::new(alloc);
    for item in items {
        if let Some(next) = named_at(alloc, tables, item)? {
            told.push(next)?;
        }
    }
    Ok(told)
}

fn all_called(
    alloc: Global,
    tables: &Tables,
    calls: &[(AstId, MacroCallId)],
) -> Result<Vec<CalledItem>, AllocError>
    ensures value { IfOk result (λ told. told.items ≡ filter_map (called_source tables.now) calls.now) }
{
    let mut told = Vec::new(alloc);
    for call in calls {
        if let Some(next) = called_at(alloc, tables, *call)? {
            told.push(next)?;
        }
    }
    Ok(told)
}

/// The items of a trait or an impl of one of the maps, in source items.
pub fn items_at(
    alloc: Global,
    tables: &Tables,
    maps: &DefMaps<'_>,
    items: &[(Name, AssocItemId)],
    calls: &[(AstId, MacroCallId)],
    diagnostics: &DefDiagnostics,
) -> Result<Items, AllocError>
    ensures value { IfOk result (λ told. told ≡ items_told tables.now (maps_of maps.now) (listing_of items.now calls.now diagnostics.now)) }
{
    let items = all_named(alloc, tables, items)?;
    let calls = all_called(alloc, tables, calls)?;
    let diagnostics = diagnostics_at(alloc, tables, maps, diagnostics.as_slice())?;
    Ok(Items {
        items: AssocItems::new(items),
        calls: CalledItems::new(calls),
        diagnostics: Diagnostics::new(diagnostics),
    })
}
