//! Answers to tables, in source items.
ghost use Rattle.std.specs.Prelude.{◌≡◌, IfOk};
ghost use Rattle.std.specs.Option.{option_and_then};
ghost use Rattle.hir_session_state.specs.HirNameres.DefMaps.{maps_of};
ghost use Rattle.hir_session_answers.specs.SourceItems.{import_source, value_import_source, maybe_source, together, answered_type, answered_value, answered_macro};
ghost use Rattle.hir_session_answers.specs.Answers.{shadow_mode_of, sub_ns_of, answer_in};

use crate::source_items::definitions::{definition_at, macro_at};
use crate::source_items::imports::{import_at, value_import_at};
use crate::source_items::visibilities::visibility_at;
use hir_base::ids::ModuleId;
use hir_base::mod_path::ModPath;
use hir_session_state::hir_def_map::def_maps::DefMaps;
use hir_session_state::hir_def_map::nameres::local_def_map::LocalDefMap;
use hir_session_state::hir_def_map::nameres::path_resolution::{
    BuiltinShadowMode, MacroSubNs, ResolveMode,
};
use hir_session_state::hir_messages::answer::{
    Answer, AnswerItem, AnswerVisibility, Definition, ImportSource,
};
use hir_session_state::hir_messages::command::{MacroStyle, Shadow};
use hir_session_state::hir_scope::imports::{ImportOrExternCrate, ImportOrGlob};
use hir_session_state::hir_scope::per_ns::{MacrosItem, TypesItem, ValuesItem};
use hir_tables::Tables;
use std::alloc::{AllocError, Global};

fn shadow_mode(shadow: Shadow) -> BuiltinShadowMode
    ensures value { result ≡ shadow_mode_of shadow }
{
    match shadow {
        Shadow::Module => BuiltinShadowMode::Module,
        Shadow::Other => BuiltinShadowMode::Other,
    }
}

fn sub_ns(style: Option<MacroStyle>) -> Option<MacroSubNs>
    ensures value { result ≡ sub_ns_of style }
{
    match style {
        Some(MacroStyle::Bang) => Some(MacroSubNs::Bang),
        Some(MacroStyle::Attr) => Some(MacroSubNs::Attr),
        None => None,
    }
}

/// The parts of an answer, if all are there.
fn all_of(
    def: Option<Definition>,
    import: Option<Option<ImportSource>>,
    vis: Option<AnswerVisibility>,
) -> Option<AnswerItem>
    ensures value { result ≡ together def import vis }
{
    match (def, import, vis) {
        (Some(def), Some(import), Some(vis)) => Some(AnswerItem { def, import, vis }),
        _ => None,
    }
}

/// What made a type or a macro, where an import did.
fn maybe_import(
    alloc: Global,
    tables: &Tables,
    by: Option<ImportOrExternCrate>,
) -> Result<Option<Option<ImportSource>>, AllocError>
    ensures value { IfOk result (λ o. o ≡ maybe_source (import_source tables.now) by) }
{
    match by {
        Some(by) => match import_at(alloc, tables, by)? {
            Some(source) => Ok(Some(Some(source))),
            None => Ok(None),
        },
        None => Ok(Some(None)),
    }
}

/// What made a value, where an import did.
fn maybe_value_import(
    alloc: Global,
    tables: &Tables,
    by: Option<ImportOrGlob>,
) -> Result<Option<Option<ImportSource>>, AllocError>
    ensures value { IfOk result (λ o. o ≡ maybe_source (value_import_source tables.now) by) }
{
    match by {
        Some(by) => match value_import_at(alloc, tables, by)? {
            Some(source) => Ok(Some(Some(source))),
            None => Ok(None),
        },
        None => Ok(Some(None)),
    }
}

/// What a type is answered.
pub fn type_at(
    alloc: Global,
    tables: &Tables,
    maps: &DefMaps<'_>,
    item: Option<TypesItem>,
) -> Result<Option<AnswerItem>, AllocError>
    ensures value { IfOk result (λ o. o ≡ option_and_then (answered_type tables.now (maps_of maps.now)) item) }
{
    match item {
        Some(item) => {
            let def = definition_at(alloc, tables, maps, item.def)?;
            let import = maybe_import(alloc, tables, item.import)?;
            let vis = visibility_at(alloc, tables, maps, item.vis)?;
            Ok(all_of(def, import, vis))
        }
        None => Ok(None),
    }
}

/// What a value is answered.
pub fn value_at(
    alloc: Global,
    tables: &Tables,
    maps: &DefMaps<'_>,
    item: Option<ValuesItem>,
) -> Result<Option<AnswerItem>, AllocError>
    ensures value { IfOk result (λ o. o ≡ option_and_then (answered_value tables.now (maps_of maps.now)) item) }
{
    match item {
        Some(item) => {
            let def = definition_at(alloc, tables, maps, item.def)?;
            let import = maybe_value_import(alloc, tables, item.import)?;
            let vis = visibility_at(alloc, tables, maps, item.vis)?;
            Ok(all_of(def, import, vis))
        }
        None => Ok(None),
    }
}

/// What a macro is answered.
pub fn macro_item_at(
    alloc: Global,
    tables: &Tables,
    maps: &DefMaps<'_>,
    item: Option<MacrosItem>,
) -> Result<Option<AnswerItem>, AllocError>
    ensures value { IfOk result (λ o. o ≡ option_and_then (answered_macro tables.now (maps_of maps.now)) item) }
{
    match item {
        Some(item) => {
            let def = macro_at(alloc, tables, item.def)?;
            let import = maybe_import(alloc, tables, item.import)?;
            let vis = visibility_at(alloc, tables, maps, item.vis)?;
            Ok(all_of(def, import, vis))
        }
        None => Ok(None),
    }
}

/// What a path means in a module of one of the maps, in source items.
pub fn answer_at(
    alloc: Global,
    tables: &Tables,
    maps: &DefMaps<'_>,
    local: &LocalDefMap,
    at: ModuleId,
    path: &ModPath,
    shadow: Shadow,
    style: Option<MacroStyle>,
) -> Result<Answer, AllocError>
    ensures value { IfOk result (λ a. a ≡ answer_in tables.now (maps_of maps.now) local.now at path.now shadow style) }
{
    let mode = ResolveMode::Other;
    let found = maps.resolve_path_fp_with_macro(
        Some(local),
        mode,
        at,
        path,
        shadow_mode(shadow),
        sub_ns(style),
    );
    let items = found.resolved_def;
    let types = type_at(alloc, tables, maps, items.types)?;
    let values = value_at(alloc, tables, maps, items.values)?;
    let macros = macro_item_at(alloc, tables, maps, items.macros)?;
    Ok(Answer {
        types,
        values,
        macros,
        stop: found.segment_index,
    })
}
