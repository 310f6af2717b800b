//! Diagnostics of a map, in source items.
ghost use Rattle.std.specs.Prelude.{◌≡◌, IfOk};
ghost use Rattle.hir_session_state.specs.HirBase.Cfg.{cfg_text, cfg_view};
ghost use Rattle.hir_session_state.specs.HirNameres.DefMaps.{maps_of};
ghost use Rattle.hir_session_state.specs.HirDefMapRules.Diagnostics.{diagnostic_view, kind_view};
ghost use Rattle.hir_session_answers.specs.Diagnostics.{diagnostic_source, diagnostic_with, diagnostics_in, kind_about, node_source};

use crate::source_items::definitions::module_at;
use crate::source_items::source_calls::{how, source_at};
use hir_base::ast_id::AstId;
use hir_base::cfg::CfgExpr;
use hir_base::text::Text;
use hir_session_state::hir_def_map::def_maps::DefMaps;
use hir_session_state::hir_def_map::nameres::diagnostics::{DefDiagnostic, DefDiagnosticKind};
use hir_session_state::hir_messages::answer::{Definition, SourceItem, SourceKind};
use hir_session_state::hir_messages::diagnostic::{CalledItem, Diagnostic, DiagnosticKind, Texts};
use hir_tables::Tables;
use std::alloc::{AllocError, Global};

/// The source item of a node.
pub fn node_at(
    alloc: Global,
    tables: &Tables,
    node: AstId,
) -> Result<Option<SourceItem>, AllocError>
    ensures value { IfOk result (λ o. o ≡ node_source tables.now node) }
{
    match source_at(alloc, tables, node.file_id, node.block)? {
        Some(source) => Ok(Some(SourceItem {
            source,
            kind: SourceKind::Node(node.kind),
            id: node.id,
        })),
        None => Ok(None),
    }
}

/// The same texts; their bytes are shared.
fn shared(alloc: Global, texts: &[Text]) -> Result<Texts, AllocError>
    ensures value { IfOk result (λ copy. copy ≡ texts.now) }
{
    let mut copy = Vec::new(alloc);
    for text in texts {
        copy.push(text.clone()?)?;
    }
    Ok(Texts::new(copy))
}

/// A condition as a page prints it.
fn printed(alloc: Global, cfg: &CfgExpr) -> Result<Text, AllocError>
    ensures value { IfOk result (λ text. text ≡ cfg_text (cfg_view cfg.now)) }
{
    Text::from_string(format!(in alloc; "{cfg}")?)
}

/// What is wrong with an item.
fn kind_with(
    alloc: Global,
    kind: &DefDiagnosticKind,
    item: SourceItem,
) -> Result<DiagnosticKind, AllocError>
    ensures value { IfOk result (λ told. told ≡ kind_about (kind_view kind.now) item) }
{
    match kind {
        DefDiagnosticKind::UnresolvedModule { candidates, .. } => {
            let candidates = shared(alloc, candidates.as_slice())?;
            Ok(DiagnosticKind::UnresolvedModule { candidates, item })
        }
        DefDiagnosticKind::UnresolvedExternCrate { .. } => {
            Ok(DiagnosticKind::UnresolvedExternCrate { item })
        }
        DefDiagnosticKind::UnresolvedImport { index, .. } => {
            Ok(DiagnosticKind::UnresolvedImport {
                item,
                place: *index,
            })
        }
        DefDiagnosticKind::UnconfiguredCode { cfg, .. } => {
            let cfg = printed(alloc, cfg)?;
            Ok(DiagnosticKind::UnconfiguredCode { cfg, item })
        }
        DefDiagnosticKind::UnresolvedMacroCall { ast, path } => {
            let path = path.clone()?;
            let call = CalledItem {
                item,
                kind: how(*ast),
            };
            Ok(DiagnosticKind::UnresolvedMacroCall { call, path })
        }
        DefDiagnosticKind::UnimplementedBuiltinMacro { .. } => {
            Ok(DiagnosticKind::UnimplementedBuiltinMacro { item })
        }
        DefDiagnosticKind::InvalidDeriveTarget { id, .. } => {
            Ok(DiagnosticKind::InvalidDeriveTarget { attr: id.0, item })
        }
        DefDiagnosticKind::MalformedDerive { id, .. } => {
            Ok(DiagnosticKind::MalformedDerive { attr: id.0, item })
        }
        DefDiagnosticKind::MacroDefError { message, .. } => {
            let message = message.clone()?;
            Ok(DiagnosticKind::MacroDefError { item, message })
        }
        DefDiagnosticKind::MacroError { path, err, .. } => {
            let path = path.clone()?;
            let error = err.clone()?;
            Ok(DiagnosticKind::MacroError { error, item, path })
        }
    }
}

/// What is wrong with an item, in a module, if both are there.
fn told_of(
    alloc: Global,
    kind: &DefDiagnosticKind,
    in_module: Option<Definition>,
    item: Option<SourceItem>,
) -> Result<Option<Diagnostic>, AllocError>
    ensures value { IfOk result (λ told. told ≡ diagnostic_with (kind_view kind.now) in_module item) }
{
    match (in_module, item) {
        (Some(in_module), Some(item)) => {
            let kind = kind_with(alloc, kind, item)?;
            Ok(Some(Diagnostic { in_module, kind }))
        }
        _ => Ok(None),
    }
}

/// A diagnostic, in source items.
fn diagnostic_at(
    alloc: Global,
    tables: &Tables,
    maps: &DefMaps<'_>,
    found: &DefDiagnostic,
) -> Result<Option<Diagnostic>, AllocError>
    ensures value { IfOk result (λ told. told ≡ diagnostic_source tables.now (maps_of maps.now) (diagnostic_view found.now)) }
{
    let within = module_at(alloc, tables, maps, found.in_module)?;
    let item = node_at(alloc, tables, found.kind.ast_id())?;
    told_of(alloc, &found.kind, within, item)
}

/// Diagnostics of a map, in source items.
pub fn diagnostics_at(
    alloc: Global,
    tables: &Tables,
    maps: &DefMaps<'_>,
    found: &[DefDiagnostic],
) -> Result<Vec<Diagnostic>, AllocError>
    ensures value { IfOk result (λ told. told.items ≡ diagnostics_in tables.now (maps_of maps.now) found.now) }
{
    let mut told = Vec::new(alloc);
    for diagnostic in found {
        if let Some(next) = diagnostic_at(alloc, tables, maps, diagnostic)? {
            told.push(next)?;
        }
    }
    Ok(told)
}
