//! The diagnostics of a run.
ghost use Rattle.std.specs.Prelude.{◌≡◌, ◌++◌, [], IfOk, OnOk, drop, map};
ghost use Rattle.hir_collector_rules.specs.HirBase.Cfg.{cfg_view};
ghost use Rattle.hir_collector_rules.specs.HirNameres.WorldParts.{part_of};
ghost use Rattle.hir_collector_rules.specs.CrateTop.{with_names};
ghost use Rattle.hir_collector_rules.specs.State.{eager_among};
ghost use Rattle.hir_collector_rules.specs.Reports.{IsUnconfigured, IsUnresolvedModule, begins_with, call_report, crate_names, crates_among, report_by, reports_of, unresolved_among, unresolved_calls, with_diagnostics};

use crate::called::told_path;
use hir_base::ast_id::{AstId, AstKind};
use hir_base::cfg::CfgExpr;
use hir_base::cfg_options::CfgOptions;
use hir_base::ids::{ExternCrateId, ModuleId};
use hir_base::mod_path::PathKind;
use hir_base::name::Name;
use hir_base::text::Text;
use hir_collector_rules::hir_import_rules::{ImportDirective, ImportSource, Taken};
use hir_collector_rules::hir_nameres::nameres::DefMap;
use hir_collector_rules::hir_nameres::nameres::diagnostics::DefDiagnostic;
use hir_collector_rules::hir_nameres::nameres::local_def_map::LocalDefMap;
use hir_collector_rules::hir_nameres::world::part::WorldPart;
use hir_collector_rules::macro_directive::{EagerMacro, EagerMacros, Fate, MacroDirective};
use hir_item_tree::shared_path::SharedPath;
use hir_mod_dir::Candidate;
use std::alloc::{AllocError, Global};
use std::collections::BTreeSet;

/// A node of a module that is left out by a condition.
pub fn unconfigured(
    alloc: Global,
    at: ModuleId,
    node: AstId,
    cfg: &CfgExpr,
    options: &CfgOptions,
) -> Result<DefDiagnostic, AllocError>
    ensures value { IfOk result (λ d. IsUnconfigured at node (cfg_view cfg.now) options.now d) }
{
    Ok(DefDiagnostic::unconfigured_code(at, node, cfg.clone(alloc)?, options.clone()?))
}

/// A `mod` item of a module whose file isn't found.
pub fn unresolved_module(
    alloc: Global,
    at: ModuleId,
    node: AstId,
    candidates: &[Candidate],
) -> Result<DefDiagnostic, AllocError>
    ensures value { IfOk result (λ d. IsUnresolvedModule at node (map (λ c. c.text) candidates.now) d) }
{
    let texts = texts_of(alloc, candidates)?;
    Ok(DefDiagnostic::unresolved_module(at, node, texts))
}

/// The texts of candidates.
fn texts_of(alloc: Global, candidates: &[Candidate]) -> Result<Vec<Text>, AllocError>
    ensures value { IfOk result (λ texts. texts.items ≡ map (λ c. c.text) candidates.now) }
{
    let mut texts = Vec::new(alloc);
    for candidate in candidates {
        texts.push(candidate.text.clone()?)?;
    }
    Ok(texts)
}

/// Adds the name of the crate that an `extern crate` names.
fn add_crate(
    alloc: Global,
    names: &mut BTreeSet<Name>,
    import: &ImportDirective,
) -> Result<(), AllocError>
    ensures ok { OnOk result (names.new.keys ≡ with_names names.old.keys (crate_names import.now.source import.now.path.segments)) }
{
    match import.source {
        ImportSource::Use { .. } => Ok(()),
        ImportSource::ExternCrate { .. } => {
            let path = import.path.to_path(alloc)?;
            add_all(names, path.segments())
        }
    }
}

fn add_all(names: &mut BTreeSet<Name>, others: &[Name]) -> Result<(), AllocError>
    ensures ok { OnOk result (names.new.keys ≡ with_names names.old.keys others.now) }
{
    for name in others {
        names.insert(name.clone()?)?;
    }
    Ok(())
}

/// The names of the crates that the `extern crate`s name that were never taken.
pub fn unresolved_crates(
    alloc: Global,
    reached: &[ImportDirective],
    taken: &[Taken],
) -> Result<BTreeSet<Name>, AllocError>
    ensures value { IfOk result (λ names. names.keys ≡ crates_among [] (unresolved_among reached.now taken.now)) }
{
    let mut names = BTreeSet::new(alloc);
    let mut left = reached;
    let mut takings = taken;
    'next: while let [import, imports @ ..] = left {
        let [taking, others @ ..] = takings else {
            return Ok(names);
        };
        if taking.is_untaken() {
            add_crate(alloc, &mut names, import)?;
        }
        left = imports;
        takings = others;
    }
    Ok(names)
}

/// Whether a path begins with one of these names.
fn begins_with(names: &BTreeSet<Name>, path: &SharedPath) -> bool
    ensures value { result ≡ begins_with names.now.keys path.now.kind path.now.segments }
{
    match path.kind() {
        PathKind::Plain | PathKind::Abs => match path.first() {
            Some(first) => names.contains(first),
            None => false,
        },
        PathKind::Super(_) | PathKind::Crate | PathKind::DollarCrate(_) => false,
    }
}

/// The node of an `extern crate`.
fn node_of_crate(id: ExternCrateId) -> AstId
    ensures value { result ≡ record { file_id = id.loc.file_id; block = id.loc.block; kind = AstKind.ExternCrate; id = id.loc.id } }
{
    AstId {
        file_id: id.loc.file_id,
        block: id.loc.block,
        kind: AstKind::ExternCrate,
        id: id.loc.id,
    }
}

/// Reports an import that was never taken, unless its path begins with the name of a crate that isn't there.
fn report(
    map: &mut DefMap,
    names: &BTreeSet<Name>,
    import: &ImportDirective,
) -> Result<(), AllocError>
    ensures ok { OnOk result (map.new ≡ with_diagnostics map.old (report_by (record { map = map.old.id; index = import.now.home }) names.now.keys import.now.source import.now.path)) }
{
    let at = ModuleId {
        map: map.id(),
        index: import.home,
    };
    match import.source {
        ImportSource::ExternCrate { id, .. } => map.add_diagnostic(
            DefDiagnostic::unresolved_extern_crate(at, node_of_crate(id)),
        ),
        ImportSource::Use { id, .. } => {
            if begins_with(names, &import.path) {
                return Ok(());
            }
            map.add_diagnostic(DefDiagnostic::unresolved_import(at, id.use_, id.idx))
        }
    }
}

/// Reports the imports that were never taken, in their order.
pub fn report_unresolved(
    map: &mut DefMap,
    names: &BTreeSet<Name>,
    reached: &[ImportDirective],
    taken: &[Taken],
) -> Result<(), AllocError>
    ensures ok { OnOk result (map.new ≡ with_diagnostics map.old (reports_of map.old.id names.now.keys (unresolved_among reached.now taken.now))) }
{
    let mut left = reached;
    let mut takings = taken;
    'next: while let [import, imports @ ..] = left {
        let [taking, others @ ..] = takings else {
            return Ok(());
        };
        if taking.is_untaken() {
            report(map, names, import)?;
        }
        left = imports;
        takings = others;
    }
    Ok(())
}

/// The eager macros that the first of some calls reached, and those of the others.
fn split_eager(eager: &[EagerMacros]) -> (&[EagerMacro], &[EagerMacros])
    ensures first { result.0.now ≡ eager_among eager.now 0 }
    ensures others { result.1.now ≡ drop 1 eager.now }
{
    match eager {
        [first, others @ ..] => (first.as_slice(), others),
        [] => (&[], &[]),
    }
}

/// What is told of the macro calls, paths of derives and attributes that wait, in their order.
pub fn unresolved_calls(
    alloc: Global,
    world: WorldPart<'_>,
    map: &DefMap,
    local: &LocalDefMap,
    calls: &[MacroDirective],
    fates: &[Fate],
    eager: &[EagerMacros],
) -> Result<Vec<DefDiagnostic>, AllocError>
    ensures value { IfOk result (λ told. told.items ≡ unresolved_calls (part_of world.entry) local.now map.now calls.now fates.now eager.now) }
{
    let mut told = Vec::new(alloc);
    let mut left = calls;
    let mut left_fates = fates;
    let mut left_eager = eager;
    'next: while let [call, others @ ..] = left {
        let [fate, other_fates @ ..] = left_fates else {
            return Ok(told);
        };
        let (seen, other_eager) = split_eager(left_eager);
        match fate {
            Fate::Waits => told.push(call_report(world, map, local, call, seen)?)?,
            Fate::Handled | Fate::GivenUp => {}
        }
        left = others;
        left_fates = other_fates;
        left_eager = other_eager;
    }
    Ok(told)
}

/// What is told of a call that reached no macro, or one that asks for a path first which reached none.
pub fn call_report(
    world: WorldPart<'_>,
    map: &DefMap,
    local: &LocalDefMap,
    call: &MacroDirective,
    seen: &[EagerMacro],
) -> Result<DefDiagnostic, AllocError>
    ensures value { IfOk result (λ d. d ≡ call_report (part_of world.entry) local.now map.now call.now seen.now) }
{
    let at = ModuleId {
        map: map.id(),
        index: call.site.home,
    };
    let path = told_path(world, map, local, call, seen);
    Ok(DefDiagnostic::unresolved_macro_call(at, call.call_kind(), path.clone()?))
}

/// Adds diagnostics, in their order.
pub fn report_all(map: &mut DefMap, told: Vec<DefDiagnostic>) -> Result<(), AllocError>
    ensures ok { OnOk result (map.new ≡ with_diagnostics map.old told.items) }
{
    for report in told {
        map.add_diagnostic(report)?;
    }
    Ok(())
}
