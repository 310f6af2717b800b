//! Items that define macros.
ghost use Rattle.std.specs.Prelude.{◌≡◌, ◌<◌, ◌≤◌, true, [], length, OnOk};
ghost use Rattle.hir_collector_state.specs.HirItemTree.Collected.{collected_of, is_enabled};
ghost use Rattle.hir_collector_state.specs.HirItemTree.KeptForest.{leaf, macro_def, macro_rules};
ghost use Rattle.hir_collector_state.specs.HirDefMapRules.Macros.{with_macro_data};
ghost use Rattle.hir_collector_state.specs.HirDefMapRules.Overlay.{Maps};
ghost use Rattle.hir_collector_state.specs.HirNameres.WorldParts.{part_of};
ghost use Rattle.hir_collector_state.specs.HirCollectorRules.State.{core_in, with_map};
ghost use Rattle.hir_collector_state.specs.HirCollectorRules.ItemIds.{macro_loc, node_of};
ghost use Rattle.hir_collector_state.specs.HirCollectorRules.Keys.{Environment};
ghost use Rattle.hir_collector_state.specs.HirCollectorRules.Macros.{is_exported};
ghost use Rattle.hir_collector_state.specs.HirCollectorRules.Reports.{is_unimplemented};
ghost use Rattle.hir_collector_state.specs.HirCollectorRules.Moves.{Handles, Makes, Walks, WalksTooFar};
ghost use Rattle.hir_collector_state.specs.HirCollectorRules.Steps.{closing, exporting, macro_data_of, reporting, visit};
ghost use Rattle.hir_collector_state.specs.HirCollectorRules.TreeReads.{head_of};
ghost use Rattle.hir_collector_state.specs.Waiting.{IsNoted};

use hir_base::ast_id::{AstId, AstKind, SyntaxId};
use hir_base::ids::{ModuleDefId, ModuleId};
use hir_base::macro_kind::{Macro2Id, MacroExpander, MacroId, MacroLoc, MacroRulesId};
use hir_base::name::Name;
use hir_collector_state::declare::bind;
use hir_collector_state::def_collector::DefCollector;
use hir_collector_state::hir_collector_rules::crate_attrs::says;
use hir_collector_state::hir_collector_rules::declaration::Declaration;
use hir_collector_state::hir_collector_rules::names::cloned;
use hir_collector_state::hir_collector_rules::site::{ItemHead, Site};
use hir_collector_state::hir_collector_rules::start::{STEP_LIMIT, StepError};
use hir_collector_state::hir_nameres::nameres::diagnostics::DefDiagnostic;
use hir_collector_state::hir_nameres::nameres::macro_data::MacroData;
use hir_collector_state::hir_nameres::world::part::WorldPart;
use hir_collector_state::hir_scope::per_ns::PerNs;
use hir_collector_state::hir_scope::visibility::Visibility;
use hir_item_tree::attrs::AttrsOrCfg;
use hir_item_tree::kinds::{Macro2, MacroRules};
use hir_item_tree::tree_id::TreeId;
use std::alloc::AllocError;

/// Whether `macro_rules` binds its macro at the root of the map too.
fn is_exported(attrs: &AttrsOrCfg) -> bool
    ensures value { result ≡ is_exported (collected_of attrs.now) }
{
    says(attrs.attrs.as_slice(), "macro_export")
}

/// The location of a macro that an item of a site defines.
fn macro_loc(run: &DefCollector, site: &Site, id: SyntaxId, expander: MacroExpander) -> MacroLoc
    ensures value { result ≡ macro_loc (core_in run.now).map site.now id expander }
{
    MacroLoc {
        container: run.module_id(site.home),
        file_id: site.tree.file,
        block: site.tree.block,
        id,
        expander,
    }
}

/// The node of an item that defines a macro.
fn macro_node(tree: TreeId, kind: AstKind, id: SyntaxId) -> AstId
    ensures value { result ≡ node_of tree kind id }
{
    AstId {
        file_id: tree.file,
        block: tree.block,
        kind,
        id,
    }
}

/// Whether nothing can expand a macro.
fn is_unimplemented(expander: MacroExpander) -> bool
    ensures value { result ≡ is_unimplemented expander }
{
    match expander {
        MacroExpander::Unimplemented => true,
        MacroExpander::Declarative(_)
        | MacroExpander::Builtin
        | MacroExpander::BuiltinEager
        | MacroExpander::BuiltinAttr
        | MacroExpander::BuiltinDerive => false,
    }
}

/// Reports a macro that nothing can expand.
fn report(
    run: &mut DefCollector,
    at: ModuleId,
    node: AstId,
    expander: MacroExpander,
) -> Result<(), AllocError>
    ensures ok { OnOk result (Makes (reporting at node expander) (core_in run.old) (core_in run.new)) }
    ensures noted { OnOk result (IsNoted run.old run.new) }
{
    if !is_unimplemented(expander) {
        return Ok(());
    }
    run.tell(DefDiagnostic::unimplemented_builtin_macro(at, node))
}

/// Keeps the name of a macro, and the attributes that deriving with it brings into scope.
fn describe(
    run: &mut DefCollector,
    makro: MacroId,
    name: &Name,
    helpers: &[Name],
) -> Result<(), AllocError>
    ensures ok { OnOk result (core_in run.new ≡ with_map (core_in run.old) (with_macro_data (core_in run.old).map makro (macro_data_of name.now helpers.now))) }
    ensures noted { OnOk result (IsNoted run.old run.new) }
{
    let what = MacroData {
        name: name.clone()?,
        helpers: cloned(run.allocator(), helpers)?,
    };
    run.describe_macro(makro, what)
}

/// Binds a macro that is exported at the root of the map.
fn export(
    run: &mut DefCollector,
    head: ItemHead<'_>,
    name: &Name,
    makro: MacroId,
) -> Result<(), AllocError>
    ensures ok { OnOk result (Makes (exporting (head_of head.entry) name.now makro) (core_in run.old) (core_in run.new)) }
    ensures noted { OnOk result (IsNoted run.old run.new) }
{
    if !is_exported(head.attrs) {
        return Ok(());
    }
    let items = PerNs::macros(makro, Visibility::Public, None);
    run.bind(0, name.clone()?, items)
}

/// Defines the macro of a `macro_rules` item, which is in textual scope behind it.
///
/// After rust-analyzer's `define_macro_rules`.
pub fn define_rules(
    run: &mut DefCollector,
    site: &Site,
    head: ItemHead<'_>,
    item: MacroRules<'_>,
) -> Result<(), StepError>
    requires in_range { site.now.home < length (core_in run.old).map.modules }
    requires enabled { is_enabled (head_of head).attributes ≡ true }
    ensures ok { OnOk result ((env : Environment) (finished : Maps) → Handles env finished (core_in run.old) (core_in run.new)
        (visit site.now (leaf (head_of head.entry) (macro_rules item.entry.name.now item.entry.expander item.entry.helpers.now))) []) }
    ensures noted { OnOk result (IsNoted run.old run.new) }
    ensures many { result ≡ Err StepError.TooMany → STEP_LIMIT ≤ (core_in run.old).count }
{
    let loc = macro_loc(run, site, head.id, item.expander);
    let makro = MacroId::MacroRulesId(MacroRulesId { loc });
    let node = macro_node(site.tree, AstKind::MacroRules, head.id);
    run.define_macro(node, makro)?;
    describe(run, makro, item.name, item.helpers)?;
    run.define_textual(site.home, item.name.clone()?, makro)?;
    export(run, head, item.name, makro)?;
    report(run, loc.container, node, item.expander)?;
    run.tick()?;
    Ok(())
}

/// Defines the macro of a `macro` item, and binds its name.
///
/// After rust-analyzer's `define_macro_def`.
pub fn define_macro(
    run: &mut DefCollector,
    world: WorldPart<'_>,
    site: &Site,
    head: ItemHead<'_>,
    item: Macro2<'_>,
) -> Result<(), StepError>
    requires enabled { is_enabled (head_of head).attributes ≡ true }
    ensures ok { OnOk result ((env : Environment) → Handles env (part_of world.entry) (core_in run.old) (core_in run.new)
        (visit site.now (leaf (head_of head.entry) (macro_def item.entry.name.now item.entry.expander item.entry.helpers.now))) []) }
    ensures noted { OnOk result (IsNoted run.old run.new) }
    ensures many { result ≡ Err StepError.TooMany → STEP_LIMIT ≤ (core_in run.old).count }
{
    let vis = run.visibility(world, site, head);
    let loc = macro_loc(run, site, head.id, item.expander);
    let makro = MacroId::Macro2Id(Macro2Id { loc });
    let node = macro_node(site.tree, AstKind::MacroDef, head.id);
    let declaration = Declaration {
        name: item.name.clone()?,
        def: ModuleDefId::MacroId(makro),
        items: PerNs::macros(makro, vis, None),
    };
    run.define_macro(node, makro)?;
    describe(run, makro, item.name, item.helpers)?;
    bind(run, site.home, declaration)?;
    report(run, loc.container, node, item.expander)?;
    run.tick()?;
    Ok(())
}

/// Closes a module whose items were visited: where it is marked `macro_use`, the module around it takes over its macros in
/// textual scope.
///
/// After rust-analyzer's `import_all_legacy_macros`.
pub fn close(
    run: &mut DefCollector,
    macro_use: bool,
    parent: u32,
    child: u32,
) -> Result<(), StepError>
    requires in_range { parent < length (core_in run.old).map.modules }
    ensures ok { OnOk result ((env : Environment) (finished : Maps) → Walks env finished (core_in run.old) (core_in run.new) (closing macro_use parent child)) }
    ensures noted { OnOk result (IsNoted run.old run.new) }
    ensures many { result ≡ Err StepError.TooMany → (env : Environment) (finished : Maps) → WalksTooFar env finished (core_in run.old) (closing macro_use parent child) }
{
    if !macro_use {
        return Ok(());
    }
    run.take_textual(parent, child)?;
    run.tick()?;
    Ok(())
}
