//! Items that hold others: modules, inline or in a file of their own, and extern blocks.
ghost use Rattle.std.specs.Prelude.{◌≡◌, ◌<◌, ◌≤◌, [], List, length, map, OnOk, IfOk, true};
ghost use Rattle.hir_collector_state.specs.HirBase.Cfg.{cfg_view};
ghost use Rattle.hir_collector_state.specs.HirItemTree.Collected.{is_enabled};
ghost use Rattle.hir_collector_state.specs.HirItemTree.KeptForest.{KeptItem, extern_block, holder, inline_module, leaf, outline_module};
ghost use Rattle.hir_collector_state.specs.HirItemTree.Rows.{items_at, numbers_of};
ghost use Rattle.hir_collector_state.specs.HirTables.Tables.{KeepsTables, TablesValue};
ghost use Rattle.hir_collector_state.specs.HirDefMapRules.Overlay.{Maps};
ghost use Rattle.hir_collector_state.specs.HirMapParts.declared.diagnostics.DefDiagnostic.{DefDiagnostic};
ghost use Rattle.hir_collector_state.specs.HirNameres.WorldParts.{part_of};
ghost use Rattle.hir_collector_state.specs.HirCollectorRules.Keys.{Environment};
ghost use Rattle.hir_collector_state.specs.HirCollectorRules.ItemIds.{module_id, node_of};
ghost use Rattle.hir_collector_state.specs.HirCollectorRules.Calls.{AreCallsPlaced};
ghost use Rattle.hir_collector_state.specs.HirCollectorRules.ModuleFiles.{IsFileMeant};
ghost use Rattle.hir_collector_state.specs.HirCollectorRules.Items.{file_origin, inline_origin};
ghost use Rattle.hir_collector_state.specs.HirCollectorRules.Reports.{IsUnconfigured, IsUnresolvedModule};
ghost use Rattle.hir_collector_state.specs.HirCollectorRules.State.{core_in};
ghost use Rattle.hir_collector_state.specs.HirCollectorRules.Steps.{inside_file, visit};
ghost use Rattle.hir_collector_state.specs.HirCollectorRules.TreeReads.{head_of};
ghost use Rattle.hir_collector_state.specs.HirCollectorRules.Derivation.{IsFull};
ghost use Rattle.hir_collector_state.specs.HirCollectorRules.Moves.{Drops, Handles, HandlesTooFar, MayTake, OnceGrown, Tells, opened};
ghost use Rattle.hir_mod_resolution.specs.Walking.{GoesInside, TakesFile, found_view, tasks_of};
ghost use Rattle.hir_collector_state.specs.Waiting.{IsNoted};

use crate::mod_resolution::{FoundFile, find_file, path_attr, path_of};
use hir_base::ast_id::{AstId, AstKind, EditionedFileId, HirFileId, SyntaxId};
use hir_base::cfg::CfgExpr;
use hir_base::ids::{ExternBlockId, ItemLoc, ModuleDefId};
use hir_base::name::Name;
use hir_collector_state::declare::declare;
use hir_collector_state::def_collector::DefCollector;
use hir_collector_state::hir_collector_rules::declaration::Declaration;
use hir_collector_state::hir_collector_rules::site::{ItemHead, Site};
use hir_collector_state::hir_collector_rules::source_database::SourceDatabase;
use hir_collector_state::hir_collector_rules::start::{STEP_LIMIT, StepError};
use hir_collector_state::hir_collector_start::diagnostics::{unconfigured, unresolved_module};
use hir_collector_state::hir_collector_start::macro_use::is_macro_use;
use hir_collector_state::hir_nameres::nameres::origin::ModuleOrigin;
use hir_collector_state::hir_nameres::world::part::WorldPart;
use hir_collector_state::hir_scope::per_ns::PerNs;
use hir_item_tree::rows::ModItemId;
use hir_item_tree::source_tree::SourceTree;
use hir_item_tree::tree_id::TreeId;
use hir_mod_dir::Candidate;
use hir_tables::Tables;
use std::rc::Rc;

/// Items that are visited next, and where they are written.
#[derive(Drop)]
pub enum Inside<'a> {
    Nothing,
    /// Those that an item holds, and whether that is a module marked `macro_use`.
    Held {
        site: Site,
        ids: &'a [ModItemId],
        macro_use: bool,
    },
    /// Those of a module's file, and whether the module is marked `macro_use`.
    File {
        site: Site,
        source: Rc<SourceTree>,
        macro_use: bool,
    },
}

/// The node of a `mod` item.
fn mod_node(tree: TreeId, id: SyntaxId) -> AstId
    ensures value { result ≡ node_of tree AstKind.Module id }
{
    AstId {
        file_id: tree.file,
        block: tree.block,
        kind: AstKind::Module,
        id,
    }
}

/// Makes a module, lists it and binds it; its number.
fn open(
    run: &mut DefCollector,
    world: WorldPart<'_>,
    site: &Site,
    head: ItemHead<'_>,
    name: &Name,
    origin: ModuleOrigin,
) -> Result<u32, StepError>
    requires in_range { site.now.home < length (core_in run.old).map.modules }
    ensures made { IfOk result (λ home. home ≡ length (core_in run.old).map.modules) }
    ensures ok { OnOk result (core_in run.new ≡ opened (part_of world.entry) (core_in run.old) site.now (head_of head.entry) name.now origin) }
    ensures noted { OnOk result (IsNoted run.old run.new) }
    ensures many { result ≡ Err StepError.TooMany → IsFull (core_in run.old).count (core_in run.old).map }
{
    let vis = run.visibility(world, site, head);
    let made = run.open(site.home, name.clone()?, origin, vis)?;
    let def = ModuleDefId::ModuleId(made);
    let declaration = Declaration {
        name: name.clone()?,
        def,
        items: PerNs::types(def, vis, None),
    };
    declare(run, site.home, declaration)?;
    Ok(made.index)
}

/// Handles a module that is written where it is declared; its items are visited next, unless it is too deep.
pub fn visit_inline<'a>(
    run: &mut DefCollector,
    world: WorldPart<'_>,
    site: &Site,
    head: ItemHead<'_>,
    name: &Name,
    ids: &'a [ModItemId],
) -> Result<Inside<'a>, StepError>
    requires in_range { site.now.home < length (core_in run.old).map.modules }
    requires enabled { is_enabled (head_of head).attributes ≡ true }
    ensures ok { IfOk result (λ inside. (env : Environment) (items : List KeptItem) → Handles env (part_of world.entry) (core_in run.old) (core_in run.new)
        (visit site.now (holder (head_of head.entry) (inline_module name.now) (items_at items (numbers_of ids.entry.now)))) (tasks_of site.now.home items inside)) }
    ensures noted { OnOk result (IsNoted run.old run.new) }
    ensures within { IfOk result (λ inside. (tables : TablesValue) → GoesInside tables (length (core_in run.new).map.modules) site.now (numbers_of ids.entry.now) inside) }
    ensures many { result ≡ Err StepError.TooMany → IsFull (core_in run.old).count (core_in run.old).map }
{
    let path = path_attr(head.attrs.attrs.as_slice());
    let dir = site
        .dir
        .descend_into_definition(run.allocator(), name, path)?;
    let node = mod_node(site.tree, head.id);
    let origin = ModuleOrigin::Inline {
        definition_tree_id: site.tree,
        definition: node,
    };
    let home = open(run, world, site, head, name, origin)?;
    let Some(dir) = dir else {
        return Ok(Inside::Nothing);
    };
    Ok(Inside::Held {
        site: Site {
            home,
            tree: site.tree,
            file: site.file,
            extern_block: None,
            dir,
            level: site.level,
        },
        ids,
        macro_use: is_macro_use(head.attrs),
    })
}

/// Makes a module whose items are in a file of its own; where they are written.
fn open_file(
    run: &mut DefCollector,
    world: WorldPart<'_>,
    site: &Site,
    head: ItemHead<'_>,
    name: &Name,
    file: &FoundFile,
) -> Result<Site, StepError>
    requires in_range { site.now.home < length (core_in run.old).map.modules }
    ensures inside { IfOk result (λ inside. inside ≡ inside_file (core_in run.old).map (found_view file.now)) }
    ensures ok { OnOk result (core_in run.new ≡ opened (part_of world.entry) (core_in run.old) site.now (head_of head.entry) name.now
        (file_origin site.now.tree head.entry.id (core_in run.old).map.crate_data.edition (found_view file.now))) }
    ensures noted { OnOk result (IsNoted run.old run.new) }
    ensures many { result ≡ Err StepError.TooMany → IsFull (core_in run.old).count (core_in run.old).map }
{
    let definition = EditionedFileId {
        file_id: file.id,
        edition: run.map().edition(),
    };
    let dir = file.dir.clone()?;
    let origin = ModuleOrigin::File {
        is_mod_rs: file.is_mod_rs,
        declaration: mod_node(site.tree, head.id),
        declaration_tree_id: site.tree,
        definition,
    };
    let home = open(run, world, site, head, name, origin)?;
    Ok(Site {
        home,
        tree: TreeId {
            file: HirFileId::File(definition),
            block: None,
        },
        file: Some(file.id),
        extern_block: None,
        dir,
        level: 0,
    })
}

/// Drops a `mod` item whose file is disabled at its top.
fn drop_file(
    run: &mut DefCollector,
    site: &Site,
    head: ItemHead<'_>,
    cfg: &CfgExpr,
) -> Result<(), StepError>
    ensures ok { OnOk result (Drops (IsUnconfigured (module_id (core_in run.old).map site.now.home) (node_of site.now.tree AstKind.Module head.entry.id) (cfg_view cfg.now) (core_in run.old).options) (core_in run.old) (core_in run.new)) }
    ensures noted { OnOk result (IsNoted run.old run.new) }
    ensures many { result ≡ Err StepError.TooMany → STEP_LIMIT ≤ (core_in run.old).count }
{
    let at = run.module_id(site.home);
    let node = mod_node(site.tree, head.id);
    let told = unconfigured(run.allocator(), at, node, cfg, run.options())?;
    run.tell(told)?;
    run.tick()?;
    Ok(())
}

/// Makes a module whose file isn't found: it has no items.
fn miss_file(
    run: &mut DefCollector,
    world: WorldPart<'_>,
    site: &Site,
    head: ItemHead<'_>,
    name: &Name,
    candidates: &[Candidate],
) -> Result<(), StepError>
    requires in_range { site.now.home < length (core_in run.old).map.modules }
    ensures ok { OnOk result (Tells (IsUnresolvedModule (module_id (core_in run.old).map site.now.home) (node_of site.now.tree AstKind.Module head.entry.id) (map (λ c. c.text) candidates.now))
        (opened (part_of world.entry) (core_in run.old) site.now (head_of head.entry) name.now (inline_origin site.now.tree head.entry.id)) (core_in run.new)) }
    ensures noted { OnOk result (IsNoted run.old run.new) }
    ensures many { result ≡ Err StepError.TooMany → IsFull (core_in run.old).count (core_in run.old).map
        × ((d : DefDiagnostic) × IsUnresolvedModule (module_id (core_in run.old).map site.now.home) (node_of site.now.tree AstKind.Module head.entry.id) (map (λ c. c.text) candidates.now) d) }
{
    let node = mod_node(site.tree, head.id);
    let at = run.module_id(site.home);
    let told = unresolved_module(run.allocator(), at, node, candidates)?;
    let origin = ModuleOrigin::Inline {
        definition_tree_id: site.tree,
        definition: node,
    };
    open(run, world, site, head, name, origin)?;
    run.tell(told)?;
    Ok(())
}

/// Handles a module whose items are in a file of its own, which was found; its items are visited next, unless the file
/// is disabled at its top.
fn take_file<'a>(
    run: &mut DefCollector,
    world: WorldPart<'_>,
    site: &Site,
    head: ItemHead<'_>,
    name: &Name,
    file: FoundFile,
) -> Result<Inside<'a>, StepError>
    requires in_range { site.now.home < length (core_in run.old).map.modules }
    ensures ok { IfOk result (λ inside. TakesFile (part_of world.entry) site.now (head_of head.entry) name.now (found_view file) file.source.value (core_in run.old) (core_in run.new) inside) }
    ensures noted { OnOk result (IsNoted run.old run.new) }
    ensures many { result ≡ Err StepError.TooMany → IsFull (core_in run.old).count (core_in run.old).map × MayTake site.now (head_of head.entry) (found_view file) (core_in run.old) }
{
    if let Some(cfg) = &file.source.tree().top_level_attrs().disabled {
        drop_file(run, site, head, cfg)?;
        return Ok(Inside::Nothing);
    }
    let site = open_file(run, world, site, head, name, &file)?;
    let macro_use = is_macro_use(head.attrs) || is_macro_use(file.source.tree().top_level_attrs());
    Ok(Inside::File {
        site,
        source: file.source,
        macro_use,
    })
}

/// Handles a module whose items are in a file of its own.
pub fn visit_outline<'a, D: SourceDatabase>(
    run: &mut DefCollector,
    db: &mut D,
    world: WorldPart<'_>,
    locations: &mut Tables,
    site: &Site,
    head: ItemHead<'_>,
    name: &Name,
) -> Result<Inside<'a>, StepError>
    requires in_range { site.now.home < length (core_in run.old).map.modules }
    requires enabled { is_enabled (head_of head).attributes ≡ true }
    requires meant { IsFileMeant locations.old site.now.file }
    ensures kept { KeepsTables locations.old locations.new }
    ensures placed { AreCallsPlaced locations.old → AreCallsPlaced locations.new }
    ensures same { D.workspace db.new ≡ D.workspace db.old }
    ensures ok { IfOk result (λ inside. OnceGrown locations.new (D.workspace db.old) (λ env. (items : List KeptItem) → Handles env (part_of world.entry) (core_in run.old) (core_in run.new)
        (visit site.now (leaf (head_of head.entry) (outline_module name.now))) (tasks_of site.now.home items inside))) }
    ensures noted { OnOk result (IsNoted run.old run.new) }
    ensures within { IfOk result (λ inside. GoesInside locations.new (length (core_in run.new).map.modules) site.now [] inside) }
    ensures many { result ≡ Err StepError.TooMany → OnceGrown locations.new (D.workspace db.old)
        (λ env. HandlesTooFar env (part_of world.entry) (core_in run.old) (visit site.now (leaf (head_of head.entry) (outline_module name.now)))) }
{
    let path = path_attr(head.attrs.attrs.as_slice());
    let candidates = site.dir.candidates(run.allocator(), name, path)?;
    let declaring = path_of(locations, site.file)?;
    let found = find_file(
        run,
        db,
        locations,
        declaring.as_ref(),
        candidates.as_slice(),
    )?;
    let Some(file) = found else {
        miss_file(run, world, site, head, name, candidates.as_slice())?;
        return Ok(Inside::Nothing);
    };
    let inside = take_file(run, world, site, head, name, file)?;
    Ok(inside)
}

/// Lists an extern block; its items are visited next.
pub fn enter<'a>(
    run: &mut DefCollector,
    site: &Site,
    head: ItemHead<'_>,
    ids: &'a [ModItemId],
) -> Result<Inside<'a>, StepError>
    requires in_range { site.now.home < length (core_in run.old).map.modules }
    requires enabled { is_enabled (head_of head).attributes ≡ true }
    ensures ok { IfOk result (λ inside. (env : Environment) (finished : Maps) (items : List KeptItem) → Handles env finished (core_in run.old) (core_in run.new)
        (visit site.now (holder (head_of head.entry) extern_block (items_at items (numbers_of ids.entry.now)))) (tasks_of site.now.home items inside)) }
    ensures noted { OnOk result (IsNoted run.old run.new) }
    ensures within { IfOk result (λ inside. (tables : TablesValue) → GoesInside tables (length (core_in run.new).map.modules) site.now (numbers_of ids.entry.now) inside) }
    ensures many { result ≡ Err StepError.TooMany → STEP_LIMIT ≤ (core_in run.old).count }
{
    let id = ExternBlockId {
        loc: ItemLoc {
            container: run.module_id(site.home),
            file_id: site.tree.file,
            block: site.tree.block,
            id: head.id,
        },
    };
    let dir = site.dir.clone()?;
    run.list_extern_block(site.home, id)?;
    run.tick()?;
    Ok(Inside::Held {
        site: Site {
            home: site.home,
            tree: site.tree,
            file: site.file,
            extern_block: Some(id),
            dir,
            level: site.level,
        },
        ids,
        macro_use: false,
    })
}
