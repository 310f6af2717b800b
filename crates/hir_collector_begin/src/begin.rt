//! What a run of the collector begins with: the root module with what all modules find, and the items to which its tree leads.
ghost use Rattle.std.specs.Prelude.{◌≡◌, ◌<◌, ◌&&◌, IfOk, IsSome, None, OnOk, false, is_none, is_some, length, not, option_map, unwrap_or, []};
ghost use Rattle.hir_mod_collector.specs.HirTables.Tables.{KeepsTables, source_of};
ghost use Rattle.hir_nameres.specs.WorldParts.{part_of};
ghost use Rattle.hir_mod_collector.specs.HirDefMapRules.Overlay.{map_in};
ghost use Rattle.hir_nameres.specs.World.{finished_in};
ghost use Rattle.hir_mod_collector.specs.HirCollectorRules.Workspace.{config_view, dependencies_of, options_of};
ghost use Rattle.hir_mod_collector.specs.HirCollectorRules.Keys.{Environment, environment};
ghost use Rattle.hir_mod_collector.specs.HirCollectorRules.ModuleFiles.{IsFileMeant, file_of_tree, is_file_meant};
ghost use Rattle.hir_mod_collector.specs.HirCollectorRules.Start.{began, core_of, exports_macros, holders_by, id_of, is_declared, is_proc_macro_by, root_site, tree_visits};
ghost use Rattle.hir_mod_collector.specs.HirCollectorRules.CallMoves.{ComesToRest, IsReady};
ghost use Rattle.hir_mod_collector.specs.HirCollectorRules.Calls.{AreCallsPlaced, IsMeantAt};
ghost use Rattle.hir_mod_collector.specs.HirCollectorRules.State.{at_rest, core_in, joined};
ghost use Rattle.hir_mod_collector.specs.HirCollectorRules.Steps.{Steps};
ghost use Rattle.hir_mod_collector.specs.HirCollectorRules.Derivation.{IsSpent};
ghost use Rattle.hir_mod_collector.specs.HirCollectorRules.Moves.{OnceGrown};
ghost use Rattle.hir_mod_collector.specs.HirCollectorImports.Outside.{begins_inside, begins_outside};

use hir_base::ast_id::FileId;
use hir_base::cfg_options::CfgOptions;
use hir_base::ids::{MapId, ModuleId};
use hir_def_map::nameres::local_def_map::LocalDefMap;
use hir_def_map::world::World;
use hir_def_map::world::part::WorldPart;
use hir_item_tree::item_tree::ItemTree;
use hir_item_tree::source_tree::SourceTree;
use hir_item_tree::tree_id::{TreeId, TreeKey};
use hir_mod_collector::hir_collector_rules::site::Site;
use hir_mod_collector::hir_collector_rules::source_database::{
    Config, CrateRoot, Dependency, SourceDatabase,
};
use hir_mod_collector::hir_collector_rules::start::{Start, StepError};
use hir_mod_collector::hir_collector_start::sources::source_at;
use hir_mod_collector::hir_collector_start::start_data::{start_data, start_local};
use hir_mod_collector::hir_collector_state::def_collector::DefCollector;
use hir_mod_collector::hir_crate_graph::crate_set::CrateSet;
use hir_mod_collector::hir_mod_resolution::mod_resolution::file_of_tree;
use hir_mod_collector::mod_collector::walk_all;
use hir_mod_dir::ModDir;
use hir_tables::Tables;
use std::alloc::{AllocError, Global};
use std::rc::Rc;

/// Whether the number of a file means something, if there is one.
pub fn is_file_meant(locations: &Tables, file: Option<FileId>) -> bool
    ensures value { result ≡ is_file_meant locations.now file }
{
    match file {
        Some(file) => locations.file(file).is_some(),
        None => true,
    }
}

/// Whether the number of a block means something, but not that of the file in which it is written.
pub fn lacks_its_file(locations: &Tables, tree: TreeId) -> bool
    ensures value { result ≡ is_some (source_of locations.now tree) && not (is_file_meant locations.now (file_of_tree tree)) }
{
    locations.source_of(tree).is_some() && !is_file_meant(locations, file_of_tree(tree))
}

/// The modules that hold a block, the innermost first; none holds a crate.
#[tactic(auto, unfolding(hir_nameres::specs::World::finished_in))]
pub fn holders_by(alloc: Global, world: &World, start: Start) -> Result<Vec<ModuleId>, AllocError>
    ensures value { IfOk result (λ holders. holders.items ≡ holders_by (finished_in world.now.maps) start) }
{
    let mut holders = Vec::new(alloc);
    let Some(block) = start.block() else {
        return Ok(holders);
    };
    holders.push(block.parent)?;
    match world.maps.get(&block.parent.map) {
        Some(finished) => {
            holders.extend_from_slice(finished.holders.as_slice())?;
            Ok(holders)
        }
        None => Ok(holders),
    }
}

/// Whether one of the crates that paths begin with lies in a map.
pub fn begins_inside(own: MapId, local: &LocalDefMap) -> bool
    ensures value { result ≡ begins_inside own local.now }
{
    let mut left = local.extern_prelude();
    'next: while let Some((_, entry)) = left.next() {
        if entry.0.map == own {
            return true;
        }
    }
    false
}

/// Whether none does, where the map is a block's.
pub fn begins_outside(own: MapId, local: &LocalDefMap) -> bool
    ensures value { result ≡ begins_outside own local.now }
{
    own.block.is_none() || !begins_inside(own, local)
}

/// Whether nothing that a run reads speaks of its own map: that isn't finished, and where it is a block's, no path begins with a
/// module of it.
pub fn is_apart(world: &World, start: Start, run: &DefCollector) -> bool
    ensures value { result ≡ is_none (map_in (finished_in world.now.maps) (id_of start)) && begins_outside (core_in run.now).map.id (core_in run.now).local }
{
    world.map(start.map_id()).is_none() && begins_outside(run.map().id(), run.local())
}

/// Whether a crate is a procedural macro's; one that isn't there is none.
pub fn is_proc_macro(krate: Option<&CrateRoot>) -> bool
    ensures value { result ≡ is_proc_macro_by (option_map (λ c. c.now) krate.entry) }
{
    match krate {
        Some(krate) => krate.is_proc_macro,
        None => false,
    }
}

/// Whether functions of the root export macros: those of a procedural-macro crate, and none of a block.
pub fn exports_macros(start: Start, krate: Option<&CrateRoot>) -> bool
    ensures value { result ≡ exports_macros start (option_map (λ c. c.now) krate.entry) }
{
    match start {
        Start::Crate { .. } => is_proc_macro(krate),
        Start::Block { .. } => false,
    }
}

/// What a crate depends on; nothing where it isn't there.
pub fn dependencies_of(config: Option<&Config>) -> &[Dependency]
    ensures value { result.now ≡ dependencies_of (option_map (λ c. config_view c.now) config.entry) }
{
    match config {
        Some(config) => config.dependencies.as_slice(),
        None => &[],
    }
}

/// The options that are set in a crate; none where it isn't there.
pub fn options_of(alloc: Global, config: Option<&Config>) -> Result<CfgOptions, AllocError>
    ensures value { IfOk result (λ options. options ≡ options_of (option_map (λ c. config_view c.now) config.entry)) }
{
    match config {
        Some(config) => Ok(config.options.clone()?),
        None => Ok(CfgOptions::new(alloc)),
    }
}

/// The direct and transitive dependencies of a crate; none where it isn't there.
pub fn transitive_of(
    alloc: Global,
    transitive: Option<&Rc<CrateSet>>,
) -> Result<Rc<CrateSet>, AllocError>
    ensures value { IfOk result (λ crates. crates.value ≡ unwrap_or (option_map (λ t. t.now.value) transitive.entry) []) }
{
    match transitive {
        Some(transitive) => Ok(transitive.clone()?),
        None => Ok(Rc::new(alloc, CrateSet::new(alloc))?),
    }
}

/// The same dependencies again.
pub fn cloned(alloc: Global, dependencies: &[Dependency]) -> Result<Vec<Dependency>, AllocError>
    ensures value { IfOk result (λ copies. copies.items ≡ dependencies.now) }
{
    let mut copies = Vec::new(alloc);
    for dependency in dependencies {
        copies.push(dependency.clone()?)?;
    }
    Ok(copies)
}

/// The root module with what all modules find, over a tree.
pub fn fresh(
    alloc: Global,
    world: WorldPart<'_>,
    tree: &ItemTree,
    is_proc_macro: bool,
    config: Option<&Config>,
    transitive: &Rc<CrateSet>,
    holders: &[ModuleId],
    start: Start,
    id: TreeId,
) -> Result<DefCollector, AllocError>
    ensures value { IfOk result (λ run. core_in run
        ≡ core_of (part_of world.entry) tree.now is_proc_macro (option_map (λ c. config_view c.now) config.entry) transitive.now.value holders.now start id) }
{
    let data = start_data(alloc, world, tree, transitive.clone()?, start)?;
    let dependencies = dependencies_of(config);
    let local = start_local(alloc, world, &data, dependencies, start)?;
    let copies = cloned(alloc, dependencies)?;
    let options = options_of(alloc, config)?;
    DefCollector::start(
        alloc,
        world,
        data,
        local,
        copies,
        options,
        is_proc_macro,
        holders,
        start,
        id,
    )
}

/// The root module with what all modules find, and with all items handled to which its tree leads; calls wait.
pub fn begin<D: SourceDatabase>(
    alloc: Global,
    db: &mut D,
    world: WorldPart<'_>,
    locations: &mut Tables,
    transitive: &Rc<CrateSet>,
    holders: &[ModuleId],
    start: Start,
    id: TreeId,
) -> Result<DefCollector, StepError>
    requires file { IsSome (source_of locations.old id) → IsFileMeant locations.old (file_of_tree id) }
    ensures kept { KeepsTables locations.old locations.new }
    ensures same { D.workspace db.new ≡ D.workspace db.old }
    ensures placed { AreCallsPlaced locations.old → AreCallsPlaced locations.new }
    ensures ready { IfOk result (λ run. IsReady locations.new (part_of world.entry) (core_in run)) }
    ensures ok { IfOk result (λ run. Steps (environment locations.new (D.workspace db.old)) (part_of world.entry)
        (began locations.new (D.workspace db.old) (part_of world.entry) transitive.now.value holders.now start id) (at_rest (core_in run))) }
    ensures grown { IfOk result (λ run. IsSome (source_of locations.old id) → OnceGrown locations.new (D.workspace db.old) (λ env. Steps env (part_of world.entry)
        (began env.tables (D.workspace db.old) (part_of world.entry) transitive.now.value holders.now start id) (at_rest (core_in run)))) }
    ensures idle { IfOk result (λ run. source_of locations.old id ≡ None → (env : Environment) → ComesToRest env (part_of world.entry) (core_in run) (core_in run) false) }
    ensures many { result ≡ Err StepError.TooMany → IsSpent (environment locations.new (D.workspace db.old)) (part_of world.entry)
        (began locations.new (D.workspace db.old) (part_of world.entry) transitive.now.value holders.now start id) }
{
    let krate = start.krate();
    let source = source_at(alloc, db, locations, TreeKey { krate, id })?;
    let tree = source.tree();
    let is_proc_macro = exports_macros(start, db.krate(krate));
    let mut run = fresh(
        alloc,
        world,
        tree,
        is_proc_macro,
        db.config(krate),
        transitive,
        holders,
        start,
        id,
    )?;
    if locations.source_of(id).is_none() {
        return Ok(run);
    }
    walk_root(&mut run, db, world, locations, &source, id)?;
    Ok(run)
}

/// Whether the items of a tree are declared: those of a file that is disabled at its top are not, those of a block always.
pub fn is_declared(id: TreeId, tree: &ItemTree) -> bool
    ensures value { result ≡ is_declared id tree.now }
{
    id.block.is_some() || tree.top_level_attrs().is_enabled()
}

/// Handles the items of a source that are written in the root module, if they are declared.
pub fn walk_root<D: SourceDatabase>(
    run: &mut DefCollector,
    db: &mut D,
    world: WorldPart<'_>,
    locations: &mut Tables,
    source: &Rc<SourceTree>,
    id: TreeId,
) -> Result<(), StepError>
    requires in_range { 0 < length (core_in run.old).map.modules }
    requires meant { IsMeantAt locations.old (root_site id) }
    ensures kept { KeepsTables locations.old locations.new }
    ensures placed { AreCallsPlaced locations.old → AreCallsPlaced locations.new }
    ensures same { D.workspace db.new ≡ D.workspace db.old }
    ensures ok { OnOk result (OnceGrown locations.new (D.workspace db.old) (λ env. Steps env (part_of world.entry)
        (joined (core_in run.old) (tree_visits (root_site id) source.now.value.tree)) (at_rest (core_in run.new)))) }
    ensures many { result ≡ Err StepError.TooMany → IsSpent (environment locations.new (D.workspace db.old)) (part_of world.entry)
        (joined (core_in run.old) (tree_visits (root_site id) source.now.value.tree)) }
{
    if !is_declared(id, source.tree()) {
        return Ok(());
    }
    let site = Site {
        home: 0,
        tree: id,
        file: file_of_tree(id),
        extern_block: None,
        dir: ModDir::root(),
        level: 0,
    };
    let ids = source.tree().top_level_items();
    walk_all(run, db, world, locations, source, &site, ids)?;
    Ok(())
}
