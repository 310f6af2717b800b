//! What the names of a crate's or a block's modules stand for, after rust-analyzer's `DefCollector`.
//!
//! A run begins with the root module, and with the items of the crate's root file or of the block on a worklist. The first item is taken off and
//! handled by the rule of its kind: a definition is listed and bound under its name, an inline module is made and its items
//! come next, a `use` adds its imports to those that wait. A `macro_rules` is in textual scope from there on, also in the
//! modules that are made later: each begins with what is in textual scope around it, and shares it.
//!
//! When that worklist is empty the imports are resolved, by `hir_import_resolution`. They wait on a worklist of their own, in
//! the order in which they were found, and each is tried once. A try resolves the path of the import and binds what it reaches;
//! a glob is recorded, as an edge from the module or enum that it reaches to the module in which it stands. What is bound in
//! a module goes along all edges out of it at once. And an import is tried again when something is bound that its path has
//! read. So a path can come to reach more, or something else: the import is then bound again, and a glob gets another edge.
//!
//! An item is handled once its attributes are done with. An attribute that is builtin and inert, a tool's, or a helper that a
//! derive brought into scope is passed. A `derive` lists paths, each of which waits for a macro; the item goes on. For any
//! other attribute the item waits.
//!
//! A macro call waits, as do paths of derives and attributes, in the order in which they were found, until the path reaches a
//! macro. Once imports rest those are tried, one after another, that are new or have read something that has changed since
//! they were tried (`hir_call_queue`): where one reaches a macro, that macro's text and the input of the call or the item are
//! asked for, and with them the expansion, whose items are handled as those of a file are, in the module of the call; those
//! of an attribute come in place of its item. A builtin derive stands for an impl instead, and the item of a builtin
//! attribute goes on behind it. Then imports are taken up again, those that came besides and those that have read something
//! that has changed since they rested, or all where not enough is known of that (`hir_import_resolution`); and so on, round by
//! round, until a round handles nothing. Then the first attribute that waits is given up, and its item goes on behind it. More
//! rounds than `ROUND_LIMIT` end a run.
//!
//! When no import waits, none would bind anything, no name is left to go along an edge, nothing that waits reaches a macro,
//! and no attribute waits, a run ends. That isn't told by these loops but by the rules in `specs/Steps`: each function below
//! makes one step by a rule, and the whole is a derivation at whose end this holds (`specs/Derivation`), unless rounds were
//! cut off.
//!
//! In the root of a procedural-macro crate functions export macros by their attributes. At the end other crates see those
//! macros there, and nothing else.
//!
//! A block's run reads besides the maps of what holds it: the module in which it is written, that of this one's block, and so
//! on. What is said of its crate, and the crates that its paths may begin with, it takes from the crate's map.
ghost use Rattle.std.specs.Prelude.{◌≡◌, ◌<◌, IfOk, false, is_none, option_map};
ghost use Rattle.hir_mod_collector.specs.HirTables.Tables.{KeepsTables, source_of};
ghost use Rattle.hir_mod_collector.specs.HirDefMapRules.Overlay.{Maps};
ghost use Rattle.hir_mod_collector.specs.HirNameres.World.{finished_in};
ghost use Rattle.hir_mod_collector.specs.HirCollectorRules.Workspace.{Workspace};
ghost use Rattle.hir_mod_collector.specs.HirCollectorRules.Keys.{AgreeOn};
ghost use Rattle.hir_mod_collector.specs.HirCollectorRules.Start.{beginning, holders_by};
ghost use Rattle.hir_mod_collector.specs.HirCollectorRules.Calls.{AreCallsPlaced};
ghost use Rattle.hir_mod_collector.specs.HirCollectorRules.Derivation.{Ends, IsOverlong, collected_view};
ghost use Rattle.hir_mod_collector.specs.HirCollectorRules.UnknownSources.{MeetsUnknownSource};

use hir_collector_begin::begin::{begin, holders_by, is_apart, lacks_its_file, transitive_of};
use hir_def_map::nameres::local_def_map::LocalDefMap;
use hir_def_map::world::World;
use hir_def_map::world::part::WorldPart;
use hir_item_tree::tree_id::TreeId;
pub use hir_macro_rounds::calls;
use hir_macro_rounds::calls::resolve_rounds;
pub use hir_mod_collector::hir_attr_resolution::attributes;
pub use hir_mod_collector::hir_collector_items::exports;
use hir_mod_collector::hir_collector_rules::collected::Collected;
use hir_mod_collector::hir_collector_rules::source_database::SourceDatabase;
pub use hir_mod_collector::hir_collector_rules::start::{
    CollectError, STEP_LIMIT, Start, StepError,
};
pub use hir_mod_collector::hir_collector_rules::{
    collected, declaration, macro_directive, shared_tree, site,
};
pub use hir_mod_collector::hir_mod_resolution::mod_resolution;
pub use hir_mod_collector::mod_collector;
use hir_tables::Tables;
use std::alloc::Global;

/// Finds what the names of a crate's or a block's modules stand for, beside the finished maps of the crates on which the
/// crate depends, and of a block those of its crate and of the modules that hold it.
///
/// `tree` is the tree of the crate's root file, or of the block in the file that its holder is written in; where its number
/// means nothing, nothing is declared. `local` is of no use, since what a block's paths may begin with stands beside its
/// crate's map in `world`. A file that is looked for, found or not, gets a number in `locations`, and so does a macro call
/// that reaches a macro, with its expansion. After rust-analyzer's `collect_defs`.
pub fn collect_defs<D: SourceDatabase>(
    alloc: Global,
    db: &mut D,
    world: &World,
    locations: &mut Tables,
    start: Start,
    tree: TreeId,
    _local: Option<&LocalDefMap>,
) -> Result<Collected, CollectError>
    ensures kept { KeepsTables locations.old locations.new }
    ensures same { D.workspace db.new ≡ D.workspace db.old }
    // Each call that gets a number is written where a number leads.
    ensures placed { AreCallsPlaced locations.old → AreCallsPlaced locations.new }

    // The answer is the end of a derivation over each workspace, beside finished maps, that agrees on what was asked for.
    ensures ends { IfOk result (λ c. (w : Workspace) (finished : Maps) → AgreeOn locations.new (collected_view c).asked (D.workspace db.old) (finished_in world.now.maps) w finished
        → Ends locations.new w finished (beginning start tree (option_map (λ l. l.now) _local.entry)) (collected_view c)) }
    // Steps lead on from the start to as many as are counted.
    ensures many { result ≡ Err CollectError.TooMany
        → IsOverlong locations.new (D.workspace db.old) (finished_in world.now.maps) (beginning start tree (option_map (λ l. l.now) _local.entry)) }
    // The file of the tree has no number, or steps lead to a macro that is written in a source which has none.
    ensures unknown { result ≡ Err CollectError.UnknownSource
        → MeetsUnknownSource locations.new (D.workspace db.old) (finished_in world.now.maps) (beginning start tree (option_map (λ l. l.now) _local.entry)) }
{
    if lacks_its_file(locations, tree) {
        return Err(CollectError::UnknownSource);
    }
    let transitive = transitive_of(alloc, db.transitive_dependencies(start.krate()))?;
    let held_by = holders_by(alloc, world, start)?;
    let holders = held_by.as_slice();
    let part = WorldPart::among(world, &transitive, holders);
    let is_unknown = locations.source_of(tree).is_none();
    let run = begin(
        alloc,
        db,
        part,
        locations,
        &transitive,
        holders,
        start,
        tree,
    )?;
    if is_unknown {
        let told = run.unresolved_calls(part)?;
        return Ok(run.finish(told, false, transitive)?);
    }
    let apart = is_apart(world, start, &run);
    let (run, round_limit_met) = resolve_rounds(run, db, part, locations, apart)?;
    let told = run.unresolved_calls(part)?;
    Ok(run.finish(told, round_limit_met, transitive)?)
}
