//! The walk over the items of a tree.
ghost use Rattle.std.specs.Prelude.{◌≡◌, ◌<◌, ◌≤◌, true, [], List, length, map, slice_get, OnOk, IfOk, IfSome};
ghost use Rattle.std.specs.List.{All};
ghost use Rattle.hir_collector_state.specs.HirBase.Cfg.{cfg_view};
ghost use Rattle.hir_collector_state.specs.HirItemTree.Collected.{is_enabled};
ghost use Rattle.hir_collector_state.specs.HirItemTree.KeptForest.{KeptItem, all_items, leaf, constant, implementation, macro_call};
ghost use Rattle.hir_collector_state.specs.HirItemTree.Kinds.{item_head, kind_content, kind_of};
ghost use Rattle.hir_collector_state.specs.HirItemTree.Rows.{held_numbers, item_of, numbers_of};
ghost use Rattle.hir_collector_state.specs.HirTables.Tables.{KeepsTables};
ghost use Rattle.hir_collector_state.specs.HirDefMapRules.Overlay.{Maps};
ghost use Rattle.hir_collector_state.specs.HirNameres.WorldParts.{part_of};
ghost use Rattle.hir_collector_state.specs.HirCollectorRules.Keys.{Environment};
ghost use Rattle.hir_collector_state.specs.HirCollectorRules.ItemIds.{module_id, node_of};
ghost use Rattle.hir_collector_state.specs.HirCollectorRules.Calls.{AreCallsPlaced, IsMeantAt};
ghost use Rattle.hir_collector_state.specs.HirCollectorRules.Reports.{IsUnconfigured};
ghost use Rattle.hir_collector_state.specs.HirCollectorRules.State.{core_in};
ghost use Rattle.hir_collector_state.specs.HirCollectorRules.Steps.{visit};
ghost use Rattle.hir_collector_state.specs.HirCollectorRules.TreeReads.{head_of, visits_at, visits_behind};
ghost use Rattle.hir_collector_state.specs.HirCollectorRules.Moves.{Drops, Handles, HandlesAndSpreads, HandlesTooFar, OnceGrown, Passes, PassesTooFar, Walks, WalksTooFar, is_single};
ghost use Rattle.hir_mod_resolution.specs.Walking.{GoesInside, tasks_of};
ghost use Rattle.hir_collector_state.specs.Waiting.{IsNoted, IsNotedBeside};

use hir_attr_resolution::attributes::{Visited, adt_of, pass_attributes};
use hir_base::ast_id::{AstId, AstKind, SyntaxId};
use hir_base::cfg::CfgExpr;
use hir_base::ids::{ConstId, ImplId, ItemLoc};
use hir_base::mod_path::ModPath;
use hir_base::name::Name;
use hir_collector_imports::spread_changes;
use hir_collector_items::declare::{
    declare_const, declare_function, declare_static, declare_struct, declare_trait,
    declare_type_alias, declare_union,
};
use hir_collector_items::enums::declare_enum;
use hir_collector_macros::imports::{reach_extern_crate, reach_use};
use hir_collector_macros::macros::{close, define_macro, define_rules};
use hir_collector_state::def_collector::DefCollector;
use hir_collector_state::hir_collector_rules::macro_directive::{
    MacroDirective, MacroDirectiveKind,
};
use hir_collector_state::hir_collector_rules::site::{ItemHead, Site, head_at};
use hir_collector_state::hir_collector_rules::source_database::SourceDatabase;
use hir_collector_state::hir_collector_rules::start::{STEP_LIMIT, StepError};
use hir_collector_state::hir_collector_start::diagnostics::unconfigured;
use hir_collector_state::hir_nameres::world::part::WorldPart;
use hir_item_tree::kinds::{ModItemKind, ModKind};
use hir_item_tree::rows::ModItemId;
use hir_item_tree::source_tree::SourceTree;
use hir_mod_resolution::modules::{Inside, enter, visit_inline, visit_outline};
use hir_tables::Tables;
use std::rc::Rc;

/// Lists a constant that has no name.
fn list_const(run: &mut DefCollector, site: &Site, head: ItemHead<'_>) -> Result<(), StepError>
    requires enabled { is_enabled (head_of head).attributes ≡ true }
    ensures ok { OnOk result ((env : Environment) (finished : Maps) → Handles env finished (core_in run.old) (core_in run.new) (visit site.now (leaf (head_of head.entry) (constant None))) []) }
    ensures noted { OnOk result (IsNoted run.old run.new) }
    ensures many { result ≡ Err StepError.TooMany → STEP_LIMIT ≤ (core_in run.old).count }
{
    let id = ConstId {
        loc: ItemLoc {
            container: run.container(site),
            file_id: site.tree.file,
            block: site.tree.block,
            id: head.id,
        },
    };
    run.list_unnamed_const(site.home, id)?;
    run.tick()?;
    Ok(())
}

/// Handles a constant.
fn visit_const(
    run: &mut DefCollector,
    world: WorldPart<'_>,
    site: &Site,
    head: ItemHead<'_>,
    name: &Option<Name>,
) -> Result<(), StepError>
    requires enabled { is_enabled (head_of head).attributes ≡ true }
    ensures ok { OnOk result ((env : Environment) → Handles env (part_of world.entry) (core_in run.old) (core_in run.new) (visit site.now (leaf (head_of head.entry) (constant name.now))) []) }
    ensures noted { OnOk result (IsNoted run.old run.new) }
    ensures many { result ≡ Err StepError.TooMany → STEP_LIMIT ≤ (core_in run.old).count }
{
    match name {
        Some(name) => declare_const(run, world, site, head, name)?,
        None => list_const(run, site, head)?,
    }
    Ok(())
}

/// Lists an impl.
fn list_impl(
    run: &mut DefCollector,
    site: &Site,
    head: ItemHead<'_>,
    of_trait: bool,
) -> Result<(), StepError>
    requires enabled { is_enabled (head_of head).attributes ≡ true }
    ensures ok { OnOk result ((env : Environment) (finished : Maps) → Handles env finished (core_in run.old) (core_in run.new) (visit site.now (leaf (head_of head.entry) (implementation of_trait))) []) }
    ensures noted { OnOk result (IsNoted run.old run.new) }
    ensures many { result ≡ Err StepError.TooMany → STEP_LIMIT ≤ (core_in run.old).count }
{
    let id = ImplId {
        loc: ItemLoc {
            container: run.module_id(site.home),
            file_id: site.tree.file,
            block: site.tree.block,
            id: head.id,
        },
    };
    run.list_impl(site.home, id, of_trait)?;
    run.tick()?;
    Ok(())
}

/// Notes a macro call, which waits.
fn reach_call(
    run: &mut DefCollector,
    site: &Site,
    head: ItemHead<'_>,
    path: &ModPath,
) -> Result<(), StepError>
    requires enabled { is_enabled (head_of head).attributes ≡ true }
    ensures ok { OnOk result ((env : Environment) (finished : Maps) → Handles env finished (core_in run.old) (core_in run.new) (visit site.now (leaf (head_of head.entry) (macro_call path.now))) []) }
    ensures noted { OnOk result (IsNoted run.old run.new) }
    ensures many { result ≡ Err StepError.TooMany → STEP_LIMIT ≤ (core_in run.old).count }
{
    let call = MacroDirective {
        site: site.clone()?,
        ast_id: AstId {
            file_id: site.tree.file,
            block: site.tree.block,
            kind: AstKind::MacroCall,
            id: head.id,
        },
        kind: MacroDirectiveKind::FnLike {
            path: path.clone()?,
        },
    };
    run.await_call(call)?;
    run.tick()?;
    Ok(())
}

/// Handles an item that isn't disabled and holds no others, modules aside.
fn visit_leaf<D: SourceDatabase>(
    run: &mut DefCollector,
    db: &mut D,
    world: WorldPart<'_>,
    locations: &Tables,
    site: &Site,
    head: ItemHead<'_>,
    item: ModItemKind<'_>,
) -> Result<(), StepError>
    requires in_range { site.now.home < length (core_in run.old).map.modules }
    requires enabled { is_enabled (head_of head).attributes ≡ true }
    requires meant { IsMeantAt locations.now site.now }
    requires single { is_single item ≡ true }
    ensures same { D.workspace db.new ≡ D.workspace db.old }
    ensures ok { OnOk result (OnceGrown locations.now (D.workspace db.old) (λ env. (items : List KeptItem)
        → Handles env (part_of world.entry) (core_in run.old) (core_in run.new) (visit site.now (item_of items (head_of head.entry) (kind_content item.entry))) [])) }
    ensures noted { OnOk result (IsNoted run.old run.new) }
    ensures many { result ≡ Err StepError.TooMany → STEP_LIMIT ≤ (core_in run.old).count }
{
    match item {
        ModItemKind::Use(item) => reach_use(run, site, head, item.use_tree),
        ModItemKind::Function(item) => declare_function(run, world, site, head, item.name),
        ModItemKind::Struct(item) => declare_struct(run, world, site, head, item),
        ModItemKind::Union(item) => declare_union(run, world, site, head, item.name),
        ModItemKind::Enum(item) => declare_enum(run, db, world, locations, site, head, item.name),
        ModItemKind::Const(item) => visit_const(run, world, site, head, item.name),
        ModItemKind::Static(item) => declare_static(run, world, site, head, item.name),
        ModItemKind::Trait(item) => declare_trait(run, world, site, head, item.name),
        ModItemKind::Impl(item) => list_impl(run, site, head, item.of_trait),
        ModItemKind::TypeAlias(item) => declare_type_alias(run, world, site, head, item.name),
        ModItemKind::ExternCrate(item) => {
            reach_extern_crate(run, world, site, head, item.name, item.alias)
        }
        ModItemKind::MacroRules(item) => define_rules(run, site, head, item),
        ModItemKind::Macro2(item) => define_macro(run, world, site, head, item),
        ModItemKind::MacroCall(item) => reach_call(run, site, head, item.path),
        ModItemKind::Mod(_) | ModItemKind::ExternBlock(_) => Ok(()),
    }
}

/// The kind of the node of an item.
fn kind_of(item: ModItemKind<'_>) -> AstKind
    ensures value { result ≡ kind_of item.entry }
{
    match item {
        ModItemKind::Use(_) => AstKind::Use,
        ModItemKind::ExternCrate(_) => AstKind::ExternCrate,
        ModItemKind::ExternBlock(_) => AstKind::ExternBlock,
        ModItemKind::Function(_) => AstKind::Fn,
        ModItemKind::Struct(_) => AstKind::Struct,
        ModItemKind::Union(_) => AstKind::Union,
        ModItemKind::Enum(_) => AstKind::Enum,
        ModItemKind::Const(_) => AstKind::Const,
        ModItemKind::Static(_) => AstKind::Static,
        ModItemKind::Trait(_) => AstKind::Trait,
        ModItemKind::Impl(_) => AstKind::Impl,
        ModItemKind::TypeAlias(_) => AstKind::TypeAlias,
        ModItemKind::Mod(_) => AstKind::Module,
        ModItemKind::MacroCall(_) => AstKind::MacroCall,
        ModItemKind::MacroRules(_) => AstKind::MacroRules,
        ModItemKind::Macro2(_) => AstKind::MacroDef,
    }
}

/// Handles an item that isn't disabled; which items are visited next: those that it holds, or those of its file.
fn handle_item<'a, D: SourceDatabase>(
    run: &mut DefCollector,
    db: &mut D,
    world: WorldPart<'_>,
    locations: &mut Tables,
    site: &Site,
    head: ItemHead<'_>,
    item: ModItemKind<'a>,
) -> Result<Inside<'a>, StepError>
    requires in_range { site.now.home < length (core_in run.old).map.modules }
    requires enabled { is_enabled (head_of head).attributes ≡ true }
    requires meant { IsMeantAt locations.old site.now }
    ensures kept { KeepsTables locations.old locations.new }
    ensures placed { AreCallsPlaced locations.old → AreCallsPlaced locations.new }
    ensures same { D.workspace db.new ≡ D.workspace db.old }
    ensures ok { IfOk result (λ inside. OnceGrown locations.new (D.workspace db.old) (λ env. (items : List KeptItem) → Handles env (part_of world.entry) (core_in run.old) (core_in run.new)
        (visit site.now (item_of items (head_of head.entry) (kind_content item.entry))) (tasks_of site.now.home items inside))) }
    ensures noted { OnOk result (IsNoted run.old run.new) }
    ensures within { IfOk result (λ inside. GoesInside locations.new (length (core_in run.new).map.modules) site.now (held_numbers (kind_content item.entry)) inside) }
    ensures many { result ≡ Err StepError.TooMany → OnceGrown locations.new (D.workspace db.old) (λ env. (items : List KeptItem) →
        HandlesTooFar env (part_of world.entry) (core_in run.old) (visit site.now (item_of items (head_of head.entry) (kind_content item.entry)))) }
{
    match item {
        ModItemKind::Mod(item) => match item.kind {
            ModKind::Inline { items } => visit_inline(run, world, site, head, item.name, items),
            ModKind::Outline => visit_outline(run, db, world, locations, site, head, item.name),
        },
        ModItemKind::ExternBlock(item) => enter(run, site, head, item.children),
        other => {
            visit_leaf(run, db, world, locations, site, head, other)?;
            Ok(Inside::Nothing)
        }
    }
}

/// Handles an item that isn't disabled, and lets what it binds go along globs at once; which items are visited next: those
/// that it holds, or those of its file.
fn visit_item<'a, D: SourceDatabase>(
    run: &mut DefCollector,
    db: &mut D,
    world: WorldPart<'_>,
    locations: &mut Tables,
    site: &Site,
    head: ItemHead<'_>,
    item: ModItemKind<'a>,
) -> Result<Inside<'a>, StepError>
    requires in_range { site.now.home < length (core_in run.old).map.modules }
    requires enabled { is_enabled (head_of head).attributes ≡ true }
    requires meant { IsMeantAt locations.old site.now }
    ensures kept { KeepsTables locations.old locations.new }
    ensures placed { AreCallsPlaced locations.old → AreCallsPlaced locations.new }
    ensures same { D.workspace db.new ≡ D.workspace db.old }
    ensures ok { IfOk result (λ inside. OnceGrown locations.new (D.workspace db.old) (λ env. (items : List KeptItem) → HandlesAndSpreads env (part_of world.entry) (core_in run.old) (core_in run.new)
        (visit site.now (item_of items (head_of head.entry) (kind_content item.entry))) (tasks_of site.now.home items inside))) }
    ensures noted { OnOk result (IsNotedBeside (part_of world.entry) run.old run.new) }
    ensures spread { OnOk result (run.new.globs.pending ≡ []) }
    ensures within { IfOk result (λ inside. GoesInside locations.new (length (core_in run.new).map.modules) site.now (held_numbers (kind_content item.entry)) inside) }
    ensures many { result ≡ Err StepError.TooMany → OnceGrown locations.new (D.workspace db.old) (λ env. (items : List KeptItem) →
        HandlesTooFar env (part_of world.entry) (core_in run.old) (visit site.now (item_of items (head_of head.entry) (kind_content item.entry)))) }
{
    let inside = handle_item(run, db, world, locations, site, head, item)?;
    spread_changes(run, world)?;
    Ok(inside)
}

/// Drops an item that a condition leaves out, with all in it.
fn drop_item(
    run: &mut DefCollector,
    site: &Site,
    id: SyntaxId,
    item: ModItemKind<'_>,
    cfg: &CfgExpr,
) -> Result<(), StepError>
    ensures ok { OnOk result (Drops (IsUnconfigured (module_id (core_in run.old).map site.now.home) (node_of site.now.tree (kind_of item.entry) id) (cfg_view cfg.now) (core_in run.old).options) (core_in run.old) (core_in run.new)) }
    ensures noted { OnOk result (IsNoted run.old run.new) }
    ensures many { result ≡ Err StepError.TooMany → STEP_LIMIT ≤ (core_in run.old).count }
{
    let node = AstId {
        file_id: site.tree.file,
        block: site.tree.block,
        kind: kind_of(item),
        id,
    };
    let at = run.module_id(site.home);
    let told = unconfigured(run.allocator(), at, node, cfg, run.options())?;
    run.tell(told)?;
    run.tick()?;
    Ok(())
}

/// A number; it is one of 64 bits.
fn counted(number: usize) -> usize
    ensures value { result ≡ number }
    ensures below { number < 18446744073709551616 }
{
    number
}

/// Goes through the attributes of an item that isn't disabled, behind the first so many: how many are done with where the
/// item is next.
fn pass(
    run: &mut DefCollector,
    locations: &mut Tables,
    source: &Rc<SourceTree>,
    site: &Site,
    id: ModItemId,
    done: usize,
) -> Result<Option<usize>, StepError>
    requires in_range { site.now.home < length (core_in run.old).map.modules }
    requires meant { IsMeantAt locations.old site.now }
    requires there { id.0 < length (all_items source.now.value.tree.items) }
    requires enabled { IfSome (slice_get (all_items source.now.value.tree.items) id.0) (λ i. is_enabled (item_head i).attributes ≡ true) }
    ensures kept { KeepsTables locations.old locations.new }
    ensures placed { AreCallsPlaced locations.old → AreCallsPlaced locations.new }
    ensures ok { IfOk result (λ passed. (env : Environment) (finished : Maps) → KeepsTables locations.new env.tables → IfSome (slice_get (all_items source.now.value.tree.items) id.0)
        (λ i. Passes env finished (core_in run.old) (core_in run.new) (visit site.now i) done passed)) }
    ensures noted { OnOk result (IsNoted run.old run.new) }
    ensures many { result ≡ Err StepError.TooMany → (env : Environment) (finished : Maps) → KeepsTables locations.new env.tables → IfSome (slice_get (all_items source.now.value.tree.items) id.0)
        (λ i. PassesTooFar env finished (core_in run.old) (visit site.now i) done) }
{
    let head = head_at(source.tree(), id);
    let item = source.tree().index(id);
    let visited = Visited {
        site,
        source,
        id,
        node: AstId {
            file_id: site.tree.file,
            block: site.tree.block,
            kind: kind_of(item),
            id: head.id,
        },
        attrs: head.attrs.attrs.as_slice(),
        adt: adt_of(run, site, head, item),
    };
    pass_attributes(run, locations, visited, done)
}

/// Handles an item of which so many attributes are done with, and all that is in it.
#[cycle(walk)]
pub fn walk_item<D: SourceDatabase>(
    run: &mut DefCollector,
    db: &mut D,
    world: WorldPart<'_>,
    locations: &mut Tables,
    source: &Rc<SourceTree>,
    site: &Site,
    id: ModItemId,
    done: usize,
) -> Result<(), StepError>
    requires in_range { site.now.home < length (core_in run.old).map.modules }
    requires meant { IsMeantAt locations.old site.now }
    requires there { id.0 < length (all_items source.now.value.tree.items) }
    ensures kept { KeepsTables locations.old locations.new }
    ensures placed { AreCallsPlaced locations.old → AreCallsPlaced locations.new }
    ensures same { D.workspace db.new ≡ D.workspace db.old }
    ensures ok { OnOk result (OnceGrown locations.new (D.workspace db.old)
        (λ env. Walks env (part_of world.entry) (core_in run.old) (core_in run.new) (visits_behind source.now.value.tree site.now id.0 done))) }
    ensures noted { OnOk result (IsNotedBeside (part_of world.entry) run.old run.new) }
    ensures many { result ≡ Err StepError.TooMany → OnceGrown locations.new (D.workspace db.old)
        (λ env. WalksTooFar env (part_of world.entry) (core_in run.old) (visits_behind source.now.value.tree site.now id.0 done)) }
{
    let head = head_at(source.tree(), id);
    let item = source.tree().index(id);
    if let Some(cfg) = &head.attrs.disabled {
        drop_item(run, site, head.id, item, cfg)?;
        return Ok(());
    }
    if pass(run, locations, source, site, id, done)?.is_none() {
        return Ok(());
    }
    let inside = visit_item(run, db, world, locations, site, head, item)?;
    match inside {
        Inside::Nothing => Ok(()),
        Inside::Held {
            site: inner,
            ids,
            macro_use,
        } => {
            walk_all(run, db, world, locations, source, &inner, ids)?;
            close(run, macro_use, site.home, inner.home)?;
            Ok(())
        }
        Inside::File {
            site: inner,
            source,
            macro_use,
        } => {
            let ids = source.tree().top_level_items();
            walk_all(run, db, world, locations, &source, &inner, ids)?;
            close(run, macro_use, site.home, inner.home)?;
            Ok(())
        }
    }
}

/// Handles items of a tree that are written at a site, one after another, each with all that is in it.
#[cycle(walk)]
pub fn walk_all<D: SourceDatabase>(
    run: &mut DefCollector,
    db: &mut D,
    world: WorldPart<'_>,
    locations: &mut Tables,
    source: &Rc<SourceTree>,
    site: &Site,
    ids: &[ModItemId],
) -> Result<(), StepError>
    requires in_range { site.now.home < length (core_in run.old).map.modules }
    requires meant { IsMeantAt locations.old site.now }
    requires there { All (λ n. n < length (all_items source.now.value.tree.items)) (numbers_of ids.now) }
    ensures kept { KeepsTables locations.old locations.new }
    ensures placed { AreCallsPlaced locations.old → AreCallsPlaced locations.new }
    ensures same { D.workspace db.new ≡ D.workspace db.old }
    ensures ok { OnOk result (OnceGrown locations.new (D.workspace db.old)
        (λ env. Walks env (part_of world.entry) (core_in run.old) (core_in run.new) (visits_at source.now.value.tree site.now (numbers_of ids.now)))) }
    ensures noted { OnOk result (IsNotedBeside (part_of world.entry) run.old run.new) }
    ensures many { result ≡ Err StepError.TooMany → OnceGrown locations.new (D.workspace db.old)
        (λ env. WalksTooFar env (part_of world.entry) (core_in run.old) (visits_at source.now.value.tree site.now (numbers_of ids.now))) }
{
    for id in ids {
        let id = ModItemId(counted(id.0));
        walk_item(run, db, world, locations, source, site, id, 0)?;
    }
    Ok(())
}
