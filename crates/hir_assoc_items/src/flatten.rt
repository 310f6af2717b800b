//! The walk over the list of a trait or an impl, after rust-analyzer's `AssocItemCollector`.
ghost use Rattle.std.specs.Prelude.{◌≡◌, ◌<◌, IfOk, IsSome, OnOk, Some, map, option_map};
ghost use Rattle.hir_collector_rules.specs.HirBase.ModPath.{Path};
ghost use Rattle.hir_collector_rules.specs.HirBase.Cfg.{cfg_view};
ghost use Rattle.hir_collector_rules.specs.HirTables.Tables.{KeepsTables, source_of};
ghost use Rattle.hir_collector_rules.specs.HirDefMapRules.Diagnostics.{UnconfiguredCode};
ghost use Rattle.hir_collector_rules.specs.Calls.{AreCallsPlaced};
ghost use Rattle.hir_collector_rules.specs.Keys.{environment};
ghost use Rattle.hir_collector_rules.specs.Workspace.{options_of};
ghost use Rattle.hir_assoc_items.specs.AssocItems.{FlattensTo, HasNoNumber, IsCall, IsTooMany, IsUnknown, Reaches, ReachesUnknown, crate_of, definition_of, first_missing, followed_by, listed_by, nothing, one_call, one_diagnostic, unresolved};
ghost use Rattle.hir_assoc_items.specs.Steps.{AreMeant, IsGivenUp, LeadsToUnknown, Takes, container_view, left_of, listing_view};
ghost use Rattle.hir_assoc_items.specs.Written.{item_node, written_view};

use crate::container::Container;
use crate::error::AssocItemsError;
use crate::expansions::{CallLook, Expansion, call_tree, look_at_call};
use crate::written::{Written, of_tree};
use hir_base::ast_id::{AstId, MacroCallId};
use hir_base::cfg::CfgExpr;
use hir_base::cfg_options::CfgOptions;
use hir_base::ids::{AssocItemId, Crate};
use hir_base::macro_kind::{MacroCallKind, MacroId};
use hir_base::mod_path::ModPath;
use hir_base::name::Name;
use hir_base::text::Text;
use hir_collector_rules::hir_nameres::nameres::diagnostics::DefDiagnostic;
use hir_collector_rules::source_database::SourceDatabase;
use hir_collector_rules::start::STEP_LIMIT;
use hir_tables::Tables;
use std::alloc::{AllocError, Global};

/// The items of a list with their names, its calls that were expanded, and what went wrong.
#[derive(Drop)]
pub struct Listing {
    pub items: Vec<(Name, AssocItemId)>,
    pub macro_calls: Vec<(AstId, MacroCallId)>,
    pub diagnostics: Vec<DefDiagnostic>,
}

impl Listing {
    fn new(alloc: Global) -> Listing
        ensures value { listing_view result ≡ nothing }
    {
        Listing {
            items: Vec::new(alloc),
            macro_calls: Vec::new(alloc),
            diagnostics: Vec::new(alloc),
        }
    }
}

/// The options that are set in a crate.
fn options<D: SourceDatabase>(alloc: Global, db: &D, krate: Crate) -> Result<CfgOptions, AllocError>
    ensures value { IfOk result (λ options. options ≡ options_of ((D.workspace db.now).config krate)) }
{
    match db.config(krate) {
        Some(config) => Ok(config.options.clone()?),
        None => Ok(CfgOptions::new(alloc)),
    }
}

/// Tells an item that a condition leaves out.
fn tell_unconfigured<D: SourceDatabase>(
    alloc: Global,
    db: &D,
    container: &Container<'_>,
    item: &Written,
    cfg: &CfgExpr,
    found: &mut Listing,
) -> Result<(), AllocError>
    ensures ok { OnOk result (listing_view found.new ≡ followed_by (listing_view found.old) (one_diagnostic (container_view container.now)
        (UnconfiguredCode (item_node (written_view item.now)) (cfg_view cfg.now) (options_of ((D.workspace db.now).config (crate_of (container_view container.now))))))) }
{
    let options = options(alloc, db, container.krate())?;
    let told = DefDiagnostic::unconfigured_code(
        container.module(),
        item.node(),
        cfg.clone(alloc)?,
        options,
    );
    found.diagnostics.push(told)?;
    Ok(())
}

/// Tells a call whose path reaches no macro.
fn tell_unresolved(
    container: &Container<'_>,
    item: &Written,
    path: &ModPath,
    found: &mut Listing,
) -> Result<(), AllocError>
    ensures ok { OnOk result (listing_view found.new ≡ followed_by (listing_view found.old) (unresolved (container_view container.now) (written_view item.now) path.now)) }
{
    let call = MacroCallKind::FnLike { ast: item.node() };
    let told = DefDiagnostic::unresolved_macro_call(container.module(), call, path.clone()?);
    found.diagnostics.push(told)?;
    Ok(())
}

/// The first of paths that reaches nothing.
fn first_missing<'p>(container: &Container<'_>, paths: &'p [ModPath]) -> Option<&'p ModPath>
    ensures value { option_map (λ path. path.now) result ≡ first_missing (container_view container.now) paths.now }
{
    let mut left = paths;
    'next: while let [path, others @ ..] = left {
        if container.called_macro(path).is_none() {
            return Some(path);
        }
        left = others;
    }
    None
}

/// Tells a call whose macro asks for paths first, for the first of them that reaches nothing.
fn tell_missing(
    container: &Container<'_>,
    item: &Written,
    paths: &[ModPath],
    found: &mut Listing,
) -> Result<(), AllocError>
    requires missing { IsSome (first_missing (container_view container.now) paths.now) }
    ensures ok { OnOk result ((path : Path) → first_missing (container_view container.now) paths.now ≡ Some path
        → listing_view found.new ≡ followed_by (listing_view found.old) (unresolved (container_view container.now) (written_view item.now) path)) }
{
    let Some(path) = first_missing(container, paths) else {
        return Ok(());
    };
    tell_unresolved(container, item, path, found)?;
    Ok(())
}

/// Enters a call that was expanded, and tells what is wrong with its expansion.
fn enter(
    container: &Container<'_>,
    node: AstId,
    id: MacroCallId,
    path: &ModPath,
    error: Option<Text>,
    found: &mut Listing,
) -> Result<(), AllocError>
    ensures ok { OnOk result (listing_view found.new ≡ followed_by (listing_view found.old) (one_call (container_view container.now) node id path.now error)) }
{
    found.macro_calls.push((node, id))?;
    let Some(error) = error else {
        return Ok(());
    };
    let told = DefDiagnostic::macro_error(container.module(), node, path.clone()?, error);
    found.diagnostics.push(told)?;
    Ok(())
}

/// Lists a function, a type alias or a constant with a name.
fn list(container: &Container<'_>, item: &Written, found: &mut Listing) -> Result<(), AllocError>
    ensures ok { OnOk result (listing_view found.new ≡ followed_by (listing_view found.old) (listed_by (definition_of (container_view container.now) (written_view item.now)))) }
{
    match container.definition(item)? {
        Some(named) => {
            found.items.push(named)?;
            Ok(())
        }
        None => Ok(()),
    }
}

/// Expands a call that reaches a macro: its items are the next.
fn expand<D: SourceDatabase>(
    alloc: Global,
    db: &mut D,
    container: &Container<'_>,
    locations: &mut Tables,
    item: &Written,
    path: &ModPath,
    makro: MacroId,
    left: &mut Vec<Written>,
    found: &mut Listing,
) -> Result<(), AssocItemsError>
    requires reaches { Reaches (container_view container.now) (written_view item.now) path.now makro }
    requires below { item.now.level < 4294967295 }
    requires meant { IsSome (source_of locations.old item.now.tree) }
    ensures kept { KeepsTables locations.old locations.new }
    ensures others { locations.new ≡ record locations.old { entries = locations.new.entries; calls = locations.new.calls } }
    ensures placed { AreCallsPlaced locations.old → AreCallsPlaced locations.new }
    ensures same { D.workspace db.new ≡ D.workspace db.old }
    ensures ok { OnOk result (Takes locations.new (D.workspace db.old) (container_view container.now) (written_view item.now) (left_of left.old.items) (left_of left.new.items) (listing_view found.old) (listing_view found.new)) }
    ensures many { result ≡ Err AssocItemsError.TooMany → HasNoNumber (environment locations.new (D.workspace db.old)) (container_view container.now) (item_node (written_view item.now)) makro }
    ensures unknown { result ≡ Err AssocItemsError.UnknownSource → IsUnknown locations.new (container_view container.now) makro }
{
    let node = item.node();
    let look = look_at_call(alloc, db, container, locations, node, makro)?;
    let expansion = match look {
        CallLook::Expands(expansion) => expansion,
        CallLook::Waits(inner) => {
            tell_missing(container, item, inner.as_slice(), found)?;
            return Ok(());
        }
    };
    let Expansion { id, error, source } = expansion;
    enter(container, node, id, path, error, found)?;
    let mut inside = of_tree(alloc, call_tree(id), item.level + 1, source.tree())?;
    inside.reverse();
    left.append(&mut inside)?;
    Ok(())
}

/// Takes a call.
fn take_call<D: SourceDatabase>(
    alloc: Global,
    db: &mut D,
    container: &Container<'_>,
    locations: &mut Tables,
    item: &Written,
    path: &ModPath,
    left: &mut Vec<Written>,
    found: &mut Listing,
) -> Result<(), AssocItemsError>
    requires is { IsCall (written_view item.now) path.now }
    requires meant { IsSome (source_of locations.old item.now.tree) }
    ensures kept { KeepsTables locations.old locations.new }
    ensures others { locations.new ≡ record locations.old { entries = locations.new.entries; calls = locations.new.calls } }
    ensures placed { AreCallsPlaced locations.old → AreCallsPlaced locations.new }
    ensures same { D.workspace db.new ≡ D.workspace db.old }
    ensures ok { OnOk result (Takes locations.new (D.workspace db.old) (container_view container.now) (written_view item.now) (left_of left.old.items) (left_of left.new.items) (listing_view found.old) (listing_view found.new)) }
    ensures many { result ≡ Err AssocItemsError.TooMany → IsGivenUp (environment locations.new (D.workspace db.old)) (container_view container.now) (written_view item.now) }
    ensures unknown { result ≡ Err AssocItemsError.UnknownSource → LeadsToUnknown (environment locations.new (D.workspace db.old)) (container_view container.now) (written_view item.now) }
{
    if item.level >= u64::from(container.recursion_limit()) {
        return Ok(());
    }
    let Some(makro) = container.called_macro(path) else {
        tell_unresolved(container, item, path, found)?;
        return Ok(());
    };
    expand(
        alloc, db, container, locations, item, path, makro, left, found,
    )
}

/// Takes the next item.
fn take_item<D: SourceDatabase>(
    alloc: Global,
    db: &mut D,
    container: &Container<'_>,
    locations: &mut Tables,
    item: &Written,
    left: &mut Vec<Written>,
    found: &mut Listing,
) -> Result<(), AssocItemsError>
    requires meant { IsSome (source_of locations.old item.now.tree) }
    ensures kept { KeepsTables locations.old locations.new }
    ensures others { locations.new ≡ record locations.old { entries = locations.new.entries; calls = locations.new.calls } }
    ensures placed { AreCallsPlaced locations.old → AreCallsPlaced locations.new }
    ensures same { D.workspace db.new ≡ D.workspace db.old }
    ensures ok { OnOk result (Takes locations.new (D.workspace db.old) (container_view container.now) (written_view item.now) (left_of left.old.items) (left_of left.new.items) (listing_view found.old) (listing_view found.new)) }
    ensures many { result ≡ Err AssocItemsError.TooMany → IsGivenUp (environment locations.new (D.workspace db.old)) (container_view container.now) (written_view item.now) }
    ensures unknown { result ≡ Err AssocItemsError.UnknownSource → LeadsToUnknown (environment locations.new (D.workspace db.old)) (container_view container.now) (written_view item.now) }
{
    if let Some(cfg) = item.condition() {
        tell_unconfigured(alloc, db, container, item, cfg, found)?;
        return Ok(());
    }
    match item.path_called() {
        Some(path) => take_call(alloc, db, container, locations, item, path, left, found),
        None => {
            list(container, item, found)?;
            Ok(())
        }
    }
}

/// Takes the next item, and lets it go.
fn take<D: SourceDatabase>(
    alloc: Global,
    db: &mut D,
    container: &Container<'_>,
    locations: &mut Tables,
    item: Written,
    left: &mut Vec<Written>,
    found: &mut Listing,
) -> Result<(), AssocItemsError>
    requires meant { IsSome (source_of locations.old item.tree) }
    ensures kept { KeepsTables locations.old locations.new }
    ensures others { locations.new ≡ record locations.old { entries = locations.new.entries; calls = locations.new.calls } }
    ensures placed { AreCallsPlaced locations.old → AreCallsPlaced locations.new }
    ensures same { D.workspace db.new ≡ D.workspace db.old }
    ensures ok { OnOk result (Takes locations.new (D.workspace db.old) (container_view container.now) (written_view item) (left_of left.old.items) (left_of left.new.items) (listing_view found.old) (listing_view found.new)) }
    ensures many { result ≡ Err AssocItemsError.TooMany → IsGivenUp (environment locations.new (D.workspace db.old)) (container_view container.now) (written_view item) }
    ensures unknown { result ≡ Err AssocItemsError.UnknownSource → LeadsToUnknown (environment locations.new (D.workspace db.old)) (container_view container.now) (written_view item) }
{
    let taken = take_item(alloc, db, container, locations, &item, left, found);
    drop(item);
    taken
}

/// What items come to. As many come up as a run may take steps.
///
/// What is still to be looked at is kept in a list, so that calls in calls take none of the stack.
pub fn flatten<D: SourceDatabase>(
    alloc: Global,
    db: &mut D,
    container: &Container<'_>,
    locations: &mut Tables,
    items: Vec<Written>,
) -> Result<Listing, AssocItemsError>
    requires meant { AreMeant locations.old (map written_view items.items) }
    ensures kept { KeepsTables locations.old locations.new }
    ensures others { locations.new ≡ record locations.old { entries = locations.new.entries; calls = locations.new.calls } }
    ensures placed { AreCallsPlaced locations.old → AreCallsPlaced locations.new }
    ensures same { D.workspace db.new ≡ D.workspace db.old }
    ensures value { IfOk result (λ found. FlattensTo (environment locations.new (D.workspace db.old)) (container_view container.now) (map written_view items.items) (listing_view found)) }
    ensures many { result ≡ Err AssocItemsError.TooMany → IsTooMany (environment locations.new (D.workspace db.old)) (container_view container.now) (map written_view items.items) }
    ensures unknown { result ≡ Err AssocItemsError.UnknownSource → ReachesUnknown (environment locations.new (D.workspace db.old)) (container_view container.now) (map written_view items.items) }
{
    let mut left = items;
    left.reverse();
    let mut found = Listing::new(alloc);
    let mut count: u32 = 0;
    'next: while let Some(item) = left.pop() {
        if count >= STEP_LIMIT {
            drop(item);
            return Err(AssocItemsError::TooMany);
        }
        take(alloc, db, container, locations, item, &mut left, &mut found)?;
        count += 1;
    }
    Ok(found)
}
