//! The imports that `use` items and `extern crate` items write.
ghost use Rattle.std.specs.Prelude.{◌≡◌, ◌≤◌, true, ◌++◌, ◌∷◌, [], map, OnOk, IfOk};
ghost use Rattle.hir_collector_state.specs.HirItemTree.Collected.{is_enabled};
ghost use Rattle.hir_collector_state.specs.HirItemTree.Imports.{imports_of};
ghost use Rattle.hir_collector_state.specs.HirItemTree.KeptForest.{extern_crate, leaf, import};
ghost use Rattle.hir_collector_state.specs.HirItemTree.UseTree.{use_tree_view};
ghost use Rattle.hir_collector_state.specs.HirDefMapRules.Overlay.{Maps};
ghost use Rattle.hir_collector_state.specs.HirNameres.WorldParts.{part_of};
ghost use Rattle.hir_collector_state.specs.HirCollectorRules.Keys.{Environment};
ghost use Rattle.hir_collector_state.specs.HirCollectorRules.State.{core_in, with_imports};
ghost use Rattle.hir_collector_state.specs.HirCollectorRules.Imports.{crate_import, path_of_crate, reached_import};
ghost use Rattle.hir_collector_state.specs.HirCollectorRules.ItemIds.{extern_crate_id};
ghost use Rattle.hir_collector_state.specs.HirCollectorRules.TreeReads.{head_of};
ghost use Rattle.hir_collector_state.specs.HirCollectorRules.Steps.{visit};
ghost use Rattle.hir_collector_state.specs.HirCollectorRules.Moves.{Handles};
ghost use Rattle.hir_collector_state.specs.Waiting.{IsNoted};

use hir_base::ids::{ExternCrateId, ItemLoc, UseId};
use hir_base::mod_path::{ModPath, PathKind};
use hir_collector_state::def_collector::DefCollector;
use hir_collector_state::hir_collector_rules::site::{ItemHead, Site};
use hir_collector_state::hir_collector_rules::start::{STEP_LIMIT, StepError};
use hir_collector_state::hir_import_rules::{ImportDirective, ImportSource};
use hir_collector_state::hir_nameres::world::part::WorldPart;
use hir_collector_state::hir_scope::imports::ImportId;
use hir_item_tree::expand::Import;
use hir_item_tree::raw_visibility::RawVisibility;
use hir_item_tree::shape::{ExternCrateName, ImportAlias, ImportKind};
use hir_item_tree::shared_path::SharedPath;
use hir_item_tree::use_tree::UseTree;
use smallvec::SmallVec;
use std::alloc::{AllocError, Global};
use std::collections::VecDeque;

/// The imports of a use tree, in the order of its leaves.
fn expanded(alloc: Global, tree: &UseTree) -> Result<VecDeque<Import>, AllocError>
    ensures value { IfOk result (λ imports. imports.items ≡ imports_of (use_tree_view tree.now)) }
{
    let mut imports = VecDeque::new(alloc);
    tree.expand(
        alloc,
        &mut |place: u32, path: SharedPath, kind: ImportKind, alias: Option<ImportAlias>| -> Result<
            (),
            AllocError,
        >
            ensures ok { OnOk result (imports.exit.items ≡ imports.entry.items
                ++ record { place = place; path = path; kind = kind; alias = alias } ∷ []) }
        {
            imports.push_back(Import {
                place,
                path,
                kind,
                alias,
            })?;
            Ok(())
        },
    )?;
    Ok(imports)
}

/// Notes imports of a `use` item of a module.
fn reach_all(
    run: &mut DefCollector,
    home: u32,
    use_: UseId,
    visibility: &RawVisibility,
    mut imports: VecDeque<Import>,
) -> Result<(), AllocError>
    ensures ok { OnOk result (core_in run.new ≡ with_imports (core_in run.old) (map (reached_import home use_ visibility.now) imports.items)) }
    ensures noted { OnOk result (IsNoted run.old run.new) }
{
    while let Some(import) = imports.pop_front() {
        let Import {
            place,
            path,
            kind,
            alias,
        } = import;
        run.reach(ImportDirective {
            home,
            source: ImportSource::Use {
                id: ImportId { use_, idx: place },
                kind,
            },
            visibility: visibility.clone()?,
            path,
            alias,
        })?;
    }
    Ok(())
}

/// Lists a `use` item, and notes its imports.
pub fn reach_use(
    run: &mut DefCollector,
    site: &Site,
    head: ItemHead<'_>,
    tree: &UseTree,
) -> Result<(), StepError>
    requires enabled { is_enabled (head_of head).attributes ≡ true }
    ensures ok { OnOk result ((env : Environment) (finished : Maps) → Handles env finished (core_in run.old) (core_in run.new) (visit site.now (leaf (head_of head.entry) (import (use_tree_view tree.now)))) []) }
    ensures noted { OnOk result (IsNoted run.old run.new) }
    ensures many { result ≡ Err StepError.TooMany → STEP_LIMIT ≤ (core_in run.old).count }
{
    let use_ = UseId {
        loc: ItemLoc {
            container: run.module_id(site.home),
            file_id: site.tree.file,
            block: site.tree.block,
            id: head.id,
        },
    };
    let imports = expanded(run.allocator(), tree)?;
    run.list_use(site.home, use_)?;
    reach_all(run, site.home, use_, head.visibility, imports)?;
    run.tick()?;
    Ok(())
}

/// The path that an `extern crate` writes: `crate` for `self`, and otherwise the name alone.
fn path_of_crate(alloc: Global, name: &ExternCrateName) -> Result<ModPath, AllocError>
    ensures value { IfOk result (λ path. path ≡ path_of_crate name.now) }
{
    let mut segments = SmallVec::new(alloc);
    match name {
        ExternCrateName::SelfCrate => Ok(ModPath::from_segments(PathKind::Crate, segments)),
        ExternCrateName::Name(name) => {
            segments.push(name.clone()?)?;
            Ok(ModPath::from_segments(PathKind::Plain, segments))
        }
    }
}

/// The same alias again, if there is one.
fn clone_alias(alias: &Option<ImportAlias>) -> Result<Option<ImportAlias>, AllocError>
    ensures value { IfOk result (λ a. a ≡ alias.now) }
{
    match alias {
        Some(alias) => Ok(Some(alias.clone()?)),
        None => Ok(None),
    }
}

/// An `extern crate` of a site as an import.
fn crate_import(
    run: &DefCollector,
    site: &Site,
    head: ItemHead<'_>,
    id: ExternCrateId,
    name: &ExternCrateName,
    alias: &Option<ImportAlias>,
) -> Result<ImportDirective, AllocError>
    requires own { id ≡ extern_crate_id (core_in run.now).map site.now head.id }
    ensures value { IfOk result (λ import. import
        ≡ crate_import (core_in run.now).map (core_in run.now).dependencies site.now (head_of head.entry) name.now alias.now) }
{
    Ok(ImportDirective {
        home: site.home,
        source: ImportSource::ExternCrate {
            id,
            krate: run.crate_named(name),
        },
        visibility: head.visibility.clone()?,
        path: SharedPath::alone(path_of_crate(run.allocator(), name)?),
        alias: clone_alias(alias)?,
    })
}

/// Lists an `extern crate`, and notes it as an import; in the crate's root module paths may begin with its name from
/// then on. The macros come into the macro-use prelude that its `macro_use` attributes bring.
///
/// After rust-analyzer's `ModCollector`, at an `extern crate`.
pub fn reach_extern_crate(
    run: &mut DefCollector,
    world: WorldPart<'_>,
    site: &Site,
    head: ItemHead<'_>,
    name: &ExternCrateName,
    alias: &Option<ImportAlias>,
) -> Result<(), StepError>
    requires enabled { is_enabled (head_of head).attributes ≡ true }
    ensures ok { OnOk result ((env : Environment) → Handles env (part_of world.entry) (core_in run.old) (core_in run.new) (visit site.now (leaf (head_of head.entry) (extern_crate name.now alias.now))) []) }
    ensures noted { OnOk result (IsNoted run.old run.new) }
    ensures many { result ≡ Err StepError.TooMany → STEP_LIMIT ≤ (core_in run.old).count }
{
    let id = ExternCrateId {
        loc: ItemLoc {
            container: run.module_id(site.home),
            file_id: site.tree.file,
            block: site.tree.block,
            id: head.id,
        },
    };
    let import = crate_import(run, site, head, id, name, alias)?;
    run.add_extern(&import)?;
    run.use_macros(world, head, name, id)?;
    run.reach(import)?;
    run.list_extern_crate(site.home, id)?;
    run.tick()?;
    Ok(())
}
