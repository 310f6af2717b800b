//! What a run begins with: what is said of its crate, and the crates that paths may begin with.
ghost use Rattle.std.specs.Prelude.{◌≡◌, [], IfOk, OnOk};
ghost use Rattle.std.specs.Ordering.{nat_cmp};
ghost use Rattle.std.specs.Cmp.Lexicographic.{slice_cmp};
ghost use Rattle.std.specs.List.Sorted.{IsStrictlySortedBy};
ghost use Rattle.hir_collector_rules.specs.HirNameres.WorldParts.{part_of};
ghost use Rattle.hir_collector_rules.specs.HirIds.declared.edition.Edition.TheVariants.{Edition2024};
ghost use Rattle.hir_collector_rules.specs.CrateTop.{crate_data_of};
ghost use Rattle.hir_collector_rules.specs.Start.{start_data, start_local};

use crate::crate_top::{add_tools, top_data};
use crate::extern_prelude::extern_prelude;
use hir_base::edition::Edition;
use hir_base::ids::MapId;
use hir_base::name::Name;
use hir_collector_rules::hir_crate_graph::crate_set::CrateSet;
use hir_collector_rules::hir_nameres::nameres::crate_data::DefMapCrateData;
use hir_collector_rules::hir_nameres::nameres::local_def_map::LocalDefMap;
use hir_collector_rules::hir_nameres::world::part::WorldPart;
use hir_collector_rules::source_database::Dependency;
use hir_collector_rules::start::Start;
use hir_item_tree::attrs::AttrsOrCfg;
use hir_item_tree::item_tree::ItemTree;
use std::alloc::{AllocError, Global};
use std::collections::BTreeSet;
use std::rc::Rc;

/// The features are in order.
fn features_ascend(features: &BTreeSet<Name>)
    ensures ordered { IsStrictlySortedBy (slice_cmp nat_cmp) features.now.keys }
{
    let _ = features.len();
}

/// Adds features to data that have none.
fn copy_features(
    crate_data: &mut DefMapCrateData,
    features: &BTreeSet<Name>,
) -> Result<(), AllocError>
    requires none { crate_data.old.features ≡ [] }
    ensures ok { OnOk result (crate_data.new ≡ record crate_data.old { features = features.now.keys }) }
{
    features_ascend(features);
    let mut left = features.iter();
    'next: while let Some(name) = left.next() {
        crate_data.add_feature(name.clone()?)?;
    }
    Ok(())
}

/// The same data, with these transitive dependencies.
fn copied_data(
    alloc: Global,
    crate_data: &DefMapCrateData,
    transitive: Rc<CrateSet>,
) -> Result<DefMapCrateData, AllocError>
    ensures value { IfOk result (λ copy. copy ≡ record crate_data.now { dependencies = transitive.value }) }
{
    let mut copy = DefMapCrateData::new(alloc, crate_data.edition(), transitive);
    copy.set_rustc_coherence_is_core(crate_data.rustc_coherence_is_core());
    copy.set_no_core(crate_data.no_core());
    copy.set_no_std(crate_data.no_std());
    copy.set_recursion_limit(crate_data.recursion_limit());
    copy_features(&mut copy, crate_data.features())?;
    add_tools(&mut copy, crate_data.registered_tools())?;
    Ok(copy)
}

/// What a crate says without attributes, in the latest edition.
fn bare_data(alloc: Global, transitive: Rc<CrateSet>) -> Result<DefMapCrateData, AllocError>
    ensures value { IfOk result (λ crate_data. crate_data ≡ crate_data_of Edition2024 [] transitive.value) }
{
    top_data(
        alloc,
        Edition::LATEST,
        &AttrsOrCfg::empty(alloc),
        transitive,
    )
}

/// What the crate's top says, with its transitive dependencies; a block has what its crate's map has.
pub fn start_data(
    alloc: Global,
    world: WorldPart<'_>,
    tree: &ItemTree,
    transitive: Rc<CrateSet>,
    start: Start,
) -> Result<DefMapCrateData, AllocError>
    ensures value { IfOk result (λ crate_data. crate_data ≡ start_data (part_of world.entry) tree.now transitive.value start) }
{
    match start {
        Start::Crate { root, .. } => {
            top_data(alloc, root.edition, tree.top_level_attrs(), transitive)
        }
        Start::Block { krate, .. } => match world.map(MapId::of_crate(krate)) {
            Some(map) => copied_data(alloc, map.crate_data(), transitive),
            None => bare_data(alloc, transitive),
        },
    }
}

/// The crates that paths may begin with; in a block those of its crate's map.
pub fn start_local(
    alloc: Global,
    world: WorldPart<'_>,
    crate_data: &DefMapCrateData,
    dependencies: &[Dependency],
    start: Start,
) -> Result<LocalDefMap, AllocError>
    ensures value { IfOk result (λ local. local ≡ start_local (part_of world.entry) crate_data.now dependencies.now start) }
{
    match start {
        Start::Crate { .. } => extern_prelude(alloc, crate_data, dependencies),
        Start::Block { krate, .. } => match world.local(MapId::of_crate(krate)) {
            Some(local) => local.clone(alloc),
            None => Ok(LocalDefMap::empty(alloc)),
        },
    }
}
