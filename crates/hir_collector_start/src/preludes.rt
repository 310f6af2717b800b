//! What all modules of a crate find.
ghost use Rattle.std.specs.Prelude.{◌≡◌, IfOk};
ghost use Rattle.hir_collector_rules.specs.HirNameres.WorldParts.{part_of};
ghost use Rattle.hir_collector_rules.specs.Start.{own_prelude};
ghost use Rattle.hir_collector_rules.specs.Preludes.{edition_module, module_named, module_of, prelude_crate, prelude_of, prelude_path};

use hir_base::edition::Edition;
use hir_base::ids::{ModuleDefId, ModuleId, UseId};
use hir_base::mod_path::{ModPath, PathKind};
use hir_base::name::Name;
use hir_collector_rules::hir_nameres::def_maps::DefMaps;
use hir_collector_rules::hir_nameres::nameres::DefMap;
use hir_collector_rules::hir_nameres::nameres::local_def_map::LocalDefMap;
use hir_collector_rules::hir_nameres::nameres::path_resolution::query::Query;
use hir_collector_rules::hir_nameres::nameres::path_resolution::{BuiltinShadowMode, ResolveMode};
use hir_collector_rules::hir_nameres::world::part::WorldPart;
use hir_collector_rules::hir_scope::per_ns::TypesItem;
use hir_collector_rules::names::known_name;
use hir_collector_rules::start::Start;
use smallvec::SmallVec;
use std::alloc::{AllocError, Global};

/// The module of an edition.
fn edition_module(alloc: Global, edition: Edition) -> Result<Name, AllocError>
    ensures value { IfOk result (λ name. name ≡ edition_module edition) }
{
    let text = match edition {
        Edition::Edition2015 => "rust_2015",
        Edition::Edition2018 => "rust_2018",
        Edition::Edition2021 => "rust_2021",
        Edition::Edition2024 => "rust_2024",
    };
    known_name(alloc, text)
}

/// The crate whose prelude it is.
fn prelude_crate(alloc: Global, local: &LocalDefMap) -> Result<Name, AllocError>
    ensures value { IfOk result (λ name. name ≡ prelude_crate local.now) }
{
    let name = known_name(alloc, "std")?;
    if local.extern_crate(&name).is_some() {
        Ok(name)
    } else {
        known_name(alloc, "core")
    }
}

fn prelude_path(alloc: Global, edition: Edition, local: &LocalDefMap) -> Result<ModPath, AllocError>
    ensures value { IfOk result (λ path. path ≡ prelude_path edition local.now) }
{
    let mut segments = SmallVec::new(alloc);
    segments.push(prelude_crate(alloc, local)?)?;
    segments.push(known_name(alloc, "prelude")?)?;
    segments.push(edition_module(alloc, edition)?)?;
    Ok(ModPath::from_segments(PathKind::Abs, segments))
}

/// A module that a path led to, and the `use` that brought it, if one did.
fn module_of(types: Option<TypesItem>) -> Option<(ModuleId, Option<UseId>)>
    ensures value { result ≡ module_of types }
{
    let Some(item) = types else {
        return None;
    };
    let ModuleDefId::ModuleId(module) = item.def else {
        return None;
    };
    match item.import {
        Some(import) => Some((module, import.use_())),
        None => Some((module, None)),
    }
}

/// The module that a path names, asked for from a crate's root.
#[tactic(auto, unfolding(hir_collector_rules::specs::Preludes::module_named))]
fn module_named(
    world: WorldPart<'_>,
    map: &DefMap,
    local: &LocalDefMap,
    path: &ModPath,
) -> Option<(ModuleId, Option<UseId>)>
    ensures value { result ≡ module_named (part_of world.entry) map.now local.now path.now }
{
    let query = Query {
        maps: DefMaps::new(world, map),
        local: Some(local),
        mode: ResolveMode::Other,
        shadow: BuiltinShadowMode::Other,
        sub_ns: None,
    };
    let answer = query.resolve(map.root(), path.kind(), path.segments());
    module_of(answer.resolved_def.types)
}

/// The prelude module of a crate.
fn prelude(
    alloc: Global,
    world: WorldPart<'_>,
    map: &DefMap,
    local: &LocalDefMap,
) -> Result<Option<(ModuleId, Option<UseId>)>, AllocError>
    ensures value { IfOk result (λ found. found ≡ prelude_of (part_of world.entry) map.now local.now) }
{
    if map.crate_data().no_core() {
        return Ok(None);
    }
    let path = prelude_path(alloc, map.edition(), local)?;
    Ok(module_named(world, map, local, &path))
}

/// The prelude module of a run's map; a block has none of its own.
pub fn own_prelude(
    alloc: Global,
    world: WorldPart<'_>,
    map: &DefMap,
    local: &LocalDefMap,
    start: Start,
) -> Result<Option<(ModuleId, Option<UseId>)>, AllocError>
    ensures value { IfOk result (λ found. found ≡ own_prelude (part_of world.entry) map.now local.now start) }
{
    match start {
        Start::Crate { .. } => Ok(prelude(alloc, world, map, local)?),
        Start::Block { .. } => Ok(None),
    }
}
