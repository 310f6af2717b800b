//! What the paths of imports reach, and what imports offer of it.
ghost use Rattle.std.specs.Prelude.{◌≡◌, option_map};
ghost use Rattle.hir_nameres.specs.WorldParts.{part_of};
ghost use Rattle.hir_import_rules.specs.Directives.{answer_in, answer_of_crate, brought, brought_type, imported, is_of_extern_crate, kept_by_kind, kept_of, open_items, target_among, target_at, trait_among};
ghost use Rattle.hir_import_rules.specs.Visibilities.{is_public};

use hir_base::ids::{AdtId, Crate, MapId, ModuleDefId, ModuleId, TraitId};
use hir_base::mod_path::ModPath;
use hir_glob_imports::Target;
pub use hir_import_growth::visibilities::{lesser, visibility};
use hir_nameres::def_maps::DefMaps;
use hir_nameres::hir_scope::imports::ImportOrExternCrate;
use hir_nameres::hir_scope::per_ns::{Item, PerNs, TypesItem};
use hir_nameres::hir_scope::visibility::Visibility;
use hir_nameres::nameres::DefMap;
use hir_nameres::nameres::local_def_map::LocalDefMap;
use hir_nameres::nameres::path_resolution::query::Query;
use hir_nameres::nameres::path_resolution::{
    BuiltinShadowMode, ReachedFixedPoint, ResolveMode, ResolvePathResult,
    ResolvePathResultPrefixInfo,
};
use hir_nameres::world::part::WorldPart;
use hir_use_tree::imports::ImportKind;

/// What a path means that a module's import names.
#[tactic(auto, unfolding(hir_import_rules::specs::Directives::answer_in))]
pub fn answer(
    map: &DefMap,
    local: &LocalDefMap,
    world: WorldPart<'_>,
    at: ModuleId,
    path: &ModPath,
) -> ResolvePathResult
    ensures value { result ≡ answer_in (part_of world.entry) local.now map.now at path.now }
{
    let query = Query {
        maps: DefMaps::new(world, map),
        local: Some(local),
        mode: ResolveMode::Import,
        shadow: BuiltinShadowMode::Module,
        sub_ns: None,
    };
    query.resolve(at, path.kind(), path.segments())
}

/// The answer to an `extern crate`: the root of the crate that it names.
pub fn answer_of_crate(krate: Option<Crate>) -> ResolvePathResult
    ensures value { result ≡ answer_of_crate krate }
{
    let Some(krate) = krate else {
        return ResolvePathResult::unresolved(ReachedFixedPoint::No);
    };
    let root = ModuleId {
        map: MapId { krate, block: None },
        index: 0,
    };
    ResolvePathResult {
        resolved_def: PerNs::types(ModuleDefId::ModuleId(root), Visibility::Public, None),
        segment_index: None,
        reached_fixedpoint: ReachedFixedPoint::Yes,
        prefix_info: ResolvePathResultPrefixInfo {
            differing_crate: false,
            enum_variant: false,
        },
    }
}

/// Whether all may see.
fn is_public(vis: Visibility) -> bool
    ensures value { result ≡ is_public vis }
{
    matches!(vis, Visibility::Public)
}

/// What may be taken of items: through another crate those alone that all may see.
pub(crate) fn open_items(crossing: bool, items: PerNs) -> PerNs
    ensures value { result ≡ open_items crossing items }
{
    if crossing {
        items.filter_visibility(is_public)
    } else {
        items
    }
}

/// What an import of this kind keeps of what it may take.
fn kept_by_kind(kind: ImportKind, items: PerNs) -> PerNs
    ensures value { result ≡ kept_by_kind kind items }
{
    match kind {
        ImportKind::Plain | ImportKind::Glob => items,
        ImportKind::TypeOnly => PerNs {
            types: items.types,
            values: None,
            macros: None,
        },
    }
}

/// What an import of this kind keeps of an answer.
pub fn kept(kind: ImportKind, answer: ResolvePathResult) -> PerNs
    ensures value { result ≡ kept_of kind answer }
{
    kept_by_kind(
        kind,
        open_items(answer.prefix_info.differing_crate, answer.resolved_def),
    )
}

/// An item as an import of this visibility offers it.
fn brought<Def: Copy, Import: Copy>(
    map: &DefMap,
    world: WorldPart<'_>,
    own: Visibility,
    item: Option<Item<Def, Import>>,
) -> Option<Item<Def, Import>>
    ensures value { result ≡ option_map (brought (part_of world.entry) map.now own) item }
{
    let Some(item) = item else {
        return None;
    };
    let vis = match lesser(map, world, own, item.vis) {
        Some(vis) => vis,
        None => own,
    };
    Some(Item {
        def: item.def,
        vis,
        import: item.import,
    })
}

/// Whether an `extern crate` bound an item.
fn is_of_extern_crate(import: Option<ImportOrExternCrate>) -> bool
    ensures value { result ≡ is_of_extern_crate import }
{
    matches!(import, Some(ImportOrExternCrate::ExternCrate(_)))
}

/// A type as an import of this visibility offers it, whose path is one name alone or isn't.
fn brought_type(
    map: &DefMap,
    world: WorldPart<'_>,
    own: Visibility,
    alone: bool,
    item: Option<TypesItem>,
) -> Option<TypesItem>
    ensures value { result ≡ option_map (brought_type (part_of world.entry) map.now own alone) item }
{
    match item {
        Some(found) if alone && is_of_extern_crate(found.import) => Some(Item {
            def: found.def,
            vis: own,
            import: found.import,
        }),
        _ => brought(map, world, own, item),
    }
}

/// What an import of this visibility, whose path is one name alone or isn't, offers of what it reaches.
pub fn imported(
    map: &DefMap,
    world: WorldPart<'_>,
    own: Visibility,
    alone: bool,
    items: PerNs,
) -> PerNs
    ensures value { result ≡ imported (part_of world.entry) map.now own alone items }
{
    PerNs {
        types: brought_type(map, world, own, alone, items.types),
        values: brought(map, world, own, items.values),
        macros: brought(map, world, own, items.macros),
    }
}

/// The trait that a type is, if it is one.
pub fn trait_among(types: Option<TypesItem>) -> Option<TraitId>
    ensures value { result ≡ trait_among types }
{
    match types?.def {
        ModuleDefId::TraitId(id) => Some(id),
        _ => None,
    }
}

/// A module as a glob names it: one of the map that is built by its number.
fn target_at(own: MapId, module: ModuleId) -> Target
    ensures value { result ≡ target_at own «module» }
{
    if module.map == own {
        Target::Own(module.index)
    } else {
        Target::Module(module)
    }
}

/// The module or the enum that a type is, if it is one.
pub fn target_among(own: MapId, types: Option<TypesItem>) -> Option<Target>
    ensures value { result ≡ target_among own types }
{
    match types?.def {
        ModuleDefId::ModuleId(module) => Some(target_at(own, module)),
        ModuleDefId::AdtId(AdtId::EnumId(id)) => Some(Target::Enum(id)),
        _ => None,
    }
}
