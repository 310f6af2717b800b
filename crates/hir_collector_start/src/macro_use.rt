//! The macros of other crates that a crate uses.
ghost use Rattle.std.specs.Prelude.{◌≡◌, map as list_map, option_map, Some, OnOk};
ghost use Rattle.hir_collector_rules.specs.HirItemTree.Attributes.{input_view};
ghost use Rattle.hir_collector_rules.specs.HirItemTree.Collected.{collected_of, numbered};
ghost use Rattle.hir_collector_rules.specs.HirScope.Entries.{item_at};
ghost use Rattle.hir_collector_rules.specs.HirNameres.WorldParts.{part_of};
ghost use Rattle.hir_collector_rules.specs.Macros.{is_macro_use, lists_names, public_among, public_at, public_named, public_one, root_scope, wanted_among, wants_all, with_macros_used};
ghost use Rattle.hir_collector_rules.specs.Preludes.{with_prelude_macros};

use hir_base::ids::{Crate, ExternCrateId, MapId};
use hir_base::name::Name;
use hir_collector_rules::crate_attrs::{is_keyed, listed, says};
use hir_collector_rules::hir_nameres::nameres::DefMap;
use hir_collector_rules::hir_nameres::world::part::WorldPart;
use hir_collector_rules::hir_scope::item_scope::ItemScope;
use hir_collector_rules::hir_scope::per_ns::MacrosItem;
use hir_item_tree::attrs::{Attr, AttrsOrCfg};
use hir_item_tree::raw_attr::{AttrInput, TokenTree};
use std::alloc::{AllocError, Global};

/// Uses a macro, if it is public.
fn use_public(
    map: &mut DefMap,
    name: &Name,
    item: MacrosItem,
    by: Option<ExternCrateId>,
) -> Result<(), AllocError>
    ensures ok { OnOk result (map.new ≡ with_macros_used map.old (public_one name.now item) by) }
{
    if item.vis.is_public() {
        map.add_macro_use(name.clone()?, item.def, by)?;
    }
    Ok(())
}

/// Uses the public macros of a scope.
fn use_all(map: &mut DefMap, scope: &ItemScope, by: Option<ExternCrateId>) -> Result<(), AllocError>
    ensures ok { OnOk result (map.new ≡ with_macros_used map.old (public_among scope.now.macros) by) }
{
    for (name, item) in scope.macros() {
        use_public(map, name, *item, by)?;
    }
    Ok(())
}

/// Uses what a name stands for in a scope, if that is a public macro.
fn use_name(
    map: &mut DefMap,
    scope: &ItemScope,
    name: &Name,
    by: Option<ExternCrateId>,
) -> Result<(), AllocError>
    ensures ok { OnOk result (map.new ≡ with_macros_used map.old (public_named name.now (item_at scope.now.macros name.now)) by) }
{
    match scope.get(name).macros {
        Some(item) => use_public(map, name, item, by),
        None => Ok(()),
    }
}

/// Uses the public macros of a scope that have these names.
fn use_names(
    map: &mut DefMap,
    scope: &ItemScope,
    names: &[Name],
    by: Option<ExternCrateId>,
) -> Result<(), AllocError>
    ensures ok { OnOk result (map.new ≡ with_macros_used map.old (public_at scope.now.macros names.now) by) }
{
    for name in names {
        use_name(map, scope, name, by)?;
    }
    Ok(())
}

/// Whether an attribute lists names.
fn lists_names(input: &Option<AttrInput>) -> bool
    ensures value { result ≡ lists_names (option_map input_view input.now) }
{
    match input {
        Some(AttrInput::TokenTree(TokenTree::Paths(_))) => true,
        _ => false,
    }
}

/// Whether some `macro_use` lists none.
pub fn wants_all(attrs: &[Attr]) -> bool
    ensures value { result ≡ wants_all (list_map numbered attrs.now) }
{
    for attr in attrs {
        if is_keyed(attr, "macro_use") && !lists_names(&attr.meta.input) {
            return true;
        }
    }
    false
}

/// Uses those macros of a scope that the `macro_use` attributes of an `extern crate` bring.
///
/// After rust-analyzer's `process_macro_use_extern_crate`.
pub fn use_wanted(
    alloc: Global,
    map: &mut DefMap,
    scope: &ItemScope,
    attrs: &[Attr],
    by: ExternCrateId,
) -> Result<(), AllocError>
    ensures ok { OnOk result (map.new ≡ with_macros_used map.old (wanted_among (list_map numbered attrs.now) scope.now.macros) (Some by)) }
{
    if wants_all(attrs) {
        return use_all(map, scope, Some(by));
    }
    let names = listed(alloc, attrs, "macro_use")?;
    use_names(map, scope, names.as_slice(), Some(by))
}

/// What the root of a crate binds, if its map is there.
pub fn root_scope<'a>(world: WorldPart<'a>, krate: Crate) -> Option<&'a ItemScope>
    ensures value { option_map (λ s. s.now) result ≡ root_scope (part_of world.entry) krate }
{
    match world.map(MapId::of_crate(krate)) {
        Some(map) => map.scope(0),
        None => None,
    }
}

/// Uses the macros that come with the prelude module: those of its crate, if that is another one.
pub fn use_prelude_macros(world: WorldPart<'_>, map: &mut DefMap) -> Result<(), AllocError>
    ensures ok { OnOk result (map.new ≡ with_prelude_macros (part_of world.entry) map.old) }
{
    let Some((module, _)) = map.prelude() else {
        return Ok(());
    };
    let krate = module.map.krate;
    if krate == map.id().krate {
        return Ok(());
    }
    match root_scope(world, krate) {
        Some(scope) => use_all(map, scope, None),
        None => Ok(()),
    }
}

/// Whether the macros that are in textual scope at the end of a module stay so behind it.
pub fn is_macro_use(attrs: &AttrsOrCfg) -> bool
    ensures value { result ≡ is_macro_use (collected_of attrs.now) }
{
    says(attrs.attrs.as_slice(), "macro_use")
}
