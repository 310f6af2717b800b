//! Which slots may have changed.
ghost use Rattle.std.specs.Prelude.{◌≡◌, true, IsSome, None, OnOk, map as list_map};
ghost use Rattle.hir_collector_rules.specs.HirDefMapRules.State.{variants_at};
ghost use Rattle.hir_collector_rules.specs.HirImportRules.Changed.{everything};
ghost use Rattle.hir_collector_rules.specs.HirItemTree.Collected.{numbered};
ghost use Rattle.hir_collector_rules.specs.HirScope.Entries.{item_at};
ghost use Rattle.hir_collector_rules.specs.Macros.{public_among, public_at, public_named, public_one, textual_at, wanted_among};
ghost use Rattle.hir_collector_state.specs.MacroUses.{with_each};

use hir_base::ids::EnumId;
use hir_base::name::Name;
use hir_collector_rules::crate_attrs::listed;
use hir_collector_rules::hir_nameres::nameres::DefMap;
use hir_collector_rules::hir_scope::item_scope::ItemScope;
use hir_collector_rules::hir_scope::per_ns::MacrosItem;
use hir_collector_start::macro_use::wants_all;
use hir_import_growth::Changed;
use hir_item_tree::attrs::Attr;
use std::alloc::{AllocError, Global};

/// All slots may have changed where an enum gets variants that has some.
pub fn note_variants(changed: &mut Changed, map: &DefMap, id: EnumId)
    ensures fresh { variants_at map.now id ≡ None → changed.new ≡ changed.old }
    ensures again { IsSome (variants_at map.now id) → changed.new ≡ everything }
{
    if map.enum_variants(id).is_some() {
        changed.add_everything();
    }
}

/// How many macros may be compared where so many imports and calls were come upon: it is to cost less than to try these again,
/// and nothing where all of them are tried again anyway.
pub fn most_compared(changed: &Changed, tried: usize) -> usize {
    if changed.is_everything() { 0 } else { tried }
}

/// Whether the same macros, and no more than so many, are in textual scope in two modules that are there.
pub fn has_same_textual(map: &DefMap, home: u32, from: u32, most: usize) -> bool
    ensures same { result ≡ true → textual_at map.now home ≡ textual_at map.now from }
{
    let Some(own) = map.scope(home) else {
        return false;
    };
    let Some(other) = map.scope(from) else {
        return false;
    };
    let macros = own.textual_scope();
    if macros.len() > most {
        return false;
    }
    *macros == *other.textual_scope()
}

/// Notes the name of a macro in the preludes, if it is public.
fn note_public(changed: &mut Changed, name: &Name, item: MacrosItem) -> Result<(), AllocError>
    ensures ok { OnOk result (changed.new ≡ with_each (public_one name.now item) changed.old) }
{
    if item.vis.is_public() {
        changed.add_prelude(name)?;
    }
    Ok(())
}

/// Notes the names of the public macros of a scope.
fn note_all(changed: &mut Changed, scope: &ItemScope) -> Result<(), AllocError>
    ensures ok { OnOk result (changed.new ≡ with_each (public_among scope.now.macros) changed.old) }
{
    for (name, item) in scope.macros() {
        note_public(changed, name, *item)?;
    }
    Ok(())
}

/// Notes a name, if it stands for a public macro in a scope.
fn note_name(changed: &mut Changed, scope: &ItemScope, name: &Name) -> Result<(), AllocError>
    ensures ok { OnOk result (changed.new ≡ with_each (public_named name.now (item_at scope.now.macros name.now)) changed.old) }
{
    match scope.get(name).macros {
        Some(item) => note_public(changed, name, item),
        None => Ok(()),
    }
}

/// Notes those of these names that stand for public macros in a scope.
fn note_names(changed: &mut Changed, scope: &ItemScope, names: &[Name]) -> Result<(), AllocError>
    ensures ok { OnOk result (changed.new ≡ with_each (public_at scope.now.macros names.now) changed.old) }
{
    for name in names {
        note_name(changed, scope, name)?;
    }
    Ok(())
}

/// Notes the names of those macros of a scope that the `macro_use` attributes of an `extern crate` bring.
pub fn note_wanted(
    alloc: Global,
    changed: &mut Changed,
    scope: &ItemScope,
    attrs: &[Attr],
) -> Result<(), AllocError>
    ensures ok { OnOk result (changed.new ≡ with_each (wanted_among (list_map numbered attrs.now) scope.now.macros) changed.old) }
{
    if wants_all(attrs) {
        return note_all(changed, scope);
    }
    let names = listed(alloc, attrs, "macro_use")?;
    note_names(changed, scope, names.as_slice())
}
