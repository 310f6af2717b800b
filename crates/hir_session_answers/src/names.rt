//! What the names of a module stand for, in source items.
ghost use Rattle.std.specs.Prelude.{◌≡◌, IfOk, option_map};
ghost use Rattle.std.specs.Option.{option_copied};
ghost use Rattle.hir_session_state.specs.HirNameres.DefMaps.{maps_of};
ghost use Rattle.hir_session_answers.specs.Names.{named_in, names_in};

use crate::answers::{macro_item_at, type_at, value_at};
use hir_base::name::Name;
use hir_session_state::hir_def_map::def_maps::DefMaps;
use hir_session_state::hir_messages::names::BoundName;
use hir_session_state::hir_scope::item_scope::ItemScope;
use hir_session_state::hir_scope::per_ns::PerNs;
use hir_tables::Tables;
use std::alloc::{AllocError, Global};

/// The same name, where there is one; its bytes are shared.
fn shared(name: Option<&Name>) -> Result<Option<Name>, AllocError>
    ensures value { IfOk result (λ copy. copy ≡ option_copied name.entry) }
{
    match name {
        Some(name) => Ok(Some(name.clone()?)),
        None => Ok(None),
    }
}

/// What a name stands for.
fn named_at(
    alloc: Global,
    tables: &Tables,
    maps: &DefMaps<'_>,
    name: Option<&Name>,
    items: PerNs,
) -> Result<BoundName, AllocError>
    ensures value { IfOk result (λ told. told ≡ named_in tables.now (maps_of maps.now) (option_copied name.entry, items)) }
{
    let name = shared(name)?;
    let types = type_at(alloc, tables, maps, items.types)?;
    let values = value_at(alloc, tables, maps, items.values)?;
    let macros = macro_item_at(alloc, tables, maps, items.macros)?;
    Ok(BoundName {
        name,
        types,
        values,
        macros,
    })
}

/// What the names of a scope stand for, in order, and then its traits without a name.
pub fn names_at(
    alloc: Global,
    tables: &Tables,
    maps: &DefMaps<'_>,
    scope: &ItemScope,
) -> Result<Vec<BoundName>, AllocError>
    ensures value { IfOk result (λ told. told.items ≡ names_in tables.now (maps_of maps.now) scope.now) }
{
    let mut told = Vec::new(alloc);
    let mut left = scope.resolutions();
    'names: while let Some((name, items)) = left.next() {
        told.push(named_at(alloc, tables, maps, name, items)?)?;
    }
    Ok(told)
}
