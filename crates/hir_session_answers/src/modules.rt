//! The places of the modules of a map.
//!
//! The name of a module is looked for among those of the modules beside it, which costs as much as there are of them. Where
//! thousands of modules are in one, a table of names by number would be faster.
ghost use Rattle.std.specs.Prelude.{◌≡◌, ◌++◌, length, reverse, IfOk, OnOk, option_map};
ghost use Rattle.std.specs.Option.{option_copied};
ghost use Rattle.hir_session_state.specs.HirDefMapRules.State.{module_at};
ghost use Rattle.hir_session_answers.specs.Modules.{is_of_file, is_wanted, name_among, name_below, place_of, places_of, steps_to, wanted_place};

use hir_base::ast_id::EditionedFileId;
use hir_base::file_path::FilePath;
use hir_base::name::Name;
use hir_base::place::{Place, PlaceElement};
use hir_session_state::hir_def_map::nameres::DefMap;
use hir_session_state::hir_def_map::nameres::module_data::ModuleData;
use hir_tables::Tables;
use std::alloc::{AllocError, Global};

/// The name under which a module has another in it.
fn name_among(holder: &ModuleData, at: u32) -> Option<&Name>
    ensures value { option_copied result ≡ name_among holder.now.children at }
{
    let mut children = holder.children();
    'children: while let Some((name, child)) = children.next() {
        if child.index == at {
            return Some(name);
        }
    }
    None
}

/// The same by the numbers of both.
fn name_below(map: &DefMap, holder: u32, at: u32) -> Option<&Name>
    ensures value { option_copied result ≡ name_below map.now holder at }
{
    match map.modules().as_slice().get(holder as usize) {
        Some(holder) => name_among(holder, at),
        None => None,
    }
}

/// The steps that lead to a module from the root, the last first, if any do.
fn steps_up(alloc: Global, map: &DefMap, at: u32) -> Result<Option<Vec<PlaceElement>>, AllocError>
    ensures value { IfOk result (λ steps. option_map (λ v. reverse v.items) steps ≡ steps_to map.now (length map.now.modules) at) }
{
    let mut steps = Vec::new(alloc);
    let mut now = at;
    let mut left = map.module_count();
    'up: while left > 0 {
        let Some(holder) = map.parent_of(now) else {
            return Ok(Some(steps));
        };
        let Some(name) = name_below(map, holder.index, now) else {
            return Ok(None);
        };
        steps.push(PlaceElement::Module(name.clone()?))?;
        now = holder.index;
        left -= 1;
    }
    Ok(None)
}

/// The place of a module, if it has one.
fn place_at(alloc: Global, map: &DefMap, at: u32) -> Result<Option<Place>, AllocError>
    ensures value { IfOk result (λ place. place ≡ place_of map.now at) }
{
    match steps_up(alloc, map, at)? {
        Some(mut steps) => {
            steps.reverse();
            Ok(Some(Place::new(map.id().krate, steps)))
        }
        None => Ok(None),
    }
}

/// Whether the file that a module has to itself is the one at a path.
fn is_of_file(tables: &Tables, path: &FilePath, own: Option<EditionedFileId>) -> bool
    ensures value { result ≡ is_of_file tables.now path.now own }
{
    let Some(own) = own else {
        return false;
    };
    match tables.file(own.file_id) {
        Some(file) => *file == *path,
        None => false,
    }
}

/// Whether a module is asked for.
fn is_wanted(tables: &Tables, path: Option<&FilePath>, map: &DefMap, at: u32) -> bool
    ensures value { result ≡ is_wanted tables.now (option_copied path.entry) (module_at map.now at) }
{
    match (path, map.origin(at)) {
        (Some(path), Some(origin)) => is_of_file(tables, path, origin.file_id()),
        (Some(_), None) => false,
        (None, _) => true,
    }
}

/// The place of a module that is asked for, if it has one.
fn wanted_at(
    alloc: Global,
    tables: &Tables,
    path: Option<&FilePath>,
    map: &DefMap,
    at: u32,
) -> Result<Option<Place>, AllocError>
    ensures value { IfOk result (λ place. place ≡ wanted_place tables.now (option_copied path.entry) map.now at) }
{
    if is_wanted(tables, path, map, at) {
        place_at(alloc, map, at)
    } else {
        Ok(None)
    }
}

/// Lists the places of the modules of a map, or, where a path is given, of those that have the file at it to themselves.
pub fn list_modules(
    alloc: Global,
    tables: &Tables,
    path: Option<&FilePath>,
    map: &DefMap,
    places: &mut Vec<Place>,
) -> Result<(), AllocError>
    ensures ok { OnOk result (places.new.items ≡ places.old.items ++ places_of tables.now (option_copied path.entry) map.now) }
{
    for at in 0..map.module_count() {
        if let Some(place) = wanted_at(alloc, tables, path, map, at)? {
            places.push(place)?;
        }
    }
    Ok(())
}
