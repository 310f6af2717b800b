//! What the imports of a scope reached, and which pushes change a slot.
ghost use Rattle.std.specs.Prelude.{◌≡◌, ℕ, List, Option, None, Some, IfOk, OnErr};
ghost use Rattle.hir_scope_item.specs.declared.item.Item.{Item};
ghost use Rattle.hir_scope_item.specs.Bindings.{is_reresolved_by, takes};
ghost use Rattle.hir_scope_table.specs.Entries.{item_at};
ghost use Rattle.hir_scope_table.specs.Globs.{Place, place_cmp, has_place};
ghost use Rattle.hir_scope_table.specs.Table.{pushed_item, taken, is_globs, record_entry, written_places, written_records};
ghost use Rattle.hir_scope_table.specs.Inner.Reserved.{IsEntryFor, IsKeyFor};

use crate::globs::Globs;
use crate::item::{Candidate, Item};
use crate::reserved::{Reserved, add_entry, remove_entry, write_entry};
use hir_ids::ids::ModuleId;
use hir_ids::name::Name;
use std::alloc::AllocError;
use std::collections::BTreeMap;

/// Whether an item replaces a bound one because the import that bound it now reaches another definition.
fn is_reresolved_by<Def: Copy + PartialEq, Vis: Copy, Import: Copy + PartialEq>(
    bound: Item<Def, Vis, Import>,
    push: Item<Def, Vis, Import>,
) -> bool
    ensures value { result ≡ is_reresolved_by Def.eq Import.eq bound push }
{
    match (bound.import, push.import) {
        (Some(by), Some(import)) => by == import && bound.def != push.def,
        _ => false,
    }
}

/// Whether a candidate changes a slot, by what is bound there, and by whether a glob brought it.
fn takes<Def: Copy + PartialEq, Vis: Copy, Import: Copy + PartialEq, Target: Copy>(
    globs: &Globs,
    at: &(ModuleId, Name),
    bound: Option<Item<Def, Vis, Import>>,
    candidate: Candidate<Def, Vis, Import, Target>,
) -> bool
    ensures value { result ≡ takes Def.eq Import.eq (has_place globs.now at.now) bound candidate.push }
{
    match bound {
        None => true,
        Some(bound) => {
            let is_glob = candidate.push.is_glob;
            !is_glob && (globs.contains(at) || is_reresolved_by(bound, candidate.push.item))
        }
    }
}

/// What is recorded of a candidate's import.
fn record_entry<Def: Copy, Vis: Copy, Import: Copy, Target: Copy>(
    candidate: Candidate<Def, Vis, Import, Target>,
) -> Option<(Import, Target)>
    ensures value { result ≡ record_entry (Some candidate) }
{
    match candidate.push.item.import {
        Some(import) => Some((import, candidate.source)),
        None => None,
    }
}

/// The candidate, if it changes a slot where this is bound.
pub fn taken<Def: Copy + PartialEq, Vis: Copy, Import: Copy + PartialEq, Target: Copy>(
    globs: &Globs,
    at: &(ModuleId, Name),
    bound: Option<Item<Def, Vis, Import>>,
    candidate: Option<Candidate<Def, Vis, Import, Target>>,
) -> Option<Candidate<Def, Vis, Import, Target>>
    ensures value { (items : List (List ℕ × Item Def Vis Import)) → bound ≡ item_at items at.now.1
        → result ≡ taken Def.eq Import.eq items globs.now at.now candidate }
{
    let candidate = candidate?;
    if takes(globs, at, bound, candidate) {
        Some(candidate)
    } else {
        None
    }
}

/// What a candidate binds.
pub fn pushed_item<Def: Copy, Vis: Copy, Import: Copy, Target: Copy>(
    candidate: Option<Candidate<Def, Vis, Import, Target>>,
) -> Option<Item<Def, Vis, Import>>
    ensures value { result ≡ pushed_item candidate }
{
    match candidate {
        Some(candidate) => Some(candidate.push.item),
        None => None,
    }
}

/// Reserves the record of a candidate's import and its name in the glob table, or leaves both as they are.
pub fn reserve<Def: Copy, Vis: Copy, Import: Copy + Ord, Target: Copy>(
    records: &mut BTreeMap<Import, Target>,
    globs: &mut Globs,
    at: &(ModuleId, Name),
    candidate: Option<Candidate<Def, Vis, Import, Target>>,
) -> Result<Reserved, AllocError>
    ensures globs { IfOk result (λ reserved. IsKeyFor place_cmp globs.old at.now (is_globs candidate) reserved.glob globs.new) }
    ensures records { IfOk result (λ reserved. IsEntryFor Import.cmp records.old.entries (record_entry candidate) reserved.source records.new.entries) }
    ensures err { OnErr result (records.new.entries ≡ records.old.entries) }
    ensures err_globs { OnErr result (globs.new ≡ globs.old) }
{
    let Some(candidate) = candidate else {
        return Ok(Reserved {
            glob: false,
            source: false,
        });
    };
    let entry = record_entry(candidate);
    let glob = globs.reserve(at, candidate.push.is_glob)?;
    match add_entry(records, entry) {
        Ok(source) => Ok(Reserved { glob, source }),
        Err(refused) => {
            globs.roll_back(at, glob);
            Err(refused)
        }
    }
}

/// Rolls back what was reserved for a candidate.
pub fn roll_back<Def: Copy, Vis: Copy, Import: Copy + Ord, Target: Copy>(
    records: &mut BTreeMap<Import, Target>,
    globs: &mut Globs,
    at: &(ModuleId, Name),
    candidate: Option<Candidate<Def, Vis, Import, Target>>,
    reserved: Reserved,
)
    ensures globs { (earlier : List Place)
        → IsKeyFor place_cmp earlier at.now (is_globs candidate) reserved.glob globs.old → globs.new ≡ earlier }
    ensures records { (earlier : List (Import × Target))
        → IsEntryFor Import.cmp earlier (record_entry candidate) reserved.source records.old.entries → records.new.entries ≡ earlier }
{
    let Some(candidate) = candidate else {
        return;
    };
    globs.roll_back(at, reserved.glob);
    if let Some(import) = candidate.push.item.import {
        remove_entry(records, &import, reserved.source);
    }
}

/// Writes the record of a candidate's import and its name in the glob table, once both are reserved.
pub fn write<Def: Copy, Vis: Copy, Import: Copy + Ord, Target: Copy>(
    records: &mut BTreeMap<Import, Target>,
    globs: &mut Globs,
    at: &(ModuleId, Name),
    candidate: Option<Candidate<Def, Vis, Import, Target>>,
    reserved: Reserved,
)
    ensures globs { (earlier : List Place)
        → IsKeyFor place_cmp earlier at.now (is_globs candidate) reserved.glob globs.old → globs.new ≡ written_places at.now candidate earlier }
    ensures records { (earlier : List (Import × Target))
        → IsEntryFor Import.cmp earlier (record_entry candidate) reserved.source records.old.entries → records.new.entries ≡ written_records Import.cmp candidate earlier }
{
    let Some(candidate) = candidate else {
        return;
    };
    let is_glob = candidate.push.is_glob;
    if let Some((import, source)) = record_entry(candidate) {
        write_entry(records, &import, source, reserved.source);
    }
    if !is_glob {
        globs.remove(at);
    }
}
