//! Which places an edit of a source invalidates.
//!
//! A run notes what it asked for: what sources have under crates, and what stands beside their trees. An edit changes one
//! source. Where that has no number no run asked for it, and nothing is compared. Else the keys of it for which places asked are
//! gone through, each once however many places asked: what the source has under the key's crate is made of the new one, once
//! for each crate, compared at the key with what it had, and then kept in its place.
//!
//! The one difficulty: a place is invalidated exactly where something that it asked for became another. Equal trees don't say
//! so: an absent source isn't an empty one, the variants of an enum, the text of a macro and the input of a call stand beside
//! the tree, and the error of an expansion beside its source.
ghost use Rattle.std.specs.Prelude.{◌≡◌, ◌≢◌, ◌↔◌, ◌++◌, [], true, false, Some, IsTrue, IfOk, OnOk, option_map};
ghost use Rattle.hir_session_state.specs.HirItemTree.SyntaxIds.{node_id};
ghost use Rattle.hir_session_state.specs.HirDefMapRules.Overlay.{no_maps};
ghost use Rattle.hir_session_state.specs.HirCollectorRules.Keys.{input_of, look, text_of};
ghost use Rattle.hir_session_state.specs.Askers.{HoldsExactly, listed};
ghost use Rattle.hir_session_state.specs.EditedSources.{seen_at, text_in, AreHit, AreJudged, IsJudged};
ghost use Rattle.hir_session_state.specs.Inputs.{workspace_after, workspace_by};
ghost use Rattle.hir_session_invalidation.specs.Invalidated.{AreChanges, IsChange, HasTreesOf};
ghost use Rattle.hir_session_state.specs.Kept.{Resolutions};
ghost use Rattle.hir_session_state.specs.Marks.{IsAltered};
ghost use Rattle.hir_session_sources.specs.EditValues.{edit_value};

use crate::edited_source::EditedSource;
use crate::inputs::Inputs;
use hir_base::ast_id::{AstKind, SyntaxId};
use hir_base::ids::{Crate, MapId};
use hir_base::macro_kind::MacroId;
use hir_base::text::Text;
use hir_item_tree::check::NodeId;
use hir_item_tree::source_tree::SourceTree;
use hir_session_sources::source_edit::SourceEdit;
use hir_session_sources::source_trees::CrateTrees;
use hir_session_state::askers::{Askers, KeyAskers, KeyPlaces};
use hir_session_state::hir_collector_rules::source_database::Key;
use hir_session_state::source_number::{key_tree, number_at};
use hir_tables::Tables;
use std::alloc::{AllocError, Global};
use std::collections::{BTreeMap, BTreeSet};
use std::rc::Rc;

/// What an edit of a source leads to.
#[derive(Drop)]
pub struct Invalidation {
    /// The places whose runs asked for something that becomes another.
    pub hits: Vec<MapId>,
    /// What the source then has under the crates of those that asked for it.
    pub trees: CrateTrees,
}

/// What the edited source has under crates, before and after the edit.
#[derive(Drop)]
struct Changes {
    before: CrateTrees,
    after: CrateTrees,
}

/// The same under one crate.
#[derive(Drop)]
struct Change {
    before: Rc<SourceTree>,
    after: Rc<SourceTree>,
}

/// How the source changes under a crate: as it was found, or made now.
fn change_under(
    alloc: Global,
    source: &EditedSource<'_>,
    changes: &mut Changes,
    krate: Crate,
) -> Result<Change, AllocError>
    requires changes { AreChanges source.now.inputs.now (edit_value source.now.edit) changes.old }
    ensures change { IfOk result (IsChange source.now.inputs.now (edit_value source.now.edit) krate) }
    ensures changes { OnOk result (AreChanges source.now.inputs.now (edit_value source.now.edit) changes.new) }
{
    if let (Some(before), Some(after)) = (changes.before.get(&krate), changes.after.get(&krate)) {
        return Ok(Change {
            before: before.clone()?,
            after: after.clone()?,
        });
    }
    let edit = source.edit;
    let before = source.inputs.tree(alloc, krate, edit.place())?;
    let after = source
        .inputs
        .tree_with(alloc, krate, edit.place(), edit.source())?;
    changes.before.insert(krate, before.clone()?)?;
    changes.after.insert(krate, after.clone()?)?;
    Ok(Change { before, after })
}

/// Whether both are there with the same text, or neither is.
fn is_same_text(one: Option<&Text>, other: Option<&Text>) -> bool
    ensures exact { IsTrue result ↔ (option_map (λ t. t.now) one.entry ≡ option_map (λ t. t.now) other.entry) }
{
    match (one, other) {
        (Some(one), Some(other)) => one == other,
        (None, None) => true,
        (Some(_), None) | (None, Some(_)) => false,
    }
}

/// Whether the macro of a node has the same text in both.
fn has_same_text(one: &SourceTree, other: &SourceTree, kind: AstKind, id: SyntaxId) -> bool
    ensures exact { IsTrue result ↔ (text_of one.now (node_id kind id) ≡ text_of other.now (node_id kind id)) }
{
    let node = NodeId { kind, id };
    is_same_text(one.text(node), other.text(node))
}

/// Whether a macro that the source defines has the same text in both.
fn has_same_macro(one: &SourceTree, other: &SourceTree, id: MacroId) -> bool
    ensures exact { IsTrue result ↔ (text_in one.now id ≡ text_in other.now id) }
{
    match id {
        MacroId::Macro2Id(id) => has_same_text(one, other, AstKind::MacroDef, id.loc.id),
        MacroId::MacroRulesId(id) => has_same_text(one, other, AstKind::MacroRules, id.loc.id),
        MacroId::ProcMacroId(_) => true,
    }
}

/// Whether calls on a node have the same input in both.
fn has_same_input(one: &SourceTree, other: &SourceTree, kind: AstKind, id: SyntaxId) -> bool
    ensures exact { IsTrue result ↔ (input_of one.now (node_id kind id) ≡ input_of other.now (node_id kind id)) }
{
    let node = NodeId { kind, id };
    is_same_text(one.input(node), other.input(node))
}

/// Whether a key that asks for the source under the crate sees another after the edit.
fn sees_another(change: &Change, key: Key) -> bool
    ensures same { result ≡ false → seen_at change.now.after.value key ≡ seen_at change.now.before.value key }
    ensures other { result ≡ true → seen_at change.now.after.value key ≢ seen_at change.now.before.value key }
{
    match key {
        Key::Tree(_) => !change.after.has_same_tree(&change.before),
        Key::Variants(id) => !change.after.has_same_variants(&change.before, id.loc.id),
        Key::Text(id) => !has_same_macro(&change.after, &change.before, id),
        Key::Input(_, ast) => !has_same_input(&change.after, &change.before, ast.kind, ast.id),
        Key::Expansion(_) | Key::Map(_) | Key::Config(_) => false,
    }
}

/// Whether a key is altered by the edit.
fn is_altered(
    alloc: Global,
    source: &EditedSource<'_>,
    changes: &mut Changes,
    key: Key,
) -> Result<bool, AllocError>
    requires changes { AreChanges source.now.inputs.now (edit_value source.now.edit) changes.old }
    ensures same { IfOk result (λ altered. altered ≡ false
        → look source.now.tables.now (workspace_after source.now.inputs.now (edit_value source.now.edit)) no_maps key
        ≡ look source.now.tables.now (workspace_by source.now.inputs.now) no_maps key) }
    ensures other { IfOk result (λ altered. altered ≡ true
        → IsAltered source.now.tables.now (workspace_by source.now.inputs.now) (workspace_after source.now.inputs.now (edit_value source.now.edit)) key) }
    ensures changes { OnOk result (AreChanges source.now.inputs.now (edit_value source.now.edit) changes.new) }
{
    if !source.asks(key) {
        return Ok(false);
    }
    let Some(tree) = key_tree(key) else {
        return Ok(!source.leaves_beside());
    };
    let change = change_under(alloc, source, changes, tree.krate)?;
    Ok(sees_another(&change, key))
}

fn hit_each(hits: &mut Vec<MapId>, ids: &BTreeSet<MapId>) -> Result<(), AllocError>
    ensures ok { OnOk result (hits.new.items ≡ hits.old.items ++ ids.now.keys) }
{
    for id in ids {
        hits.push(*id)?;
    }
    Ok(())
}

/// Adds places to those that are hit.
fn hit(hits: &mut Vec<MapId>, places: &KeyPlaces) -> Result<(), AllocError>
    ensures ok { OnOk result (hits.new.items ≡ hits.old.items ++ listed places.now) }
{
    if let Some(first) = places.first() {
        hits.push(first)?;
    }
    hit_each(hits, places.others())
}

/// Adds the places that asked for a key to those that are hit, if the key is altered.
fn judge(
    alloc: Global,
    source: &EditedSource<'_>,
    key: Key,
    places: &KeyPlaces,
    hits: &mut Vec<MapId>,
    changes: &mut Changes,
) -> Result<(), AllocError>
    requires changes { AreChanges source.now.inputs.now (edit_value source.now.edit) changes.old }
    ensures judged { OnOk result (IsJudged source.now.tables.now (workspace_by source.now.inputs.now)
        (workspace_after source.now.inputs.now (edit_value source.now.edit)) key (listed places.now) hits.old.items hits.new.items) }
    ensures changes { OnOk result (AreChanges source.now.inputs.now (edit_value source.now.edit) changes.new) }
{
    if is_altered(alloc, source, changes, key)? {
        hit(hits, places)?;
    }
    Ok(())
}

/// What an edit leads to that nothing is known to ask for.
fn nothing_hit(alloc: Global) -> Invalidation
    ensures none { result.hits.items ≡ [] }
    ensures empty { result.trees.entries ≡ [] }
{
    Invalidation {
        hits: Vec::new(alloc),
        trees: BTreeMap::new(alloc),
    }
}

/// What an edit of a source that has a number leads to, where these are the keys of it for which places asked.
fn invalidated_among(
    alloc: Global,
    source: &EditedSource<'_>,
    askers: &KeyAskers,
) -> Result<Invalidation, AllocError>
    ensures judged { IfOk result (λ found. AreJudged source.now.tables.now (workspace_by source.now.inputs.now)
        (workspace_after source.now.inputs.now (edit_value source.now.edit)) (Some askers.now) found.hits.items) }
    ensures trees { IfOk result (λ found. HasTreesOf source.now.inputs.now (edit_value source.now.edit) found.trees) }
{
    let mut hits = Vec::new(alloc);
    let mut changes = Changes {
        before: BTreeMap::new(alloc),
        after: BTreeMap::new(alloc),
    };
    for (key, places) in askers {
        judge(alloc, source, *key, places, &mut hits, &mut changes)?;
    }
    Ok(Invalidation {
        hits,
        trees: changes.after,
    })
}

/// What an edit of a source that has a number leads to.
fn invalidated_by(
    alloc: Global,
    source: &EditedSource<'_>,
    askers: &Askers,
) -> Result<Invalidation, AllocError>
    ensures hit { IfOk result (λ found. (kept : Resolutions) → HoldsExactly source.now.tables.now kept askers.now
        → AreHit source.now.tables.now (workspace_by source.now.inputs.now) (workspace_after source.now.inputs.now (edit_value source.now.edit))
        kept found.hits.items) }
    ensures trees { IfOk result (λ found. HasTreesOf source.now.inputs.now (edit_value source.now.edit) found.trees) }
{
    match askers.of(source.number) {
        Some(askers) => invalidated_among(alloc, source, askers),
        None => Ok(nothing_hit(alloc)),
    }
}

/// What an edit of a source leads to. Where no run could name the source, nothing is compared.
pub fn invalidated(
    alloc: Global,
    inputs: &Inputs,
    tables: &Tables,
    askers: &Askers,
    edit: SourceEdit<'_>,
) -> Result<Invalidation, AllocError>
    ensures hit { IfOk result (λ found. (kept : Resolutions) → HoldsExactly tables.now kept askers.now
        → AreHit tables.now (workspace_by inputs.now) (workspace_after inputs.now (edit_value edit.entry)) kept found.hits.items) }
    ensures trees { IfOk result (λ found. HasTreesOf inputs.now (edit_value edit.entry) found.trees) }
{
    match number_at(tables, edit.place()) {
        Some(number) => {
            let source = EditedSource {
                inputs,
                tables,
                edit,
                number,
            };
            invalidated_by(alloc, &source, askers)
        }
        None => Ok(nothing_hit(alloc)),
    }
}
