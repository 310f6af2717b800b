//! What a call expands to that reaches a macro.
ghost use Rattle.std.specs.Prelude.{◌≡◌, ◌⊎◌, [], Contains, IfOk, IsSome, None, Some, unwrap_or};
ghost use Rattle.std.specs.declared.alloc.Global.{Global};
ghost use Rattle.std.specs.declared.vec.Vec.{Vec};
ghost use Rattle.hir_collector_rules.specs.HirBase.ModPath.{Path};
ghost use Rattle.hir_collector_rules.specs.HirBase.declared.macro_kind.MacroText.{MacroText};
ghost use Rattle.hir_collector_rules.specs.HirIds.declared.ast_id.EntryId.{EntryId};
ghost use Rattle.hir_collector_rules.specs.HirIds.declared.macro_kind.MacroId.{MacroId};
ghost use Rattle.hir_collector_rules.specs.HirTables.Interning.{IsFull};
ghost use Rattle.hir_collector_rules.specs.HirTables.SourcePlaces.{expansion_value};
ghost use Rattle.hir_collector_rules.specs.HirTables.Tables.{KeepsTables, call_at, entry_at, source_of};
ghost use Rattle.hir_collector_rules.specs.HirNameres.DefMaps.{maps_of};
ghost use Rattle.hir_collector_rules.specs.Calls.{AreCallsPlaced, asked_first, call_key, call_tree, error_of, expansion_of_call, text_by};
ghost use Rattle.hir_collector_rules.specs.Keys.{IsMeant, environment, node_tree, source_in};
ghost use Rattle.hir_collector_rules.specs.Workspace.{entry_look};
ghost use Rattle.hir_assoc_items.specs.AssocItems.{HasNoNumber, IsUnknown, call_loc, exported_name, first_missing, macro_called, macro_text, texts_reached};
ghost use Rattle.hir_assoc_items.specs.Steps.{IsLook, container_view};

use crate::container::Container;
use crate::error::AssocItemsError;
use crate::sources::{input_at, is_meant, text_at};
use hir_base::ast_id::{AstId, HirFileId, MacroCallId};
use hir_base::ids::{Crate, HasModule};
use hir_base::macro_kind::{
    CallStyle, ExpansionKey, MacroCallKind, MacroCallLoc, MacroId, MacroText,
};
use hir_base::mod_path::ModPath;
use hir_base::text::Text;
use hir_collector_rules::hir_nameres::def_maps::DefMaps;
use hir_collector_rules::inner_paths::InnerPaths;
use hir_collector_rules::source_database::{ExpansionLook, SourceDatabase};
use hir_collector_start::called::is_eager;
use hir_collector_start::sources::source_at;
use hir_item_tree::source_tree::SourceTree;
use hir_item_tree::tree_id::{TreeId, TreeKey};
use hir_tables::Tables;
use std::alloc::{AllocError, Global};
use std::rc::Rc;

/// A text, or an empty one.
fn or_empty(alloc: Global, text: Option<Text>) -> Result<Text, AllocError>
    ensures value { IfOk result (λ t. t ≡ unwrap_or text []) }
{
    match text {
        Some(text) => Ok(text),
        None => Text::from_str(alloc, ""),
    }
}

/// The key of a call's expansion.
pub fn expansion_key(
    alloc: Global,
    caller: Crate,
    style: CallStyle,
    makro: MacroId,
    text: Option<Text>,
    input: Option<Text>,
) -> Result<ExpansionKey, AllocError>
    ensures value { IfOk result (λ key. expansion_value key ≡ expansion_of_call caller style makro text input) }
{
    Ok(ExpansionKey {
        caller,
        called: MacroText {
            krate: makro.module().map.krate,
            text: or_empty(alloc, text)?,
        },
        call: style,
        input: or_empty(alloc, input)?,
        reached: Vec::new(alloc),
    })
}

/// The same text, kept once more.
fn copied(text: &MacroText) -> Result<MacroText, AllocError>
    ensures value { IfOk result (λ t. t ≡ text.now) }
{
    Ok(MacroText {
        krate: text.krate,
        text: text.text.clone()?,
    })
}

/// The key of an expansion once the paths that its macro asks for reach these macros.
fn grown_key(key: &ExpansionKey, reached: Vec<MacroText>) -> Result<ExpansionKey, AllocError>
    ensures value { IfOk result (λ grown. expansion_value grown ≡ record (expansion_value key.now) { reached = reached.items }) }
{
    Ok(ExpansionKey {
        caller: key.caller,
        called: copied(&key.called)?,
        call: key.call,
        input: key.input.clone()?,
        reached,
    })
}

/// The paths that a macro asks to have resolved before the call with this expansion is expanded.
fn asked_first(makro: MacroId, look: ExpansionLook<'_>) -> Result<InnerPaths, AllocError>
    ensures value { IfOk result (λ paths. paths ≡ asked_first makro (entry_look look.entry)) }
{
    match look.inner {
        Some(paths) if is_eager(makro) => paths.clone(),
        Some(_) | None => Ok(InnerPaths::none()),
    }
}

/// The error that a call is told with: that of its expansion, or that there is none.
pub fn error_of(alloc: Global, look: ExpansionLook<'_>) -> Result<Option<Text>, AllocError>
    ensures value { IfOk result (λ error. error ≡ error_of (entry_look look.entry)) }
{
    if !look.present {
        return Ok(Some(Text::from_str(alloc, "absent")?));
    }
    match look.error {
        Some(error) => Ok(Some(error.clone()?)),
        None => Ok(None),
    }
}

/// The tree of what a call expands to.
pub fn call_tree(id: MacroCallId) -> TreeId
    ensures value { result ≡ call_tree id }
{
    TreeId {
        file: HirFileId::Macro(id),
        block: None,
    }
}

/// The name under which a procedural macro is exported.
fn exported_name(
    alloc: Global,
    maps: DefMaps<'_>,
    makro: MacroId,
) -> Result<Option<Text>, AllocError>
    ensures value { IfOk result (λ name. name ≡ exported_name (maps_of maps.entry) makro) }
{
    let Some(map) = maps.map(makro.module().map) else {
        return Ok(None);
    };
    match map.macro_data(makro) {
        Some(what) => Ok(Some(Text::from_str(alloc, what.name.as_str())?)),
        None => Ok(None),
    }
}

/// The text of a macro, of a procedural one the name under which it is exported.
fn macro_text<D: SourceDatabase>(
    alloc: Global,
    db: &mut D,
    maps: DefMaps<'_>,
    locations: &Tables,
    makro: MacroId,
) -> Result<Option<Text>, AllocError>
    ensures value { IfOk result (λ text. text ≡ macro_text (environment locations.now (D.workspace db.old)) (maps_of maps.entry) makro) }
    ensures same { D.workspace db.new ≡ D.workspace db.old }
{
    match makro {
        MacroId::Macro2Id(_) | MacroId::MacroRulesId(_) => text_at(alloc, db, locations, makro),
        MacroId::ProcMacroId(_) => exported_name(alloc, maps, makro),
    }
}

/// A macro with its text, as keys of expansions have it.
fn told_text<D: SourceDatabase>(
    alloc: Global,
    db: &mut D,
    maps: DefMaps<'_>,
    locations: &Tables,
    makro: MacroId,
) -> Result<MacroText, AllocError>
    ensures value { IfOk result (λ text. text ≡ text_by (record {
      makro = makro;
      text =
          macro_text (environment locations.now (D.workspace db.old)) (maps_of maps.entry) makro;
    })) }
    ensures same { D.workspace db.new ≡ D.workspace db.old }
{
    let text = macro_text(alloc, db, maps, locations, makro)?;
    Ok(MacroText {
        krate: makro.module().map.krate,
        text: or_empty(alloc, text)?,
    })
}

/// What a call expands to.
#[derive(Drop)]
pub struct Expansion {
    pub id: MacroCallId,
    /// Why it didn't expand, or not well.
    pub error: Option<Text>,
    pub source: Rc<SourceTree>,
}

/// The macros that paths reach, with their texts; none where one of the paths reaches none.
fn texts_reached<D: SourceDatabase>(
    alloc: Global,
    db: &mut D,
    container: &Container<'_>,
    locations: &Tables,
    paths: &[ModPath],
) -> Result<Option<Vec<MacroText>>, AssocItemsError>
    ensures reached { IfOk result (λ found. (texts : Vec MacroText Global) → found ≡ Some texts
        → (first_missing (container_view container.now) paths.now ≡ None)
        × (texts.items ≡ texts_reached (environment locations.now (D.workspace db.old)) (container_view container.now) paths.now)
        × ((path : Path) (makro : MacroId) → Contains paths.now path → macro_called (container_view container.now) path ≡ Some makro → IsMeant locations.now makro)) }
    ensures missing { IfOk result (λ found. found ≡ None → IsSome (first_missing (container_view container.now) paths.now)) }
    ensures same { D.workspace db.new ≡ D.workspace db.old }
    ensures many { ¬ (result ≡ Err AssocItemsError.TooMany) }
    ensures unknown { result ≡ Err AssocItemsError.UnknownSource → (path : Path) × (makro : MacroId)
        × (macro_called (container_view container.now) path ≡ Some makro) × ¬ IsMeant locations.now makro }
{
    let mut texts = Vec::new(alloc);
    for path in paths {
        let Some(makro) = container.called_macro(path) else {
            return Ok(None);
        };
        if !is_meant(locations, makro) {
            return Err(AssocItemsError::UnknownSource);
        }
        let told = told_text(alloc, db, container.maps, locations, makro)?;
        texts.push(told)?;
    }
    Ok(Some(texts))
}

/// What is found of a call that reaches a macro.
#[derive(Drop)]
pub enum CallLook {
    Expands(Expansion),
    /// Of these paths, which its macro asks for first, one reaches nothing.
    Waits(InnerPaths),
}

/// The expansion of a call by its key. The call gets a number, and so does what it depends on.
fn look_up<D: SourceDatabase>(
    alloc: Global,
    db: &mut D,
    krate: Crate,
    locations: &mut Tables,
    node: AstId,
    key: ExpansionKey,
) -> Result<Expansion, AssocItemsError>
    requires meant { IsSome (source_of locations.old (node_tree node)) }
    ensures kept { KeepsTables locations.old locations.new }
    ensures others { locations.new ≡ record locations.old { entries = locations.new.entries; calls = locations.new.calls } }
    ensures placed { AreCallsPlaced locations.old → AreCallsPlaced locations.new }
    ensures same { D.workspace db.new ≡ D.workspace db.old }
    ensures ok { IfOk result (λ e. (entry : EntryId) × (entry_at locations.new entry ≡ Some (expansion_value key)) × (call_at locations.new e.id ≡ Some (call_loc node entry))
        × (e.error ≡ error_of ((D.workspace db.old).entry (expansion_value key)))
        × (e.source.value ≡ source_in locations.new (D.workspace db.old) (call_key krate e.id))) }
    ensures many { result ≡ Err AssocItemsError.TooMany → IsFull locations.new.entries (expansion_value key)
        ⊎ ((entry : EntryId) × (entry_at locations.new entry ≡ Some (expansion_value key)) × IsFull locations.new.calls (call_loc node entry)) }
    ensures unknown { ¬ (result ≡ Err AssocItemsError.UnknownSource) }
{
    let error = error_of(alloc, db.expansion(&key))?;
    let entry = locations.intern_entry(key)?;
    let id = locations.intern_call(MacroCallLoc {
        kind: MacroCallKind::FnLike { ast: node },
        entry,
    })?;
    let tree = TreeKey {
        krate,
        id: call_tree(id),
    };
    let source = source_at(alloc, db, locations, tree)?;
    Ok(Expansion { id, error, source })
}

/// What a call expands to that is written at a node and reaches a macro, if the paths that this asks for first reach macros
/// too. The call gets a number, and so does what it depends on.
pub fn look_at_call<D: SourceDatabase>(
    alloc: Global,
    db: &mut D,
    container: &Container<'_>,
    locations: &mut Tables,
    node: AstId,
    makro: MacroId,
) -> Result<CallLook, AssocItemsError>
    requires meant { IsSome (source_of locations.old (node_tree node)) }
    ensures kept { KeepsTables locations.old locations.new }
    ensures others { locations.new ≡ record locations.old { entries = locations.new.entries; calls = locations.new.calls } }
    ensures placed { AreCallsPlaced locations.old → AreCallsPlaced locations.new }
    ensures same { D.workspace db.new ≡ D.workspace db.old }
    ensures sees { IfOk result (λ look. IsLook locations.new (D.workspace db.old) (container_view container.now) node makro look) }
    ensures many { result ≡ Err AssocItemsError.TooMany → HasNoNumber (environment locations.new (D.workspace db.old)) (container_view container.now) node makro }
    ensures unknown { result ≡ Err AssocItemsError.UnknownSource → IsUnknown locations.new (container_view container.now) makro }
{
    if !is_meant(locations, makro) {
        return Err(AssocItemsError::UnknownSource);
    }
    let krate = container.krate();
    let text = macro_text(alloc, db, container.maps, locations, makro)?;
    let input = input_at(alloc, db, locations, krate, node)?;
    let key = expansion_key(alloc, krate, CallStyle::Bang, makro, text, input)?;
    let inner = asked_first(makro, db.expansion(&key))?;
    if inner.as_slice().is_empty() {
        return Ok(CallLook::Expands(look_up(alloc, db, krate, locations, node, key)?));
    }
    let reached = texts_reached(alloc, db, container, locations, inner.as_slice())?;
    let Some(texts) = reached else {
        return Ok(CallLook::Waits(inner));
    };
    let grown = grown_key(&key, texts)?;
    Ok(CallLook::Expands(look_up(alloc, db, krate, locations, node, grown)?))
}
