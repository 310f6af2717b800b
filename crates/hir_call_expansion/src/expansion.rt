//! What macro calls, derives and attributes expand to: all that an expansion depends on is asked for, and then the expansion.
ghost use Rattle.std.specs.Prelude.{◌≡◌, ◌<◌, List, true, false, [], Contains, IfOk, IsSome, None, OnOk, Some, map, option_map, unwrap_or};
ghost use Rattle.std.specs.List.{All};
ghost use Rattle.std.specs.declared.alloc.Global.{Global};
ghost use Rattle.std.specs.declared.vec.Vec.{Vec};
ghost use Rattle.hir_collector_state.specs.HirBase.ModPath.{Path};
ghost use Rattle.hir_collector_state.specs.HirIds.declared.macro_kind.MacroId.{MacroId};
ghost use Rattle.hir_collector_state.specs.HirItemTree.SyntaxIds.{node_id};
ghost use Rattle.hir_collector_state.specs.HirIds.declared.ast_id.EntryId.{EntryId};
ghost use Rattle.hir_collector_state.specs.HirTables.Interning.{IsFull};
ghost use Rattle.hir_collector_state.specs.HirTables.SourcePlaces.{expansion_value};
ghost use Rattle.hir_collector_state.specs.HirTables.Tables.{KeepsTables, call_at, entry_at};
ghost use Rattle.hir_collector_state.specs.HirNameres.WorldParts.{part_of};
ghost use Rattle.hir_collector_state.specs.HirCollectorRules.Calls.{AreCallsPlaced, InnerMacro, IsMeantCall, asked_first, call_key, call_kind, call_loc, call_site, called_text, error_of};
ghost use Rattle.hir_collector_state.specs.HirCollectorRules.Calls.{expansion_of_call, first_missing, inner_macro, inner_readings, text_by, text_readings};
ghost use Rattle.hir_collector_state.specs.HirCollectorRules.declared.macro_directive.MacroDirective.{MacroDirective};
ghost use Rattle.hir_collector_state.specs.HirCollectorRules.ItemIds.{module_id};
ghost use Rattle.hir_collector_state.specs.HirCollectorRules.Keys.{IsMeant, input_at, macro_key, macro_tree, source_in, text_at, text_of};
ghost use Rattle.hir_collector_state.specs.HirCollectorRules.Moves.{Makes, OnceGrown};
ghost use Rattle.hir_collector_state.specs.HirCollectorRules.NumberedOut.{IsCallNumberedOut, LacksExpansion};
ghost use Rattle.hir_collector_state.specs.HirCollectorRules.State.{core_in, with_asked};
ghost use Rattle.hir_collector_state.specs.HirCollectorRules.Steps.{failing, keys_read, with_keys};
ghost use Rattle.hir_collector_state.specs.HirCollectorRules.Workspace.{entry_look};
ghost use Rattle.hir_collector_state.specs.Waiting.{IsNoted};
ghost use Rattle.hir_call_expansion.specs.Looks.{IsLook, IsLookBehind, LacksBehind};

use hir_base::ast_id::{AstId, AstKind, HirFileId, MacroCallId};
use hir_base::ids::{Crate, HasModule};
use hir_base::macro_kind::{CallStyle, ExpansionKey, MacroCallLoc, MacroId, MacroLoc, MacroText};
use hir_base::mod_path::ModPath;
use hir_base::text::Text;
use hir_collector_state::def_collector::DefCollector;
use hir_collector_state::hir_collector_rules::inner_paths::InnerPaths;
use hir_collector_state::hir_collector_rules::macro_directive::MacroDirective;
use hir_collector_state::hir_collector_rules::site::Site;
use hir_collector_state::hir_collector_rules::source_database::{
    ExpansionLook, Key, SourceDatabase,
};
use hir_collector_state::hir_collector_rules::start::{CollectError, StepError};
use hir_collector_state::hir_collector_start::called::is_eager;
use hir_collector_state::hir_collector_start::sources::source_at;
use hir_collector_state::hir_nameres::nameres::diagnostics::DefDiagnostic;
use hir_collector_state::hir_nameres::world::part::WorldPart;
use hir_item_tree::check::NodeId;
use hir_item_tree::source_tree::SourceTree;
use hir_item_tree::tree_id::{TreeId, TreeKey};
use hir_tables::Tables;
use std::alloc::{AllocError, Global};
use std::rc::Rc;

/// The same text without a copy, if there is one.
fn shared(text: Option<&Text>) -> Result<Option<Text>, AllocError>
    ensures value { IfOk result (λ same. same ≡ option_map (λ t. t.now) text.entry) }
{
    match text {
        Some(text) => Ok(Some(text.clone()?)),
        None => Ok(None),
    }
}

/// Whether the source that writes a macro has a number; a procedural macro is in no source.
pub fn is_meant(locations: &Tables, makro: MacroId) -> bool
    ensures meant { result ≡ true → IsMeant locations.now makro }
    ensures unknown { result ≡ false → ¬ IsMeant locations.now makro }
{
    match makro {
        MacroId::Macro2Id(id) => locations.source_of(tree_of(id.loc)).is_some(),
        MacroId::MacroRulesId(id) => locations.source_of(tree_of(id.loc)).is_some(),
        MacroId::ProcMacroId(_) => true,
    }
}

/// The tree that writes a macro.
fn tree_of(loc: MacroLoc) -> TreeId
    ensures value { result ≡ macro_tree loc }
{
    TreeId {
        file: loc.file_id,
        block: loc.block,
    }
}

/// The text of the macro that a node defines.
fn text_in<D: SourceDatabase>(
    alloc: Global,
    db: &mut D,
    locations: &Tables,
    loc: MacroLoc,
    kind: AstKind,
) -> Result<Option<Text>, AllocError>
    ensures value { IfOk result (λ text. text
        ≡ text_of (source_in locations.now (D.workspace db.old) (macro_key loc)) (node_id kind loc.id)) }
    ensures same { D.workspace db.new ≡ D.workspace db.old }
{
    let key = TreeKey {
        krate: loc.container.map.krate,
        id: tree_of(loc),
    };
    let source = source_at(alloc, db, locations, key)?;
    shared(source.text(NodeId { kind, id: loc.id }))
}

/// The text of a macro, where a source writes it.
fn text_at<D: SourceDatabase>(
    alloc: Global,
    db: &mut D,
    locations: &Tables,
    makro: MacroId,
) -> Result<Option<Text>, AllocError>
    ensures value { IfOk result (λ text. text ≡ text_at locations.now (D.workspace db.old) makro) }
    ensures same { D.workspace db.new ≡ D.workspace db.old }
{
    match makro {
        MacroId::Macro2Id(id) => text_in(alloc, db, locations, id.loc, AstKind::MacroDef),
        MacroId::MacroRulesId(id) => text_in(alloc, db, locations, id.loc, AstKind::MacroRules),
        MacroId::ProcMacroId(_) => Ok(None),
    }
}

/// The input of a call, where it isn't empty.
fn input_at<D: SourceDatabase>(
    alloc: Global,
    db: &mut D,
    locations: &Tables,
    krate: Crate,
    ast: AstId,
) -> Result<Option<Text>, AllocError>
    ensures value { IfOk result (λ input. input ≡ input_at locations.now (D.workspace db.old) krate ast) }
    ensures same { D.workspace db.new ≡ D.workspace db.old }
{
    let key = TreeKey {
        krate,
        id: TreeId {
            file: ast.file_id,
            block: ast.block,
        },
    };
    let source = source_at(alloc, db, locations, key)?;
    shared(source.input(NodeId {
        kind: ast.kind,
        id: ast.id,
    }))
}

/// A text, or an empty one.
fn or_empty(alloc: Global, text: Option<Text>) -> Result<Text, AllocError>
    ensures value { IfOk result (λ t. t ≡ unwrap_or text []) }
{
    match text {
        Some(text) => Ok(text),
        None => Text::from_str(alloc, ""),
    }
}

/// The text of a macro, of a procedural one the name under which it is exported.
fn called_text<D: SourceDatabase>(
    run: &DefCollector,
    db: &mut D,
    world: WorldPart<'_>,
    locations: &Tables,
    makro: MacroId,
) -> Result<Option<Text>, AllocError>
    ensures value { IfOk result (λ text. text ≡ called_text (part_of world.entry) (core_in run.now).map makro (text_at locations.now (D.workspace db.old) makro)) }
    ensures same { D.workspace db.new ≡ D.workspace db.old }
{
    match makro {
        MacroId::Macro2Id(_) | MacroId::MacroRulesId(_) => {
            text_at(run.allocator(), db, locations, makro)
        }
        MacroId::ProcMacroId(_) => match run.kept_of(world, makro) {
            Some(what) => Ok(Some(Text::from_str(run.allocator(), what.name.as_str())?)),
            None => Ok(None),
        },
    }
}

/// The key of a call's expansion.
fn expansion_key(
    alloc: Global,
    caller: Crate,
    style: CallStyle,
    makro: MacroId,
    text: Option<Text>,
    input: Option<Text>,
) -> Result<ExpansionKey, AllocError>
    ensures value { IfOk result (λ key. expansion_value key ≡ expansion_of_call caller style makro text input) }
{
    Ok(ExpansionKey {
        caller,
        called: MacroText {
            krate: makro.module().map.krate,
            text: or_empty(alloc, text)?,
        },
        call: style,
        input: or_empty(alloc, input)?,
        reached: Vec::new(alloc),
    })
}

/// The same text, kept once more.
fn copied(text: &MacroText) -> Result<MacroText, AllocError>
    ensures value { IfOk result (λ t. t ≡ text.now) }
{
    Ok(MacroText {
        krate: text.krate,
        text: text.text.clone()?,
    })
}

/// The key of a call's expansion once the paths that its macro asked for reach these macros.
fn grown_key(key: &ExpansionKey, reached: Vec<MacroText>) -> Result<ExpansionKey, AllocError>
    ensures value { IfOk result (λ grown. expansion_value grown ≡ record (expansion_value key.now) { reached = reached.items }) }
{
    Ok(ExpansionKey {
        caller: key.caller,
        called: copied(&key.called)?,
        call: key.call,
        input: key.input.clone()?,
        reached,
    })
}

/// The paths that a macro asks to have resolved before the call with this expansion is expanded.
fn asked_first(makro: MacroId, look: ExpansionLook<'_>) -> Result<InnerPaths, AllocError>
    ensures value { IfOk result (λ paths. paths ≡ asked_first makro (entry_look look.entry)) }
{
    match look.inner {
        Some(paths) if is_eager(makro) => paths.clone(),
        Some(_) | None => Ok(InnerPaths::none()),
    }
}

/// The macros that paths reach in a module, if all reach some.
fn reached_by(
    run: &DefCollector,
    world: WorldPart<'_>,
    home: u32,
    paths: &[ModPath],
) -> Result<Option<Vec<MacroId>>, AllocError>
    ensures reached { IfOk result (λ found. (macros : Vec MacroId Global) → found ≡ Some macros
        → map (inner_macro (part_of world.entry) (core_in run.now).local (core_in run.now).map home) paths.now ≡ map (λ makro. Some makro) macros.items) }
    ensures missing { IfOk result (λ found. found ≡ None → IsSome (first_missing (part_of world.entry) (core_in run.now).local (core_in run.now).map home paths.now)) }
{
    let mut macros = Vec::new(run.allocator());
    for path in paths {
        let Some(makro) = run.inner_macro(world, home, path) else {
            return Ok(None);
        };
        macros.push(makro)?;
    }
    Ok(Some(macros))
}

/// Whether the sources that write macros have numbers.
fn are_meant(locations: &Tables, macros: &[MacroId]) -> bool
    ensures meant { result ≡ true → All (IsMeant locations.now) macros.now }
    ensures unknown { result ≡ false → (makro : MacroId) × Contains macros.now makro × ¬ IsMeant locations.now makro }
{
    for makro in macros {
        if !is_meant(locations, *makro) {
            return false;
        }
    }
    true
}

/// The macros with their texts, as keys of expansions have them.
fn texts_of<D: SourceDatabase>(
    run: &DefCollector,
    db: &mut D,
    world: WorldPart<'_>,
    locations: &Tables,
    macros: &[MacroId],
) -> Result<Vec<MacroText>, AllocError>
    ensures value { IfOk result (λ texts. texts.items ≡ map (λ makro. text_by (record {
      makro = makro;
      text =
          called_text (part_of world.entry) (core_in run.now).map makro (text_at locations.now (D.workspace db.old) makro);
    })) macros.now) }
    ensures same { D.workspace db.new ≡ D.workspace db.old }
{
    let alloc = run.allocator();
    let mut texts = Vec::new(alloc);
    for makro in macros {
        let told = called_text(run, db, world, locations, *makro)?;
        let text = or_empty(alloc, told)?;
        texts.push(MacroText {
            krate: makro.module().map.krate,
            text,
        })?;
    }
    Ok(texts)
}

/// The error that a call is told with: that of its expansion, or that there is none.
fn error_of(alloc: Global, look: ExpansionLook<'_>) -> Result<Option<Text>, AllocError>
    ensures value { IfOk result (λ error. error ≡ error_of (entry_look look.entry)) }
{
    if !look.present {
        return Ok(Some(Text::from_str(alloc, "absent")?));
    }
    match look.error {
        Some(error) => Ok(Some(error.clone()?)),
        None => Ok(None),
    }
}

/// What a call expands to.
#[derive(Drop)]
pub struct Expansion {
    pub id: MacroCallId,
    /// Why it didn't expand, or not well.
    pub error: Option<Text>,
    pub source: Rc<SourceTree>,
}

/// Notes the text of a macro as asked for, where a source writes it.
fn ask_text(run: &mut DefCollector, makro: MacroId) -> Result<(), AllocError>
    ensures ok { OnOk result ((text : _) → core_in run.new ≡ record (core_in run.old) { asked = with_keys (core_in run.old).asked (keys_read (text_readings makro text)) }) }
    ensures noted { OnOk result (IsNoted run.old run.new) }
{
    match makro {
        MacroId::Macro2Id(_) | MacroId::MacroRulesId(_) => run.ask(Key::Text(makro)),
        MacroId::ProcMacroId(_) => Ok(()),
    }
}

/// Notes the texts of macros as asked for.
fn ask_texts(run: &mut DefCollector, macros: &[MacroId]) -> Result<(), AllocError>
    ensures ok { OnOk result ((inner : List InnerMacro) → map (λ i. i.makro) inner ≡ macros.now
        → core_in run.new ≡ record (core_in run.old) { asked = with_keys (core_in run.old).asked (keys_read (inner_readings inner)) }) }
    ensures noted { OnOk result (IsNoted run.old run.new) }
{
    for makro in macros {
        ask_text(run, *makro)?;
    }
    Ok(())
}

/// Asks whether an expansion is there, and for what stands beside its items.
fn ask_entry(
    run: &mut DefCollector,
    locations: &mut Tables,
    key: ExpansionKey,
) -> Result<(), StepError>
    ensures kept { KeepsTables locations.old locations.new }
    ensures calls { locations.new.calls ≡ locations.old.calls }
    ensures ok { OnOk result ((entry : EntryId) × (entry_at locations.new entry ≡ Some (expansion_value key)) × (core_in run.new ≡ with_asked (core_in run.old) (Key.Expansion entry))) }
    ensures noted { OnOk result (IsNoted run.old run.new) }
    ensures many { result ≡ Err StepError.TooMany → IsFull locations.old.entries (expansion_value key) × (locations.new ≡ locations.old) }
{
    let asked = locations.intern_entry(key)?;
    run.ask(Key::Expansion(asked))?;
    Ok(())
}

/// Looks up the expansion of a call by its key, with the call's number, and asks for it.
fn look_up<D: SourceDatabase>(
    run: &mut DefCollector,
    db: &mut D,
    locations: &mut Tables,
    call: &MacroDirective,
    key: ExpansionKey,
) -> Result<Expansion, StepError>
    requires meant { IsMeantCall locations.old call.now }
    ensures kept { KeepsTables locations.old locations.new }
    ensures same { D.workspace db.new ≡ D.workspace db.old }
    ensures placed { AreCallsPlaced locations.old → AreCallsPlaced locations.new }
    ensures ok { IfOk result (λ e. (entry : EntryId) × (entry_at locations.new entry ≡ Some (expansion_value key)) × (call_at locations.new e.id ≡ Some (call_loc call.now entry))
        × (e.error ≡ error_of ((D.workspace db.old).entry (expansion_value key)))
        × (e.source.value ≡ source_in locations.new (D.workspace db.old) (call_key (core_in run.old).map.id.krate e.id))
        × (core_in run.new ≡ with_asked (with_asked (core_in run.old) (Key.Expansion entry)) (Key.Tree (call_key (core_in run.old).map.id.krate e.id)))) }
    ensures noted { OnOk result (IsNoted run.old run.new) }
    ensures many { result ≡ Err StepError.TooMany → OnceGrown locations.new (D.workspace db.old) (λ env. IsCallNumberedOut env.tables (call_kind call.now) (expansion_value key)) }
{
    let alloc = run.allocator();
    let krate = run.map().id().krate;
    let error = error_of(alloc, db.expansion(&key))?;
    let entry = locations.intern_entry(key)?;
    let id = locations.intern_call(MacroCallLoc {
        kind: call.call_kind(),
        entry,
    })?;
    let tree = TreeKey {
        krate,
        id: TreeId {
            file: HirFileId::Macro(id),
            block: None,
        },
    };
    let source = source_at(alloc, db, locations, tree)?;
    run.ask(Key::Expansion(entry))?;
    run.ask(Key::Tree(tree))?;
    Ok(Expansion { id, error, source })
}

/// What is found of a call that reaches a macro.
#[derive(Drop)]
pub enum CallLook {
    Expands(Expansion),
    /// Of these paths, which its macro asks for first, one reaches nothing.
    Waits(InnerPaths),
}

/// Looks up the expansion of a call whose macro asks for paths first, if all of them reach macros.
fn look_behind_paths<D: SourceDatabase>(
    run: &mut DefCollector,
    db: &mut D,
    world: WorldPart<'_>,
    locations: &mut Tables,
    call: &MacroDirective,
    key: ExpansionKey,
    inner: InnerPaths,
) -> Result<CallLook, CollectError>
    requires meant { IsMeantCall locations.old call.now }
    requires some { ¬ (inner ≡ []) }
    ensures kept { KeepsTables locations.old locations.new }
    ensures same { D.workspace db.new ≡ D.workspace db.old }
    ensures placed { AreCallsPlaced locations.old → AreCallsPlaced locations.new }
    ensures ok { IfOk result (λ look. IsLookBehind locations.new (D.workspace db.old) (part_of world.entry) call.now (expansion_value key) inner (core_in run.old) (core_in run.new) look) }
    ensures noted { OnOk result (IsNoted run.old run.new) }
    ensures many { result ≡ Err CollectError.TooMany → OnceGrown locations.new (D.workspace db.old)
        (λ env. LacksBehind env (part_of world.entry) (core_in run.old) call.now (expansion_value key) inner) }
    ensures unknown { result ≡ Err CollectError.UnknownSource → (path : Path) × (makro : MacroId)
        × (inner_macro (part_of world.entry) (core_in run.old).local (core_in run.old).map call.now.site.home path ≡ Some makro) × ¬ IsMeant locations.new makro }
{
    let reached = reached_by(run, world, call.site.home, inner.as_slice())?;
    let Some(macros) = reached else {
        ask_entry(run, locations, key)?;
        return Ok(CallLook::Waits(inner));
    };
    if !are_meant(locations, &macros) {
        return Err(CollectError::UnknownSource);
    }
    let texts = texts_of(run, db, world, locations, &macros)?;
    let grown = grown_key(&key, texts)?;
    ask_entry(run, locations, key)?;
    ask_texts(run, &macros)?;
    Ok(CallLook::Expands(look_up(run, db, locations, call, grown)?))
}

/// Asks for all that the expansion of a call depends on, and for the expansion: where its macro asks for paths first, for
/// that of the key with the macros that they reach.
pub fn look_at_call<D: SourceDatabase>(
    run: &mut DefCollector,
    db: &mut D,
    world: WorldPart<'_>,
    locations: &mut Tables,
    call: &MacroDirective,
    makro: MacroId,
) -> Result<CallLook, CollectError>
    requires meant { IsMeantCall locations.old call.now }
    requires known { IsMeant locations.old makro }
    ensures kept { KeepsTables locations.old locations.new }
    ensures same { D.workspace db.new ≡ D.workspace db.old }
    ensures placed { AreCallsPlaced locations.old → AreCallsPlaced locations.new }
    ensures ok { IfOk result (λ look. IsLook locations.new (D.workspace db.old) (part_of world.entry) call.now makro (core_in run.old) (core_in run.new) look) }
    ensures noted { OnOk result (IsNoted run.old run.new) }
    ensures many { result ≡ Err CollectError.TooMany → OnceGrown locations.new (D.workspace db.old)
        (λ env. LacksExpansion env (part_of world.entry) (core_in run.old).local (core_in run.old).map call.now makro) }
    ensures unknown { result ≡ Err CollectError.UnknownSource → (path : Path) × (inner : MacroId)
        × (inner_macro (part_of world.entry) (core_in run.old).local (core_in run.old).map call.now.site.home path ≡ Some inner) × ¬ IsMeant locations.new inner }
{
    let alloc = run.allocator();
    let krate = run.map().id().krate;
    let text = called_text(run, db, world, locations, makro)?;
    let input = input_at(alloc, db, locations, krate, call.ast_id)?;
    let key = expansion_key(alloc, krate, call.call_style(), makro, text, input)?;
    let inner = asked_first(makro, db.expansion(&key))?;
    ask_text(run, makro)?;
    run.ask(Key::Input(krate, call.ast_id))?;
    if inner.as_slice().is_empty() {
        return Ok(CallLook::Expands(look_up(run, db, locations, call, key)?));
    }
    look_behind_paths(run, db, world, locations, call, key, inner)
}

/// Where the items are written to which a call expands.
pub fn call_site(call: &MacroDirective, id: MacroCallId) -> Result<Site, AllocError>
    requires below { call.now.site.level < 4294967295 }
    ensures value { IfOk result (λ site. site ≡ call_site call.now id) }
{
    Ok(Site {
        home: call.site.home,
        tree: TreeId {
            file: HirFileId::Macro(id),
            block: None,
        },
        file: call.site.file,
        extern_block: call.site.extern_block,
        dir: call.site.dir.clone()?,
        level: call.site.level + 1,
    })
}

/// Reports a call that didn't expand, or not well.
pub fn report_failed(
    run: &mut DefCollector,
    call: &MacroDirective,
    error: Option<Text>,
) -> Result<(), AllocError>
    ensures ok { OnOk result (Makes (failing (module_id (core_in run.old).map call.now.site.home) call.now error) (core_in run.old) (core_in run.new)) }
    ensures noted { OnOk result (IsNoted run.old run.new) }
{
    let Some(error) = error else {
        return Ok(());
    };
    let at = run.module_id(call.site.home);
    run.tell(DefDiagnostic::macro_error(at, call.ast_id, call.path().clone()?, error))
}
