//! The numbers of sources in the tables, and for which source a key asks.
ghost use Rattle.std.specs.Prelude.{◌≡◌, ◌↔◌, Some};
ghost use Rattle.hir_collector_rules.specs.HirTables.SourcePlaces.{source_value};
ghost use Rattle.hir_collector_rules.specs.HirTables.Tables.{HasEachOnce};
ghost use Rattle.hir_collector_rules.specs.Keys.{macro_key};
ghost use Rattle.hir_session_state.specs.declared.source_number.SourceNumber.{SourceNumber as Number};
ghost use Rattle.hir_session_state.specs.KeySources.{key_tree, macro_source};
ghost use Rattle.hir_session_state.specs.NumberCodes.{number_code};
ghost use Rattle.hir_session_state.specs.SourceNumbers.{asked_number, number_under, place_at};

use hir_base::ast_id::{BlockId, EntryId, FileId, HirFileId};
use hir_base::ids::Crate;
use hir_base::macro_kind::{MacroId, MacroLoc};
use hir_collector_rules::source_database::Key;
use hir_item_tree::tree_id::{TreeId, TreeKey};
use hir_tables::{SourcePlace, Tables};

/// The number of a file, a block or an expansion.
#[derive(Clone, Copy, Debug, PartialEq, Eq, PartialOrd, Ord, Hash)]
pub enum SourceNumber {
    File(FileId),
    Block(BlockId),
    Expansion(EntryId),
}

impl SourceNumber {
    /// A number of its own for each, of files, blocks and expansions in turn.
    pub fn code(self) -> usize
        ensures value { result ≡ number_code self }
    {
        match self {
            SourceNumber::File(id) => id.0 as usize * 3,
            SourceNumber::Block(id) => id.0 as usize * 3 + 1,
            SourceNumber::Expansion(id) => id.0 as usize * 3 + 2,
        }
    }
}

/// The number of a tree's source.
fn number_of(tables: &Tables, id: TreeId) -> Option<SourceNumber>
    ensures value { result ≡ number_under tables.now id.file id.block }
{
    if let Some(block) = id.block {
        return Some(SourceNumber::Block(block));
    }
    match id.file {
        HirFileId::File(file) => Some(SourceNumber::File(file.file_id)),
        HirFileId::Macro(call) => match tables.call(call) {
            Some(call) => Some(SourceNumber::Expansion(call.entry)),
            None => None,
        },
    }
}

/// The number that a source's place has.
pub fn number_at(tables: &Tables, place: SourcePlace<'_>) -> Option<SourceNumber>
    ensures value { (number : Number) → (result ≡ Some number) ↔ (place_at tables.now number ≡ Some (source_value place.entry)) }
    ensures once { HasEachOnce tables.now }
{
    match place {
        SourcePlace::File(path) => match tables.file_number(path) {
            Some(id) => Some(SourceNumber::File(id)),
            None => None,
        },
        SourcePlace::Block(block) => match tables.block_number(block) {
            Some(id) => Some(SourceNumber::Block(id)),
            None => None,
        },
        SourcePlace::Expansion(key) => match tables.entry_number(key) {
            Some(id) => Some(SourceNumber::Expansion(id)),
            None => None,
        },
    }
}

fn tree_under(krate: Crate, file: HirFileId, block: Option<BlockId>) -> TreeKey
    ensures value { result ≡ record { krate = krate; id = record { file = file; block = block } } }
{
    TreeKey {
        krate,
        id: TreeId::new(file, block),
    }
}

fn tree_of_macro(loc: MacroLoc) -> TreeKey
    ensures value { result ≡ macro_key loc }
{
    tree_under(loc.container.map.krate, loc.file_id, loc.block)
}

/// The tree that writes a macro which is no procedural one.
fn macro_source(id: MacroId) -> Option<TreeKey>
    ensures value { result ≡ macro_source id }
{
    match id {
        MacroId::Macro2Id(id) => Some(tree_of_macro(id.loc)),
        MacroId::MacroRulesId(id) => Some(tree_of_macro(id.loc)),
        MacroId::ProcMacroId(_) => None,
    }
}

/// The tree of the source of which a key asks for something.
pub fn key_tree(key: Key) -> Option<TreeKey>
    ensures value { result ≡ key_tree key }
{
    match key {
        Key::Tree(key) => Some(key),
        Key::Variants(id) => Some(tree_under(
            id.loc.container.map.krate,
            id.loc.file_id,
            id.loc.block,
        )),
        Key::Text(id) => macro_source(id),
        Key::Input(krate, ast) => Some(tree_under(krate, ast.file_id, ast.block)),
        Key::Expansion(_) | Key::Map(_) | Key::Config(_) => None,
    }
}

/// The number of the source for which a key asks.
pub fn asked_number(tables: &Tables, key: Key) -> Option<SourceNumber>
    ensures value { result ≡ asked_number tables.now key }
{
    if let Key::Expansion(id) = key {
        return Some(SourceNumber::Expansion(id));
    }
    match key_tree(key) {
        Some(key) => number_of(tables, key.id),
        None => None,
    }
}
