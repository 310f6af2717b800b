//! What sources have at the nodes of macros and calls, by the numbers of trees.
ghost use Rattle.std.specs.Prelude.{◌≡◌, ◌↔◌, IfOk, IsTrue, option_map};
ghost use Rattle.hir_collector_rules.specs.HirItemTree.SyntaxIds.{node_id};
ghost use Rattle.hir_collector_rules.specs.Keys.{IsMeant, input_at, macro_key, macro_tree, node_tree, source_in, text_at, text_of};

use hir_base::ast_id::{AstId, AstKind};
use hir_base::ids::Crate;
use hir_base::macro_kind::{MacroId, MacroLoc};
use hir_base::text::Text;
use hir_collector_rules::source_database::SourceDatabase;
use hir_collector_start::sources::source_at;
use hir_item_tree::check::NodeId;
use hir_item_tree::tree_id::{TreeId, TreeKey};
use hir_tables::Tables;
use std::alloc::{AllocError, Global};

/// The same text without a copy, if there is one.
fn shared(text: Option<&Text>) -> Result<Option<Text>, AllocError>
    ensures value { IfOk result (λ same. same ≡ option_map (λ t. t.now) text.entry) }
{
    match text {
        Some(text) => Ok(Some(text.clone()?)),
        None => Ok(None),
    }
}

/// Whether the source that writes a macro has a number; a procedural macro is in no source.
pub fn is_meant(locations: &Tables, makro: MacroId) -> bool
    ensures meant { IsTrue result ↔ IsMeant locations.now makro }
{
    match makro {
        MacroId::Macro2Id(id) => locations.source_of(tree_of(id.loc)).is_some(),
        MacroId::MacroRulesId(id) => locations.source_of(tree_of(id.loc)).is_some(),
        MacroId::ProcMacroId(_) => true,
    }
}

/// The tree that writes a macro.
fn tree_of(loc: MacroLoc) -> TreeId
    ensures value { result ≡ macro_tree loc }
{
    TreeId {
        file: loc.file_id,
        block: loc.block,
    }
}

/// The text of the macro that a node defines.
fn text_in<D: SourceDatabase>(
    alloc: Global,
    db: &mut D,
    locations: &Tables,
    loc: MacroLoc,
    kind: AstKind,
) -> Result<Option<Text>, AllocError>
    ensures value { IfOk result (λ text. text
        ≡ text_of (source_in locations.now (D.workspace db.old) (macro_key loc)) (node_id kind loc.id)) }
    ensures same { D.workspace db.new ≡ D.workspace db.old }
{
    let key = TreeKey {
        krate: loc.container.map.krate,
        id: tree_of(loc),
    };
    let source = source_at(alloc, db, locations, key)?;
    shared(source.text(NodeId { kind, id: loc.id }))
}

/// The text of a macro, where a source writes it.
pub fn text_at<D: SourceDatabase>(
    alloc: Global,
    db: &mut D,
    locations: &Tables,
    makro: MacroId,
) -> Result<Option<Text>, AllocError>
    ensures value { IfOk result (λ text. text ≡ text_at locations.now (D.workspace db.old) makro) }
    ensures same { D.workspace db.new ≡ D.workspace db.old }
{
    match makro {
        MacroId::Macro2Id(id) => text_in(alloc, db, locations, id.loc, AstKind::MacroDef),
        MacroId::MacroRulesId(id) => text_in(alloc, db, locations, id.loc, AstKind::MacroRules),
        MacroId::ProcMacroId(_) => Ok(None),
    }
}

/// The tree that keeps a node.
pub fn node_tree(ast: AstId) -> TreeId
    ensures value { result ≡ node_tree ast }
{
    TreeId {
        file: ast.file_id,
        block: ast.block,
    }
}

/// The input of a call, where it isn't empty.
pub fn input_at<D: SourceDatabase>(
    alloc: Global,
    db: &mut D,
    locations: &Tables,
    krate: Crate,
    ast: AstId,
) -> Result<Option<Text>, AllocError>
    ensures value { IfOk result (λ input. input ≡ input_at locations.now (D.workspace db.old) krate ast) }
    ensures same { D.workspace db.new ≡ D.workspace db.old }
{
    let key = TreeKey {
        krate,
        id: node_tree(ast),
    };
    let source = source_at(alloc, db, locations, key)?;
    shared(source.input(NodeId {
        kind: ast.kind,
        id: ast.id,
    }))
}
