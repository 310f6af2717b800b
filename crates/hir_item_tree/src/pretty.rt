//! The page of a tree, after rust-analyzer's `pretty.rs`.
ghost use Rattle.std.specs.Prelude.{◌≡◌, ◌++◌, ◌+◌, ◌<◌, ◌≤◌, ◌^◌, Some, [], false, true, OnOk, IfOk, codes, length, string_bytes};
ghost use Rattle.std.specs.List.{slice_get};
ghost use Rattle.hir_item_tree.specs.Collected.{collected_of};
ghost use Rattle.hir_item_tree.specs.Rows.{numbers_of, content_of, row_view, rows_view, items_at, item_of, items_behind};
ghost use Rattle.hir_item_tree.specs.Numbers.{IsWhole, AreBelow, ChildrenBelow};
ghost use Rattle.hir_use_tree.specs.UseTree.{use_tree_view};
ghost use Rattle.hir_item_tree.specs.Page.{named, use_line, crate_line, constant_line, call_line, rules_line, id_line, head_text, close_text, gap, item_text, forest_text, constant_text, attributes_text, has_attributes, or_newline};
ghost use Rattle.hir_item_tree.specs.PageRows.{content_word, content_line};

use crate::attrs::AttrsOrCfg;
use crate::put_attrs::{put_attrs, put_pad};
use crate::put_words::{
    put_alias, put_crate_name, put_name, put_path, put_use_tree, put_visibility,
};
use crate::raw_visibility::RawVisibility;
use crate::rows::{ModItemId, Row, RowKind};
use crate::shape::ExternCrateName;
use hir_base::ast_id::SyntaxId;
use hir_base::edition::Edition;
use hir_base::mod_path::ModPath;
use hir_base::name::Name;
use hir_use_tree::imports::ImportAlias;
use hir_use_tree::use_tree::UseTree;
use std::alloc::{AllocError, Global};
use std::fmt::Write;

// The kind of an item, as its id's line has it.
fn kind_word(kind: &RowKind) -> &'static str
    ensures value { result.now ≡ content_word (content_of kind.now) }
{
    match kind {
        RowKind::Use { .. } => "Use",
        RowKind::ExternCrate { .. } => "ExternCrate",
        RowKind::ExternBlock { .. } => "ExternBlock",
        RowKind::Function { .. } => "Fn",
        RowKind::Struct { .. } => "Struct",
        RowKind::Union { .. } => "Union",
        RowKind::Enum { .. } => "Enum",
        RowKind::Const { .. } => "Const",
        RowKind::Static { .. } => "Static",
        RowKind::Trait { .. } => "Trait",
        RowKind::Impl { .. } => "Impl",
        RowKind::TypeAlias { .. } => "TypeAlias",
        RowKind::Mod { .. } | RowKind::OutlineMod { .. } => "Module",
        RowKind::MacroCall { .. } => "MacroCall",
        RowKind::MacroRules { .. } => "MacroRules",
        RowKind::Macro2 { .. } => "MacroDef",
    }
}

#[tactic(auto, unfolding(crate::specs::Page::id_line))]
fn put_id(out: &mut String, level: usize, kind: &str, id: SyntaxId) -> Result<(), AllocError>
    ensures ok { OnOk result (string_bytes out.new ≡ string_bytes out.old ++ id_line level kind.now id) }
{
    put_pad(out, level)?;
    let hash = id.hash;
    let index = id.index;
    write!(out, "// AstId: {kind}[{hash:04X}, {index}]\n")?;
    Ok(())
}

#[tactic(auto, unfolding(crate::specs::Page::head_text))]
fn put_head(out: &mut String, edition: Edition, level: usize, row: &Row) -> Result<(), AllocError>
    ensures ok { OnOk result (string_bytes out.new ≡ string_bytes out.old
        ++ head_text edition level (content_word (content_of row.now.kind)) (row_view row.now).head) }
{
    put_attrs(out, edition, level, "#", &row.attrs)?;
    put_id(out, level, kind_word(&row.kind), row.id)?;
    put_pad(out, level)
}

#[tactic(auto, unfolding(crate::specs::Page::named))]
fn put_named(
    out: &mut String,
    edition: Edition,
    visibility: &RawVisibility,
    word: &str,
    name: &Name,
    end: &str,
) -> Result<(), AllocError>
    ensures ok { OnOk result (string_bytes out.new
        ≡ string_bytes out.old ++ named edition visibility.now word.now name.now end.now) }
{
    put_visibility(out, edition, visibility)?;
    out.push_str(word)?;
    put_name(out, edition, name)?;
    out.push_str(end)
}

#[tactic(auto, unfolding(crate::specs::Page::use_line))]
fn put_use(
    out: &mut String,
    edition: Edition,
    visibility: &RawVisibility,
    tree: &UseTree,
) -> Result<(), AllocError>
    ensures ok { OnOk result (string_bytes out.new
        ≡ string_bytes out.old ++ use_line edition visibility.now (use_tree_view tree.now)) }
{
    put_visibility(out, edition, visibility)?;
    out.push_str(" use ")?;
    put_use_tree(out, edition, tree)?;
    out.push_str(";\n")
}

#[tactic(auto, unfolding(crate::specs::Page::crate_line))]
fn put_crate(
    out: &mut String,
    edition: Edition,
    visibility: &RawVisibility,
    word: &str,
    name: &ExternCrateName,
    alias: &Option<ImportAlias>,
) -> Result<(), AllocError>
    ensures ok { OnOk result (string_bytes out.new
        ≡ string_bytes out.old ++ crate_line edition visibility.now word.now name.now alias.now) }
{
    put_visibility(out, edition, visibility)?;
    out.push_str(word)?;
    put_crate_name(out, edition, name)?;
    put_alias(out, edition, alias)?;
    out.push_str(";\n")
}

fn put_constant_name(
    out: &mut String,
    edition: Edition,
    name: &Option<Name>,
) -> Result<(), AllocError>
    ensures ok { OnOk result (string_bytes out.new ≡ string_bytes out.old ++ constant_text edition name.now) }
{
    match name {
        Some(name) => put_name(out, edition, name),
        None => out.push_str("_"),
    }
}

#[tactic(auto, unfolding(crate::specs::Page::constant_line))]
fn put_constant(
    out: &mut String,
    edition: Edition,
    visibility: &RawVisibility,
    name: &Option<Name>,
) -> Result<(), AllocError>
    ensures ok { OnOk result (string_bytes out.new
        ≡ string_bytes out.old ++ constant_line edition visibility.now name.now) }
{
    put_visibility(out, edition, visibility)?;
    out.push_str(" const ")?;
    put_constant_name(out, edition, name)?;
    out.push_str(";\n")
}

#[tactic(auto, unfolding(crate::specs::Page::call_line))]
fn put_call(out: &mut String, edition: Edition, path: &ModPath) -> Result<(), AllocError>
    ensures ok { OnOk result (string_bytes out.new ≡ string_bytes out.old ++ call_line edition path.now) }
{
    put_path(out, edition, path)?;
    out.push_str("!(...);\n")
}

#[tactic(auto, unfolding(crate::specs::Page::rules_line))]
fn put_rules(out: &mut String, edition: Edition, word: &str, name: &Name) -> Result<(), AllocError>
    ensures ok { OnOk result (string_bytes out.new ≡ string_bytes out.old ++ rules_line edition word.now name.now) }
{
    out.push_str(word)?;
    put_name(out, edition, name)?;
    out.push_str(" { ... }\n")
}

// Adds an item's own line: of one that holds others the line that opens it.
fn put_line(
    out: &mut String,
    e: Edition,
    v: &RawVisibility,
    kind: &RowKind,
) -> Result<(), AllocError>
    ensures ok { OnOk result (string_bytes out.new ≡ string_bytes out.old ++ content_line e v.now (content_of kind.now)) }
{
    match kind {
        RowKind::Use { use_tree } => put_use(out, e, v, use_tree),
        RowKind::ExternCrate { name, alias } => put_crate(out, e, v, " extern crate ", name, alias),
        RowKind::ExternBlock { .. } => out.push_str("extern {\n"),
        RowKind::Function { name } => put_named(out, e, v, " fn ", name, ";\n"),
        RowKind::Struct { name, .. } => put_named(out, e, v, " struct ", name, " { ... }\n"),
        RowKind::Union { name, .. } => put_named(out, e, v, " union ", name, " { ... }\n"),
        RowKind::Enum { name } => put_named(out, e, v, " enum ", name, " { ... }\n"),
        RowKind::Const { name } => put_constant(out, e, v, name),
        RowKind::Static { name } => put_named(out, e, v, " static ", name, ";\n"),
        RowKind::Trait { name } => put_named(out, e, v, " trait ", name, " { ... }\n"),
        RowKind::Impl { .. } => out.push_str("impl { ... }\n"),
        RowKind::TypeAlias { name } => put_named(out, e, v, " type ", name, ";\n"),
        RowKind::Mod { name, .. } => put_named(out, e, v, " mod ", name, " {\n"),
        RowKind::OutlineMod { name } => put_named(out, e, v, " mod ", name, ";\n"),
        RowKind::MacroCall { path } => put_call(out, e, path),
        RowKind::MacroRules { name, .. } => put_rules(out, e, "macro_rules! ", name),
        RowKind::Macro2 { name, .. } => put_named(out, e, v, " macro ", name, " { ... }\n"),
    }
}

#[tactic(auto, unfolding(crate::specs::Page::close_text))]
fn put_close(out: &mut String, level: usize) -> Result<(), AllocError>
    ensures ok { OnOk result (string_bytes out.new ≡ string_bytes out.old ++ close_text level) }
{
    put_pad(out, level)?;
    out.push_str("}\n")
}

// Adds an empty line, unless nothing was before.
fn put_gap(out: &mut String, later: bool) -> Result<(), AllocError>
    ensures ok { OnOk result (string_bytes out.new ≡ string_bytes out.old ++ gap later) }
{
    if later { out.push_str("\n") } else { Ok(()) }
}

/// The row of a number.
pub fn row_at(rows: &Vec<Row>, id: ModItemId) -> &Row
    requires whole { IsWhole (rows_view rows.now.items) }
    requires within { id.0 < length rows.now.items }
    ensures found { slice_get (items_behind [] (rows_view rows.now.items)) id.0
        ≡ Some (item_of (items_behind [] (rows_view rows.now.items)) (row_view result.now).head (row_view result.now).content) }
    ensures below { ChildrenBelow id.0 (row_view result.now).content }
{
    &rows[id.0]
}

// Adds the block of an item, which holds items with lower numbers.
#[cycle(put)]
fn put_row(
    out: &mut String,
    edition: Edition,
    level: usize,
    rows: &Vec<Row>,
    row: &Row,
    number: usize,
) -> Result<(), AllocError>
    requires whole { IsWhole (rows_view rows.now.items) }
    requires within { number ≤ length rows.now.items }
    requires numbers { ChildrenBelow number (row_view row.now).content }
    requires levels { level + number + 1 < 2 ^ 64 }
    ensures ok { OnOk result (string_bytes out.new ≡ string_bytes out.old
        ++ item_text edition (item_of (items_behind [] (rows_view rows.now.items)) (row_view row.now).head (row_view row.now).content) level) }
{
    put_head(out, edition, level, row)?;
    put_line(out, edition, &row.visibility, &row.kind)?;
    match &row.kind {
        RowKind::ExternBlock { children } => {
            put_rows(out, edition, level + 1, rows, children, number, false)?;
            put_close(out, level)
        }
        RowKind::Mod { items, .. } => {
            put_rows(out, edition, level + 1, rows, items, number, false)?;
            put_close(out, level)
        }
        RowKind::Use { .. }
        | RowKind::ExternCrate { .. }
        | RowKind::Function { .. }
        | RowKind::Struct { .. }
        | RowKind::Union { .. }
        | RowKind::Enum { .. }
        | RowKind::Const { .. }
        | RowKind::Static { .. }
        | RowKind::Trait { .. }
        | RowKind::Impl { .. }
        | RowKind::TypeAlias { .. }
        | RowKind::OutlineMod { .. }
        | RowKind::MacroCall { .. }
        | RowKind::MacroRules { .. }
        | RowKind::Macro2 { .. } => Ok(()),
    }
}

/// Adds the blocks of items, all with numbers below this one.
#[cycle(put)]
pub fn put_rows(
    out: &mut String,
    edition: Edition,
    level: usize,
    rows: &Vec<Row>,
    ids: &Vec<ModItemId>,
    below: usize,
    later: bool,
) -> Result<(), AllocError>
    requires whole { IsWhole (rows_view rows.now.items) }
    requires within { below ≤ length rows.now.items }
    requires numbers { AreBelow below (numbers_of ids.now.items) }
    requires levels { level + below < 2 ^ 64 }
    ensures ok { OnOk result (string_bytes out.new ≡ string_bytes out.old
        ++ forest_text edition (items_at (items_behind [] (rows_view rows.now.items)) (numbers_of ids.now.items)) level later) }
{
    let mut later = later;
    for id in ids {
        put_gap(out, later)?;
        put_row(out, edition, level, rows, row_at(rows, *id), id.0)?;
        later = true;
    }
    Ok(())
}

// Whether anything is left of attributes.
fn has_attrs(attrs: &AttrsOrCfg) -> bool
    ensures value { result ≡ has_attributes (collected_of attrs.now) }
{
    match attrs.attrs.as_slice() {
        [] => attrs.disabled.is_some(),
        [_, ..] => true,
    }
}

fn put_newline_if_empty(out: &mut String) -> Result<(), AllocError>
    ensures ok { OnOk result (string_bytes out.new ≡ or_newline (string_bytes out.old)) }
{
    if out.is_empty() {
        out.push_str("\n")
    } else {
        Ok(())
    }
}

/// The page of rows: the attributes at the top, and the blocks of the items with these numbers.
pub fn page_of(
    alloc: Global,
    edition: Edition,
    attrs: &AttrsOrCfg,
    rows: &Vec<Row>,
    top: &Vec<ModItemId>,
) -> Result<String, AllocError>
    requires whole { IsWhole (rows_view rows.now.items) }
    requires numbers { AreBelow (length rows.now.items) (numbers_of top.now.items) }
    ensures value { IfOk result (λ s. string_bytes s ≡ or_newline (attributes_text edition 0 (codes "#!") (collected_of attrs.now)
        ++ forest_text edition (items_at (items_behind [] (rows_view rows.now.items)) (numbers_of top.now.items)) 0
        (has_attributes (collected_of attrs.now)))) }
{
    let mut out = String::new(alloc);
    put_attrs(&mut out, edition, 0, "#!", attrs)?;
    put_rows(
        &mut out,
        edition,
        0,
        rows,
        top,
        rows.len(),
        has_attrs(attrs),
    )?;
    put_newline_if_empty(&mut out)?;
    Ok(out)
}
