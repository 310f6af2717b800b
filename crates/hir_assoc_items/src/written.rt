//! The items of a list that are still to be looked at.
ghost use Rattle.std.specs.Prelude.{◌≡◌, ◌<◌, ◌++◌, IfOk, OnOk, length, map, option_map, slice_get};
ghost use Rattle.hir_collector_rules.specs.HirBase.Cfg.{cfg_view};
ghost use Rattle.hir_collector_rules.specs.HirItemTree.Collected.{collected_of};
ghost use Rattle.hir_collector_rules.specs.HirItemTree.KeptForest.{all_items};
ghost use Rattle.hir_collector_rules.specs.HirItemTree.Kinds.{kind_content};
ghost use Rattle.hir_collector_rules.specs.HirItemTree.SideLists.{row_item};
ghost use Rattle.hir_assoc_items.specs.Written.{content_kind, item_node, node_kind, path_called, top_items, written, written_content, written_found, written_view};

use hir_base::ast_id::{AstId, AstKind, SyntaxId};
use hir_base::cfg::CfgExpr;
use hir_base::mod_path::ModPath;
use hir_base::name::Name;
use hir_item_tree::attrs::AttrsOrCfg;
use hir_item_tree::item_tree::ItemTree;
use hir_item_tree::kinds::{ModItemKind, RawVisibilityId, kind_of_row};
use hir_item_tree::rows::{ModItemId, Row};
use hir_item_tree::tree_id::TreeId;
use std::alloc::{AllocError, Global};

/// What an associated item is.
#[derive(Drop)]
pub enum AssocKind {
    Function(Name),
    /// `const _` has no name.
    Const(Option<Name>),
    TypeAlias(Name),
    MacroCall(ModPath),
}

impl AssocKind {
    /// The kind of its node.
    pub fn ast_kind(&self) -> AstKind
        ensures value { result ≡ node_kind self.now }
    {
        match self {
            AssocKind::Function(_) => AstKind::Fn,
            AssocKind::Const(_) => AstKind::Const,
            AssocKind::TypeAlias(_) => AstKind::TypeAlias,
            AssocKind::MacroCall(_) => AstKind::MacroCall,
        }
    }
}

/// An associated item where it is written.
#[derive(Drop)]
pub struct Written {
    pub tree: TreeId,
    /// How many expansions are around it.
    pub level: u64,
    pub id: SyntaxId,
    /// The first condition that doesn't hold, if one doesn't.
    pub disabled: Option<CfgExpr>,
    pub kind: AssocKind,
}

impl Written {
    /// Its node.
    pub fn node(&self) -> AstId
        ensures value { result ≡ item_node (written_view self.now) }
    {
        AstId {
            file_id: self.tree.file,
            block: self.tree.block,
            kind: self.kind.ast_kind(),
            id: self.id,
        }
    }

    /// The condition that leaves it out, if one does.
    pub fn condition(&self) -> Option<&CfgExpr>
        ensures value { option_map (λ cfg. cfg_view cfg.now) result ≡ (written_view self.now).disabled }
    {
        self.disabled.as_ref()
    }

    /// The path of a call.
    pub fn path_called(&self) -> Option<&ModPath>
        ensures value { option_map (λ path. path.now) result ≡ path_called self.now.kind }
    {
        match &self.kind {
            AssocKind::MacroCall(path) => Some(path),
            AssocKind::Function(_) | AssocKind::Const(_) | AssocKind::TypeAlias(_) => None,
        }
    }
}

/// The same name, if there is one.
fn cloned(name: &Option<Name>) -> Result<Option<Name>, AllocError>
    ensures value { IfOk result (λ copy. copy ≡ name.now) }
{
    match name {
        Some(name) => Ok(Some(name.clone()?)),
        None => Ok(None),
    }
}

/// What an item is, if traits and impls have such items.
fn assoc_kind(kind: ModItemKind<'_>) -> Result<Option<AssocKind>, AllocError>
    ensures value { IfOk result (λ found. found ≡ content_kind (kind_content kind.entry)) }
{
    match kind {
        ModItemKind::Function(function) => Ok(Some(AssocKind::Function(function.name.clone()?))),
        ModItemKind::Const(constant) => Ok(Some(AssocKind::Const(cloned(constant.name)?))),
        ModItemKind::TypeAlias(alias) => Ok(Some(AssocKind::TypeAlias(alias.name.clone()?))),
        ModItemKind::MacroCall(call) => Ok(Some(AssocKind::MacroCall(call.path.clone()?))),
        _ => Ok(None),
    }
}

/// The condition that disables an item, if one does.
fn disabled(alloc: Global, attrs: &AttrsOrCfg) -> Result<Option<CfgExpr>, AllocError>
    ensures value { IfOk result (λ cfg. option_map cfg_view cfg ≡ (collected_of attrs.now).disabled) }
{
    match &attrs.disabled {
        Some(cfg) => Ok(Some(cfg.clone(alloc)?)),
        None => Ok(None),
    }
}

/// Adds an item, if traits and impls have such items.
fn add(
    alloc: Global,
    items: &mut Vec<Written>,
    tree: TreeId,
    level: u64,
    id: SyntaxId,
    attrs: &AttrsOrCfg,
    kind: ModItemKind<'_>,
) -> Result<(), AllocError>
    ensures ok { OnOk result (map written_view items.new.items
        ≡ map written_view items.old.items ++ written_content tree level id (collected_of attrs.now).disabled (kind_content kind.entry)) }
{
    let Some(kind) = assoc_kind(kind)? else {
        return Ok(());
    };
    let disabled = disabled(alloc, attrs)?;
    items.push(Written {
        tree,
        level,
        id,
        disabled,
        kind,
    })?;
    Ok(())
}

/// The items of a trait or an impl, as a source keeps them beside its tree.
pub fn of_rows(
    alloc: Global,
    tree: TreeId,
    level: u64,
    rows: &[Row],
) -> Result<Vec<Written>, AllocError>
    ensures value { IfOk result (λ items. map written_view items.items ≡ written tree level (map row_item rows.now)) }
{
    let mut items = Vec::new(alloc);
    let mut left = rows;
    'next: while let [row, others @ ..] = left {
        let kind = kind_of_row(row, RawVisibilityId(0));
        add(alloc, &mut items, tree, level, row.id, &row.attrs, kind)?;
        left = others;
    }
    Ok(items)
}

/// Adds the item of a number in a tree, if traits and impls have such items.
fn add_from_tree(
    alloc: Global,
    items: &mut Vec<Written>,
    tree: TreeId,
    level: u64,
    source: &ItemTree,
    id: ModItemId,
) -> Result<(), AllocError>
    requires there { id.0 < length (all_items source.now.items) }
    ensures ok { OnOk result (map written_view items.new.items
        ≡ map written_view items.old.items ++ written_found tree level (slice_get (all_items source.now.items) id.0)) }
{
    let node = source.syntax_id(id);
    let attrs = source.attrs(id);
    let kind = source.index(id);
    add(alloc, items, tree, level, node, attrs, kind)?;
    Ok(())
}

/// The items at the top of a tree that traits and impls have.
pub fn of_tree(
    alloc: Global,
    tree: TreeId,
    level: u64,
    source: &ItemTree,
) -> Result<Vec<Written>, AllocError>
    ensures value { IfOk result (λ items. map written_view items.items ≡ written tree level (top_items source.now.items)) }
{
    let mut items = Vec::new(alloc);
    for id in source.top_level_items() {
        add_from_tree(alloc, &mut items, tree, level, source, *id)?;
    }
    Ok(items)
}
