//! The limits of a source, and its syntax ids.
ghost use Rattle.std.specs.Prelude.{◌≡◌, ◌≤◌, OnOk};
ghost use Rattle.std.specs.List.{IsDistinct};
ghost use Rattle.hir_ids.specs.Refusal.{Gives};
ghost use Rattle.hir_item_tree.specs.Attributes.{attributes_view};
ghost use Rattle.hir_item_tree.specs.Source.{nodes_view, source_view};
ghost use Rattle.hir_item_tree.specs.Limits.{size};
ghost use Rattle.hir_item_tree.specs.SyntaxIds.{ids};
ghost use Rattle.hir_item_tree.specs.Check.{handed_in, verdict_of_check, verdict_of_unit, IsMemory};

use crate::source::{Source, Unit};
use hir_base::ast_id::{AstKind, SyntaxId};
use hir_base::limit::Limit;
use std::alloc::{AllocError, Global};
use thiserror::Error;

pub mod long_paths;
pub mod nesting;
mod node_ids;
mod sizes;

use long_paths::{any_long_attr, any_long_path};
use nesting::{any_deep_cfg, any_deep_tree, deep_attrs, fit_depth};
use node_ids::{any_large_index, first_repeat, push_all_ids};
use sizes::spend_all;

/// The greatest index of a syntax id.
pub const MAX_INDEX: u16 = 2047;
/// The most nodes, variants, fields and use trees of a source together.
pub const MAX_NODES: u32 = 1000000;
/// How deep modules may nest.
pub const MAX_MODULES: u32 = 32;
/// How deep conditions and `cfg_attr` may nest in an attribute.
pub const MAX_CFG: u32 = 16;

/// A node among those of its source: its kind, and its id among those of the kind.
#[derive(Clone, Copy, Debug, PartialEq, Eq, PartialOrd, Ord, Hash)]
pub struct NodeId {
    pub kind: AstKind,
    pub id: SyntaxId,
}

/// What a source is refused for.
#[derive(Debug, Drop, Error)]
pub enum CheckError {
    /// A limit is passed somewhere.
    #[error("too large: {0}")]
    TooLarge(Limit),
    /// Two nodes of one kind have one id.
    #[error("two nodes of kind {kind:?} have the id [{}, {}]", .id.hash, .id.index)]
    DuplicateId { kind: AstKind, id: SyntaxId },
    #[error("out of memory")]
    Memory,
}

impl From<AllocError> for CheckError {
    ghost use Rattle.std.specs.Prelude.{◌≡◌};
    ghost use Rattle.hir_item_tree.specs.declared.check.CheckError.TheVariants.{Memory};

    ghost from_gives = { λ _ e. e ≡ Memory };

    fn from(_: AllocError) -> CheckError {
        CheckError::Memory
    }
}

/// Refuses a source for the first limit, in their order, that it passes anywhere, or else for the first
/// node or variant in preorder whose kind and id stood before.
///
/// Goes as deep as the source nests: text as it is read nests at most 127 deep.
pub fn check(alloc: Global, source: &Source) -> Result<(), CheckError>
    ensures answer { Gives IsMemory result (verdict_of_check (source_view source.now)) }
    ensures unique { OnOk result (IsDistinct ⟦<NodeId as PartialEq>⟧.eq (ids (handed_in (source_view source.now)))) }
    ensures bound { OnOk result (size (handed_in (source_view source.now)) ≤ 1000000) }
{
    match source {
        Source::Unit(unit) => check_unit(alloc, unit),
        Source::Broken => Ok(()),
    }
}

fn check_unit(alloc: Global, unit: &Unit) -> Result<(), CheckError>
    ensures answer { Gives IsMemory result (verdict_of_unit (attributes_view unit.now.attrs.items) (nodes_view unit.now.nodes.items)) }
    ensures unique { OnOk result (IsDistinct ⟦<NodeId as PartialEq>⟧.eq (ids (nodes_view unit.now.nodes.items))) }
    ensures bound { OnOk result (size (nodes_view unit.now.nodes.items) ≤ 1000000) }
{
    let nodes = &unit.nodes;
    if any_long_attr(&unit.attrs) || any_long_path(nodes) {
        return Err(CheckError::TooLarge(Limit::Path));
    }
    let mut all = Vec::new(alloc);
    push_all_ids(&mut all, nodes)?;
    if any_large_index(&all) {
        return Err(CheckError::TooLarge(Limit::Index));
    }
    if spend_all(nodes, MAX_NODES).is_none() {
        return Err(CheckError::TooLarge(Limit::Nodes));
    }
    if !fit_depth(nodes, MAX_MODULES) {
        return Err(CheckError::TooLarge(Limit::Modules));
    }
    if any_deep_tree(nodes) {
        return Err(CheckError::TooLarge(Limit::UseTree));
    }
    if deep_attrs(&unit.attrs) || any_deep_cfg(nodes) {
        return Err(CheckError::TooLarge(Limit::Cfg));
    }
    match first_repeat(alloc, &all)? {
        Some(node) => Err(CheckError::DuplicateId {
            kind: node.kind,
            id: node.id,
        }),
        None => Ok(()),
    }
}
