//! What a source has under a crate: whether it is there, its tree, and what is kept beside the tree.
ghost use Rattle.std.specs.Prelude.{◌≡◌, ◌↔◌, IfOk, IsTrue, map, option_map};
ghost use Rattle.std.specs.Option.{option_and_then};
ghost use Rattle.hir_base.specs.CfgOptions.{is_set};
ghost use Rattle.hir_item_tree.specs.Attributes.{attributes_view};
ghost use Rattle.hir_item_tree.specs.ItemTree.{tree_of};
ghost use Rattle.hir_item_tree.specs.SideIndex.{IsIndex};
ghost use Rattle.hir_item_tree.specs.SideLists.{entry_view, row_item, entry_variants, entry_associated, entry_text, entry_input, side_lists};
ghost use Rattle.hir_item_tree.specs.Source.{source_view};

use crate::check::NodeId;
use crate::item_tree::{ItemTree, source_tree};
use crate::raw_attr::RawAttr;
use crate::rows::Row;
use crate::side_lists::{Side, SideEntry, VariantItem, side_lists};
use crate::source::Source;
use hir_base::ast_id::{AstKind, SyntaxId};
use hir_base::cfg_options::CfgOptions;
use hir_base::text::Text;
use std::alloc::{AllocError, Global};
use std::collections::BTreeMap;
use std::marker::Model;

/// What a source has under the options of a crate, behind the attributes of the crate where it is the crate's root.
pub struct SourceTree {
    present: bool,
    tree: ItemTree,
    /// The entries beside the tree, in preorder.
    sides: Vec<SideEntry>,
    /// Where the first entry of each node stands.
    places: BTreeMap<NodeId, usize>,
}

impl Drop for SourceTree {
    fn drop(self) {
        let SourceTree {
            present: _,
            tree: _,
            sides: _,
            places: _,
        } = self;
    }
}

impl Model for SourceTree {
    ghost use Rattle.hir_item_tree.specs.SourceTree.{SourceTreeValue};
    ghost use Rattle.hir_item_tree.specs.SideCodes.{coded_source_tree};

    ghost Value = { SourceTreeValue };

    ghost coded = { coded_source_tree };

    ghost use Rattle.hir_item_tree.specs.SideIndex.{IsIndex};
    ghost use Rattle.hir_item_tree.specs.SideLists.{entries_view};

    ghost view = { λ t. record { present = t.present; tree = t.tree; sides = entries_view t.sides.items } };

    ghost invariant = { λ t. IsIndex t.places t.sides.items };
}

impl SourceTree {
    ghost use Rattle.hir_item_tree.specs.SourceTree.{source_tree_of, side_of, variants_of, HasSameTree};

    /// Lowers a source; one that is absent has what one that can't be read has.
    pub fn new(
        alloc: Global,
        source: Option<&Source>,
        front: &Vec<RawAttr>,
        options: &CfgOptions,
    ) -> Result<SourceTree, AllocError>
        ensures value { IfOk result (λ t. t ≡ source_tree_of (is_set options.now) (attributes_view front.now.items)
            (option_map (λ s. source_view s.now) source.entry)) }
    {
        match source {
            Some(source) => SourceTree::lower(alloc, true, source, front, options),
            None => SourceTree::lower(alloc, false, &Source::Broken, front, options),
        }
    }

    fn lower(
        alloc: Global,
        present: bool,
        source: &Source,
        front: &Vec<RawAttr>,
        options: &CfgOptions,
    ) -> Result<SourceTree, AllocError>
        ensures value { IfOk result (λ t. t ≡ record {
          present = present;
          tree = tree_of (is_set options.now) (attributes_view front.now.items) (source_view source.now);
          sides = side_lists (is_set options.now) (source_view source.now);
        }) }
    {
        let tree = source_tree(alloc, source, front, options)?;
        let sides = side_lists(alloc, source, options)?;
        let places = first_places(alloc, &sides)?;
        Ok(SourceTree {
            present,
            tree,
            sides,
            places,
        })
    }

    /// Whether the source is there.
    pub fn is_present(&self) -> bool
        ensures value { result ≡ self.now.present }
    {
        self.present
    }

    /// Its tree.
    pub fn tree(&self) -> &ItemTree
        ensures value { result.now ≡ self.now.tree }
    {
        &self.tree
    }

    // The first entry of a node.
    fn side(&self, node: NodeId) -> Option<&SideEntry>
        ensures value { option_map (λ e. entry_view e.now) result ≡ side_of self.now node }
    {
        match self.places.get(&node) {
            Some(place) => Some(&self.sides[*place]),
            None => None,
        }
    }

    /// The variants of an enum, without those that a condition disables.
    pub fn variants(&self, id: SyntaxId) -> Option<&[VariantItem]>
        ensures value { option_map (λ vs. vs.now) result ≡ variants_of self.now id }
    {
        let kind = AstKind::Enum;
        match self.side(NodeId { kind, id }) {
            Some(entry) => variants_in(entry),
            None => None,
        }
    }

    /// The associated items of a trait or an impl.
    pub fn assoc(&self, node: NodeId) -> Option<&[Row]>
        ensures value { option_map (λ rows. map row_item rows.now) result
            ≡ option_and_then entry_associated (side_of self.now node) }
    {
        match self.side(node) {
            Some(entry) => associated_in(entry),
            None => None,
        }
    }

    /// The text of a macro.
    pub fn text(&self, node: NodeId) -> Option<&Text>
        ensures value { option_map (λ text. text.now) result ≡ option_and_then entry_text (side_of self.now node) }
    {
        match self.side(node) {
            Some(entry) => text_in(entry),
            None => None,
        }
    }

    /// The input of a call, or of attribute and derive calls on an item, where it isn't empty.
    pub fn input(&self, node: NodeId) -> Option<&Text>
        ensures value { option_map (λ text. text.now) result ≡ option_and_then entry_input (side_of self.now node) }
    {
        match self.side(node) {
            Some(entry) => input_in(entry),
            None => None,
        }
    }

    /// Whether both are there or both absent, with equal trees.
    pub fn has_same_tree(&self, other: &SourceTree) -> bool
        ensures exact { IsTrue result ↔ HasSameTree self.now other.now }
    {
        self.present == other.present && self.tree.same(&other.tree)
    }

    /// Whether an enum has the same variants in both, or is in neither.
    pub fn has_same_variants(&self, other: &SourceTree, id: SyntaxId) -> bool
        ensures exact { IsTrue result ↔ (variants_of self.now id ≡ variants_of other.now id) }
    {
        match (self.variants(id), other.variants(id)) {
            (Some(variants), Some(others)) => are_same_variants(variants, others),
            (None, None) => true,
            (Some(_), None) | (None, Some(_)) => false,
        }
    }
}

// Where the first entry of each node stands.
fn first_places(
    alloc: Global,
    entries: &Vec<SideEntry>,
) -> Result<BTreeMap<NodeId, usize>, AllocError>
    ensures value { IfOk result (λ places. IsIndex places entries.now.items) }
{
    let mut places = BTreeMap::new(alloc);
    let mut left = entries.len();
    while left > 0 {
        left -= 1;
        places.insert(entries[left].node, left)?;
    }
    Ok(places)
}

fn variants_in(entry: &SideEntry) -> Option<&[VariantItem]>
    ensures value { option_map (λ vs. vs.now) result ≡ entry_variants (entry_view entry.now) }
{
    match &entry.side {
        Side::Variants(variants) => Some(variants.as_slice()),
        _ => None,
    }
}

fn associated_in(entry: &SideEntry) -> Option<&[Row]>
    ensures value { option_map (λ rows. map row_item rows.now) result ≡ entry_associated (entry_view entry.now) }
{
    match &entry.side {
        Side::Associated(rows) => Some(rows.as_slice()),
        _ => None,
    }
}

fn text_in(entry: &SideEntry) -> Option<&Text>
    ensures value { option_map (λ text. text.now) result ≡ entry_text (entry_view entry.now) }
{
    match &entry.side {
        Side::Text(text) => Some(text),
        _ => None,
    }
}

fn input_in(entry: &SideEntry) -> Option<&Text>
    ensures value { option_map (λ text. text.now) result ≡ entry_input (entry_view entry.now) }
{
    match &entry.input {
        Some(input) if !input.as_str().is_empty() => Some(input),
        _ => None,
    }
}

fn is_same_variant(a: &VariantItem, b: &VariantItem) -> bool
    ensures exact { IsTrue result ↔ (a.now ≡ b.now) }
{
    a.id == b.id && a.name == b.name && a.shape == b.shape
}

fn are_same_variants(a: &[VariantItem], b: &[VariantItem]) -> bool
    ensures exact { IsTrue result ↔ (a.now ≡ b.now) }
{
    let mut left = a;
    let mut right = b;
    'next: while let [variant, others @ ..] = left {
        let [other, more @ ..] = right else {
            return false;
        };
        if !is_same_variant(variant, other) {
            return false;
        }
        left = others;
        right = more;
    }
    right.is_empty()
}
