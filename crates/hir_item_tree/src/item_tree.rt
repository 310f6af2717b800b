//! The tree of items that is kept of a source, after rust-analyzer's `ItemTree`.
ghost use Rattle.std.specs.Prelude.{◌≡◌, ◌↔◌, ◌<◌, IsTrue, IsSome, IfOk, IfSome, length, string_bytes};
ghost use Rattle.std.specs.List.{slice_get, All};
ghost use Rattle.hir_item_tree.specs.Attributes.{attributes_view};
ghost use Rattle.hir_base.specs.CfgOptions.{is_set};
ghost use Rattle.hir_item_tree.specs.Collected.{collected_of};
ghost use Rattle.hir_item_tree.specs.ItemTree.{tree_of, empty_tree};
ghost use Rattle.hir_item_tree.specs.KeptForest.{all_items};
ghost use Rattle.hir_item_tree.specs.Kinds.{item_head, item_kind, kind_content, kind_visibility};
ghost use Rattle.hir_item_tree.specs.Page.{page};
ghost use Rattle.hir_item_tree.specs.Rows.{numbers_of, held_numbers, content_of, items_at, item_of};
ghost use Rattle.hir_item_tree.specs.Source.{source_view};
ghost use Rattle.hir_item_tree.specs.Sources.{tree_under};

use crate::attrs::{AttrsOrCfg, collected};
use crate::copy::{copy_ids, copy_rows};
use crate::item_tree_node::ItemTreeNode;
use crate::kinds::{ModItemKind, RawVisibilityId, kind_of_row};
use crate::lower::lower_nodes;
use crate::pretty::{page_of, row_at};
use crate::raw_attr::RawAttr;
use crate::raw_visibility::RawVisibility;
use crate::rows::{ModItemId, Row};
use crate::same_rows::{same_ids, same_rows};
use crate::source::Source;
use crate::sources::Sources;
use hir_base::ast_id::{HirFileId, SyntaxId};
use hir_base::cfg_options::CfgOptions;
use hir_base::edition::Edition;
use hir_base::ids::Crate;
use std::alloc::{AllocError, Global};
use std::marker::Model;
use std::ops::Index;

/// What is kept of a source: its items, without bodies, and the attributes at its top.
pub struct ItemTree {
    attrs: AttrsOrCfg,
    top: Vec<ModItemId>,
    rows: Vec<Row>,
}

impl Drop for ItemTree {
    fn drop(self) {
        let ItemTree {
            attrs: _,
            top: _,
            rows: _,
        } = self;
    }
}

impl Model for ItemTree {
    ghost use Rattle.hir_item_tree.specs.ItemTree.{Tree, coded_tree};

    ghost Value = { Tree };

    ghost coded = { coded_tree };

    ghost use Rattle.hir_item_tree.specs.Collected.{collected_of};
    ghost use Rattle.hir_item_tree.specs.Rows.{rows_view, numbers_of, forest_at, IsLaid};

    ghost view = { λ t. record { attributes = collected_of t.attrs; items = forest_at (rows_view t.rows.items) (numbers_of t.top.items) } };

    ghost invariant = { λ t. IsLaid (rows_view t.rows.items) (numbers_of t.top.items) };
}

/// The tree of a source under options. The attributes of the crate come in front, at the crate's root; a
/// source that can't be read has no items.
pub fn source_tree(
    alloc: Global,
    source: &Source,
    front: &Vec<RawAttr>,
    options: &CfgOptions,
) -> Result<ItemTree, AllocError>
    ensures forest { IfOk result (λ t. t ≡ tree_of (is_set options.now) (attributes_view front.now.items) (source_view source.now)) }
{
    let front = collected(alloc, options, front)?;
    let mut rows = Vec::new(alloc);
    match source {
        Source::Unit(unit) => {
            let own = collected(alloc, options, &unit.attrs)?;
            let attrs = front.merge(own)?;
            let top = lower_nodes(alloc, options, &mut rows, &unit.nodes)?;
            Ok(ItemTree { attrs, top, rows })
        }
        Source::Broken => {
            let attrs = front.merge(AttrsOrCfg::empty(alloc))?;
            Ok(ItemTree {
                attrs,
                top: Vec::new(alloc),
                rows,
            })
        }
    }
}

/// The tree of a source under a crate: of one that is absent, that of a source that can't be read.
pub fn file_item_tree<S: Sources>(
    alloc: Global,
    sources: &S,
    file_id: HirFileId,
    krate: Crate,
) -> Result<ItemTree, AllocError>
    ensures tree { IfOk result (λ t. t ≡ tree_under (S.sources sources.now) file_id krate) }
{
    let absent = Source::Broken;
    let no_attrs = Vec::new(alloc);
    let no_options = CfgOptions::new(alloc);
    let source = sources.source(file_id).unwrap_or(&absent);
    let front = sources.root_attrs(krate, file_id).unwrap_or(&no_attrs);
    let options = sources.options(krate).unwrap_or(&no_options);
    source_tree(alloc, source, front, options)
}

impl ItemTree {
    /// The tree without items, as an absent source has it.
    pub fn empty(alloc: Global) -> ItemTree
        ensures value { result ≡ empty_tree }
    {
        ItemTree {
            attrs: AttrsOrCfg::empty(alloc),
            top: Vec::new(alloc),
            rows: Vec::new(alloc),
        }
    }

    /// What is left of the attributes at the top.
    pub fn top_level_attrs(&self) -> &AttrsOrCfg
        ensures value { collected_of result.now ≡ self.now.attributes }
    {
        &self.attrs
    }

    /// The items of the source, in its order.
    pub fn top_level_items(&self) -> &[ModItemId]
        ensures value { items_at (all_items self.now.items) (numbers_of result.now) ≡ self.now.items }
        ensures there { All (λ (id : ModItemId). id.0 < length (all_items self.now.items)) result.now }
    {
        self.top.as_slice()
    }

    /// Whether the tree has an item of this number.
    pub fn contains(&self, id: ModItemId) -> bool
        ensures value { IsTrue result ↔ (id.0 < length (all_items self.now.items)) }
    {
        has_row(&self.rows, id)
    }

    /// What an item is, with the numbers of those that it holds.
    pub fn index(&self, id: ModItemId) -> ModItemKind<'_>
        requires there { id.0 < length (all_items self.now.items) }
        ensures value { IfSome (slice_get (all_items self.now.items) id.0)
            (λ i. item_of (all_items self.now.items) (item_head i) (kind_content result) ≡ i) }
        ensures visibility { IfSome (kind_visibility result) (λ v. v ≡ record { 0 = id.0 }) }
        ensures below { All (λ n. n < id.0) (held_numbers (kind_content result)) }
    {
        kind_of_row(self.row(id), RawVisibilityId(id.0))
    }

    /// An item of one kind; none where the item is of another.
    pub fn lookup<'a, N: ItemTreeNode<'a>>(&'a self, id: ModItemId) -> Option<N>
        requires there { id.0 < length (all_items self.now.items) }
        ensures value { IfSome result (λ node. IfSome (slice_get (all_items self.now.items) id.0)
            (λ i. item_of (all_items self.now.items) (item_head i) (kind_content (N.as_kind node)) ≡ i)) }
        ensures visibility { IfSome result (λ node. IfSome (kind_visibility (N.as_kind node)) (λ v. v ≡ record { 0 = id.0 })) }
        ensures exact { IfSome (slice_get (all_items self.now.items) id.0) (λ i. IsSome result ↔ (item_kind i ≡ N.node_kind)) }
    {
        N::from_kind(self.index(id))
    }

    /// What is left of an item's attributes.
    pub fn attrs(&self, id: ModItemId) -> &AttrsOrCfg
        requires there { id.0 < length (all_items self.now.items) }
        ensures value { IfSome (slice_get (all_items self.now.items) id.0) (λ i. collected_of result.now ≡ (item_head i).attributes) }
    {
        &self.row(id).attrs
    }

    /// The syntax id of an item.
    pub fn syntax_id(&self, id: ModItemId) -> SyntaxId
        requires there { id.0 < length (all_items self.now.items) }
        ensures value { IfSome (slice_get (all_items self.now.items) id.0) (λ i. result ≡ (item_head i).id) }
    {
        self.row(id).id
    }

    /// The visibility of an item; of a kind without visibility the implicit one.
    pub fn visibility(&self, id: RawVisibilityId) -> &RawVisibility
        requires there { id.0 < length (all_items self.now.items) }
        ensures value { IfSome (slice_get (all_items self.now.items) id.0) (λ i. result.now ≡ (item_head i).visibility) }
    {
        &self.row(ModItemId(id.0)).visibility
    }

    // The row of an item.
    fn row(&self, id: ModItemId) -> &Row
        requires there { id.0 < length (all_items self.now.items) }
        ensures id { IfSome (slice_get (all_items self.now.items) id.0) (λ i. result.now.id ≡ (item_head i).id) }
        ensures visibility { IfSome (slice_get (all_items self.now.items) id.0) (λ i. result.now.visibility ≡ (item_head i).visibility) }
        ensures attributes { IfSome (slice_get (all_items self.now.items) id.0)
            (λ i. collected_of result.now.attrs ≡ (item_head i).attributes) }
        ensures content { IfSome (slice_get (all_items self.now.items) id.0)
            (λ i. item_of (all_items self.now.items) (item_head i) (content_of result.now.kind) ≡ i) }
        ensures below { All (λ n. n < id.0) (held_numbers (content_of result.now.kind)) }
    {
        row_at(&self.rows, id)
    }

    /// The page of the tree, with the names as an edition writes them.
    pub fn pretty_print(&self, edition: Edition) -> Result<String, AllocError>
        ensures value { IfOk result (λ s. string_bytes s ≡ page edition self.now) }
    {
        let alloc = *self.rows.allocator();
        page_of(alloc, edition, &self.attrs, &self.rows, &self.top)
    }

    /// Whether two trees have the same items, with their ids, visibilities and attributes.
    pub fn same(&self, other: &ItemTree) -> bool
        ensures exact { IsTrue result ↔ (self.now ≡ other.now) }
    {
        self.attrs.same(&other.attrs)
            && same_ids(&self.top, &other.top)
            && same_rows(&self.rows, &other.rows)
    }

    /// The same tree again.
    pub fn clone(&self) -> Result<ItemTree, AllocError>
        ensures value { IfOk result (λ t. t ≡ self.now) }
    {
        Ok(ItemTree {
            attrs: self.attrs.clone()?,
            top: copy_ids(&self.top)?,
            rows: copy_rows(&self.rows)?,
        })
    }
}

impl Index<RawVisibilityId> for ItemTree {
    ghost use Rattle.std.specs.Prelude.{◌≡◌, ◌<◌, IfSome, length};
    ghost use Rattle.std.specs.List.{slice_get};
    ghost use Rattle.hir_item_tree.specs.KeptForest.{all_items};
    ghost use Rattle.hir_item_tree.specs.Kinds.{item_head};

    type Output = RawVisibility;

    ghost can_index = { λ t id. id.0 < length (all_items t.items) };

    ghost index_gives = { λ t id v. IfSome (slice_get (all_items t.items) id.0) (λ i. v ≡ (item_head i).visibility) };

    fn index(&self, id: RawVisibilityId) -> &RawVisibility {
        self.visibility(id)
    }
}

// Whether there is a row of this number.
fn has_row(rows: &Vec<Row>, id: ModItemId) -> bool
    ensures value { IsTrue result ↔ (id.0 < length rows.now.items) }
{
    id.0 < rows.len()
}

impl PartialEq for ItemTree {
    ghost use Rattle.std.specs.Cmp.{partial_equiv_from_equiv};
    ghost use Rattle.hir_item_tree.specs.Same.{same_by, same_by_equiv};
    ghost use Rattle.hir_item_tree.specs.ItemTree.{coded_tree};

    ghost eq = { same_by coded_tree };

    ghost laws = { partial_equiv_from_equiv (same_by_equiv coded_tree) };

    fn eq(&self, other: &ItemTree) -> bool {
        self.same(other)
    }
}

impl Eq for ItemTree {
    ghost use Rattle.hir_item_tree.specs.Same.{same_by_equiv};
    ghost use Rattle.hir_item_tree.specs.ItemTree.{coded_tree};

    ghost laws = { same_by_equiv coded_tree };
}
