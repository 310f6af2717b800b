//! What the sources have under the crates that asked for them.
ghost use Rattle.std.specs.Prelude.{◌≡◌, ◌↔◌, Some, None, IsSome, IsTrue, OnOk, OnErr, map, option_map, if◌then◌else◌};
ghost use Rattle.std.specs.Bool.{OnTrue, OnFalse};
ghost use Rattle.std.specs.BTreeMap.{get};
ghost use Rattle.std.specs.Option.{option_and_then};
ghost use Rattle.hir_ids.specs.contracts.ids.CrateOrd.TheImpl.{ghosts};
ghost use Rattle.hir_item_tree.specs.SideLists.{row_item, entry_associated, entry_text, entry_input};
ghost use Rattle.hir_item_tree.specs.SourceTree.{side_of, variants_of};
ghost use Rattle.hir_item_tree.specs.Trees.{is_key, source_at};

use crate::check::NodeId;
use crate::item_tree::ItemTree;
use crate::rows::Row;
use crate::side_lists::VariantItem;
use crate::source_tree::SourceTree;
use crate::tree_id::{TreeId, TreeKey};
use hir_base::ast_id::SyntaxId;
use hir_base::ids::Crate;
use hir_base::text::Text;
use std::alloc::{AllocError, Global};
use std::collections::BTreeMap;
use std::rc::Rc;

/// What each source has under each crate that asked for it. The crates that asked for a source are found by the source
/// alone.
#[derive(Drop)]
pub struct Trees {
    by_source: BTreeMap<TreeId, BTreeMap<Crate, Rc<SourceTree>>>,
    alloc: Global,
}

impl Trees {
    pub fn new(alloc: Global) -> Trees
        ensures value { (q : TreeKey) → source_at result q ≡ None }
    {
        Trees {
            by_source: BTreeMap::new(alloc),
            alloc,
        }
    }

    /// Keeps what a source has under a crate, in place of what was kept of it.
    pub fn set(&mut self, key: TreeKey, tree: Rc<SourceTree>) -> Result<(), AllocError>
        ensures ok { OnOk result ((q : TreeKey) → source_at self.new q ≡ (if is_key key q then Some tree.value else source_at self.old q)) }
        ensures err { OnErr result ((q : TreeKey) → source_at self.new q ≡ source_at self.old q) }
    {
        match self.by_source.get_mut(&key.id) {
            Some(kept) => {
                kept.insert(key.krate, tree)?;
                Ok(())
            }
            None => {
                let mut kept = BTreeMap::new(self.alloc);
                kept.insert(key.krate, tree)?;
                self.by_source.insert(key.id, kept)?;
                Ok(())
            }
        }
    }

    /// Puts this in place of what is kept of a source under a crate, where something is. It needs no memory.
    pub fn replace(&mut self, key: TreeKey, tree: Rc<SourceTree>) -> bool
        ensures kept { IsTrue result ↔ IsSome (source_at self.old key) }
        ensures replaced { OnTrue result ((q : TreeKey) → source_at self.new q ≡ (if is_key key q then Some tree.value else source_at self.old q)) }
        ensures unchanged { OnFalse result ((q : TreeKey) → source_at self.new q ≡ source_at self.old q) }
    {
        match self.by_source.get_mut(&key.id) {
            Some(kept) => match kept.get_mut(&key.krate) {
                Some(old) => {
                    *old = tree;
                    true
                }
                None => false,
            },
            None => false,
        }
    }

    /// Keeps nothing of a source under a crate.
    pub fn remove(&mut self, key: TreeKey)
        ensures value { (q : TreeKey) → source_at self.new q ≡ (if is_key key q then None else source_at self.old q) }
    {
        if let Some(kept) = self.by_source.get_mut(&key.id) {
            kept.remove(&key.krate);
        }
    }

    /// What a source has under a crate, where it is kept.
    pub fn get(&self, key: TreeKey) -> Option<&Rc<SourceTree>>
        ensures value { option_map (λ t. t.now.value) result ≡ source_at self.now key }
    {
        match self.by_source.get(&key.id) {
            Some(kept) => kept.get(&key.krate),
            None => None,
        }
    }

    /// The crates that asked for a source, in their order, each with what the source has under it.
    pub fn crates(&self, id: TreeId) -> Option<&BTreeMap<Crate, Rc<SourceTree>>>
        ensures value { (krate : Crate) → option_and_then (λ kept. option_map (λ t. t.value) (get ghosts.cmp kept.now krate)) result
            ≡ source_at self.now (record { krate = krate; id = id }) }
    {
        self.by_source.get(&id)
    }

    /// The variants of an enum, without those that a condition disables.
    pub fn side_variants(&self, key: TreeKey, id: SyntaxId) -> Option<&[VariantItem]>
        ensures value { option_map (λ vs. vs.now) result ≡ option_and_then (λ t. variants_of t id) (source_at self.now key) }
    {
        match self.get(key) {
            Some(tree) => tree.variants(id),
            None => None,
        }
    }

    /// The associated items of a trait or an impl.
    pub fn side_assoc(&self, key: TreeKey, node: NodeId) -> Option<&[Row]>
        ensures value { option_map (λ rows. map row_item rows.now) result
            ≡ option_and_then (λ t. option_and_then entry_associated (side_of t node)) (source_at self.now key) }
    {
        match self.get(key) {
            Some(tree) => tree.assoc(node),
            None => None,
        }
    }

    /// The text of a macro.
    pub fn side_text(&self, key: TreeKey, node: NodeId) -> Option<&str>
        ensures value { option_map (λ text. text.now) result
            ≡ option_and_then (λ t. option_and_then entry_text (side_of t node)) (source_at self.now key) }
    {
        match self.get(key) {
            Some(tree) => as_str(tree.text(node)),
            None => None,
        }
    }

    /// The input of a call, or of attribute and derive calls on an item, where it isn't empty.
    pub fn side_input(&self, key: TreeKey, node: NodeId) -> Option<&str>
        ensures value { option_map (λ text. text.now) result
            ≡ option_and_then (λ t. option_and_then entry_input (side_of t node)) (source_at self.now key) }
    {
        match self.get(key) {
            Some(tree) => as_str(tree.input(node)),
            None => None,
        }
    }
}

/// A text as `&str`, if there is one.
fn as_str(text: Option<&Text>) -> Option<&str>
    ensures value { option_map (λ t. t.now) result ≡ option_map (λ t. t.now) text.entry }
{
    match text {
        Some(text) => Some(text.as_str()),
        None => None,
    }
}

/// What has a tree that may be kept.
pub trait KeptTree: Copy {
    ghost use Rattle.hir_base.specs.declared.tree_id.TreeId.{TreeId};

    ghost id_of: { Self → TreeId };

    /// The tree of the source under a crate, where one is kept.
    fn item_tree(self, trees: &Trees, krate: Crate) -> Option<&ItemTree>
        ensures value { option_map (λ t. t.now) result
            ≡ option_map (λ t. t.tree) (source_at trees.now (record { krate = krate; id = id_of self })) };
}

impl KeptTree for TreeId {
    ghost id_of = { λ id. id };

    fn item_tree(self, trees: &Trees, krate: Crate) -> Option<&ItemTree> {
        match trees.get(TreeKey { krate, id: self }) {
            Some(tree) => Some(tree.tree()),
            None => None,
        }
    }
}
