//! Trees that are kept besides those who walk them.
ghost use Rattle.std.specs.Prelude.{◌≡◌, IfOk};

use hir_item_tree::source_tree::SourceTree;
use std::alloc::AllocError;
use std::marker::Model;
use std::rc::Rc;

/// What writes items; its clones are the same tree.
#[derive(Drop)]
pub struct SharedTree {
    tree: Rc<SourceTree>,
}

impl Model for SharedTree {
    ghost use Rattle.hir_item_tree.specs.SourceTree.{SourceTreeValue};
    ghost use Rattle.hir_item_tree.specs.SideCodes.{coded_source_tree};

    ghost Value = { SourceTreeValue };

    ghost coded = { coded_source_tree };

    ghost view = { λ s. s.tree.value };
}

impl SharedTree {
    /// The same tree, kept once more.
    pub fn new(tree: &Rc<SourceTree>) -> Result<SharedTree, AllocError>
        ensures value { IfOk result (λ shared. shared ≡ tree.now.value) }
    {
        Ok(SharedTree {
            tree: tree.clone()?,
        })
    }

    /// The tree.
    pub fn tree(&self) -> &Rc<SourceTree>
        ensures value { result.now.value ≡ self.now }
    {
        &self.tree
    }

    /// The same tree again.
    pub fn clone(&self) -> Result<SharedTree, AllocError>
        ensures value { IfOk result (λ shared. shared ≡ self.now) }
    {
        SharedTree::new(&self.tree)
    }
}
