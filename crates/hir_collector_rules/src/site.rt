//! Where items are written, and what each has.
ghost use Rattle.std.specs.Prelude.{◌≡◌, ◌<◌, IfOk, IfSome, length, slice_get};
ghost use Rattle.hir_item_tree.specs.KeptForest.{all_items};
ghost use Rattle.hir_item_tree.specs.Kinds.{item_head};
ghost use Rattle.hir_collector_rules.specs.TreeReads.{head_of};

use hir_base::ast_id::{FileId, SyntaxId};
use hir_base::ids::ExternBlockId;
use hir_item_tree::attrs::AttrsOrCfg;
use hir_item_tree::item_tree::ItemTree;
use hir_item_tree::kinds::RawVisibilityId;
use hir_item_tree::raw_visibility::RawVisibility;
use hir_item_tree::rows::ModItemId;
use hir_item_tree::tree_id::TreeId;
use hir_mod_dir::ModDir;
use std::alloc::AllocError;

/// Where an item is written.
#[derive(Drop)]
pub struct Site {
    /// The number of the module that declares it.
    pub home: u32,
    /// The source that it is written in.
    pub tree: TreeId,
    /// The file that it is written in; of what an expansion brought, that of the outermost call around it; none in a
    /// block.
    pub file: Option<FileId>,
    /// The extern block that holds it, if one does.
    pub extern_block: Option<ExternBlockId>,
    /// The directory in which the files of the modules that it declares are looked for.
    pub dir: ModDir,
    /// How many expansions are around it.
    pub level: u32,
}

impl Site {
    /// The same site again.
    pub fn clone(&self) -> Result<Site, AllocError>
        ensures value { IfOk result (λ site. site ≡ self.now) }
    {
        Ok(Site {
            home: self.home,
            tree: self.tree,
            file: self.file,
            extern_block: self.extern_block,
            dir: self.dir.clone()?,
            level: self.level,
        })
    }
}

/// What every item has.
#[derive(Clone, Copy)]
pub struct ItemHead<'a> {
    pub id: SyntaxId,
    pub visibility: &'a RawVisibility,
    pub attrs: &'a AttrsOrCfg,
}

/// What an item of a tree has.
pub fn head_at(tree: &ItemTree, id: ModItemId) -> ItemHead<'_>
    requires there { id.0 < length (all_items tree.now.items) }
    ensures value { IfSome (slice_get (all_items tree.now.items) id.0) (λ i. head_of result ≡ item_head i) }
{
    ItemHead {
        id: tree.syntax_id(id),
        visibility: &tree[RawVisibilityId(id.0)],
        attrs: tree.attrs(id),
    }
}
