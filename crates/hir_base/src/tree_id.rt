//! Which source a tree is of, after rust-analyzer's `TreeId`.
ghost use Rattle.std.specs.Prelude.{◌≡◌, ◌↔◌, IsTrue, IsSome};

use crate::ast_id::{BlockId, HirFileId};
use crate::ids::Crate;

/// A file, what a call expands to, or a block in one of them.
#[derive(Clone, Copy, Debug, PartialEq, Eq, PartialOrd, Ord, Hash)]
pub struct TreeId {
    pub file: HirFileId,
    pub block: Option<BlockId>,
}

impl TreeId {
    pub fn new(file: HirFileId, block: Option<BlockId>) -> TreeId
        ensures value { result ≡ record { file = file; block = block } }
    {
        TreeId { file, block }
    }

    /// What holds the syntax.
    pub fn file_id(self) -> HirFileId
        ensures value { result ≡ self.file }
    {
        self.file
    }

    /// Whether it is a block.
    pub fn is_block(self) -> bool
        ensures value { IsTrue result ↔ IsSome self.block }
    {
        self.block.is_some()
    }
}

/// A source under a crate.
#[derive(Clone, Copy, Debug, PartialEq, Eq, PartialOrd, Ord, Hash)]
pub struct TreeKey {
    pub krate: Crate,
    pub id: TreeId,
}
