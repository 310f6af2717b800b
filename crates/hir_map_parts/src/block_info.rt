//! Where a block is written.

use hir_base::ast_id::BlockId;
use hir_base::ids::ModuleId;

/// A block, and the module in which it is written.
#[derive(Clone, Copy, Debug, PartialEq, Eq, Hash)]
pub struct BlockInfo {
    pub block: BlockId,
    pub parent: ModuleId,
}
