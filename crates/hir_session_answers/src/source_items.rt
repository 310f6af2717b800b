//! The source items for which ids stand.
ghost use Rattle.std.specs.Prelude.{◌≡◌, IfOk};
ghost use Rattle.hir_session_answers.specs.SourceItems.{item_of};

pub mod definitions;
pub mod imports;
pub mod source_calls;
pub mod visibilities;

use self::source_calls::source_at;
use hir_base::ast_id::{BlockId, HirFileId, SyntaxId};
use hir_base::ids::Crate;
use hir_session_state::hir_messages::answer::{Definition, SourceItem, SourceKind};
use hir_tables::Tables;
use std::alloc::{AllocError, Global};

/// An item of a crate, by what holds it and its node there.
fn item_at(
    alloc: Global,
    tables: &Tables,
    krate: Crate,
    kind: SourceKind,
    file: HirFileId,
    block: Option<BlockId>,
    id: SyntaxId,
) -> Result<Option<Definition>, AllocError>
    ensures value { IfOk result (λ o. o ≡ item_of tables.now krate kind file block id) }
{
    match source_at(alloc, tables, file, block)? {
        Some(source) => Ok(Some(Definition::Item {
            krate,
            item: SourceItem { source, kind, id },
        })),
        None => Ok(None),
    }
}
