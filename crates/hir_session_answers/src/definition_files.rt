//! The files in which modules are written.
ghost use Rattle.std.specs.Prelude.{◌≡◌};
ghost use Rattle.hir_session_state.specs.Standing.{definition_file, file_around, file_of_origin};

use crate::source_items::source_calls::{most_calls_in, node_of};
use hir_base::ast_id::{EditionedFileId, HirFileId};
use hir_base::ids::ModuleId;
use hir_session_state::hir_def_map::nameres::origin::ModuleOrigin;
use hir_session_state::kept::Kept;
use hir_tables::Tables;

/// The file in which syntax is written, or the outermost call around it.
fn outermost_file(tables: &Tables, file: HirFileId) -> Option<EditionedFileId>
    ensures value { result ≡ file_around tables.now file }
{
    let mut at = file;
    let mut left = most_calls_in(file);
    'calls: while let HirFileId::Macro(call) = at {
        if left == 0 {
            return None;
        }
        let Some(call) = tables.call(call) else {
            return None;
        };
        at = node_of(call.kind).file_id;
        left -= 1;
    }
    match at {
        HirFileId::File(file) => Some(file),
        HirFileId::Macro(_) => None,
    }
}

/// The file in which the items of a module are written, or the outermost call around them.
fn file_of(tables: &Tables, origin: ModuleOrigin) -> Option<EditionedFileId>
    ensures value { result ≡ file_of_origin tables.now origin }
{
    match origin {
        ModuleOrigin::CrateRoot { definition } => Some(definition),
        ModuleOrigin::File { definition, .. } => Some(definition),
        ModuleOrigin::Inline {
            definition_tree_id,
            ..
        } => outermost_file(tables, definition_tree_id.file),
        ModuleOrigin::BlockExpr { block, .. } => outermost_file(tables, block.file_id),
    }
}

/// The same of a module of a map that is kept.
pub fn definition_file_at(tables: &Tables, kept: &Kept, m: ModuleId) -> Option<EditionedFileId>
    ensures value { result ≡ definition_file tables.now kept.now m }
{
    let found = kept.get(m.map)?;
    let origin = found.map.origin(m.index)?;
    file_of(tables, origin)
}
