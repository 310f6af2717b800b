//! How many expansions are around syntax.
ghost use Rattle.std.specs.Prelude.{◌≡◌};
ghost use Rattle.hir_collector_rules.specs.HirDefMapRules.Diagnostics.{call_node};
ghost use Rattle.hir_assoc_items.specs.Depth.{call_around, expansions_around, most_around};

use hir_base::ast_id::{AstId, BlockId, HirFileId};
use hir_base::macro_kind::MacroCallKind;
use hir_tables::Tables;

/// The node of a call.
fn node_of(call: MacroCallKind) -> AstId
    ensures value { result ≡ call_node call }
{
    match call {
        MacroCallKind::FnLike { ast }
        | MacroCallKind::Derive { ast, .. }
        | MacroCallKind::Attr { ast, .. } => ast,
    }
}

/// The node of the call whose expansion writes it; none where a file or a block writes it.
fn call_around(locations: &Tables, file: HirFileId, block: Option<BlockId>) -> Option<AstId>
    ensures value { result ≡ call_around locations.now file block }
{
    match (file, block) {
        (HirFileId::Macro(call), None) => match locations.call(call) {
            Some(loc) => Some(node_of(loc.kind)),
            None => None,
        },
        (HirFileId::File(_), None) | (_, Some(_)) => None,
    }
}

/// How many calls can be in one another around what a file, or an expansion, writes.
fn most_around(file: HirFileId) -> u64
    ensures value { result ≡ most_around file }
{
    match file {
        HirFileId::File(_) => 0,
        HirFileId::Macro(call) => u64::from(call.0) + 1,
    }
}

/// How many expansions are around what a file, a block or an expansion writes.
pub fn expansions_around(locations: &Tables, file: HirFileId, block: Option<BlockId>) -> u64
    ensures value { result ≡ expansions_around locations.now file block }
{
    let mut at = file;
    let mut within = block;
    let mut left = most_around(file);
    let mut around: u64 = 0;
    'outwards: while left > 0 {
        let Some(node) = call_around(locations, at, within) else {
            return around;
        };
        at = node.file_id;
        within = node.block;
        around += 1;
        left -= 1;
    }
    around
}
