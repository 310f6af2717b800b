//! What holds syntax, through the calls whose expansions lead to it.
ghost use Rattle.std.specs.Prelude.{◌≡◌, IfOk, option_map};
ghost use Rattle.hir_session_state.specs.HirDefMapRules.Diagnostics.{call_node};
ghost use Rattle.hir_session_state.specs.Standing.{most_calls};
ghost use Rattle.hir_session_answers.specs.SourceCalls.{and_calls, call_kind, root_in, rooted, source_call, source_of};

use hir_base::ast_id::{AstId, BlockId, HirFileId};
use hir_base::macro_kind::MacroCallKind;
use hir_session_sources::blocks::root_of_block;
use hir_session_state::hir_messages::answer::{
    ItemSource, SourceCall, SourceCallKind, SourceCalls, SourceRoot,
};
use hir_tables::Tables;
use std::alloc::{AllocError, Global};

/// How a macro is called.
pub fn how(call: MacroCallKind) -> SourceCallKind
    ensures value { result ≡ call_kind call }
{
    match call {
        MacroCallKind::FnLike { .. } => SourceCallKind::FnLike,
        MacroCallKind::Derive { attr, index, .. } => SourceCallKind::Derive {
            attr: attr.0,
            index,
        },
        MacroCallKind::Attr { attr, .. } => SourceCallKind::Attr { attr: attr.0 },
    }
}

/// The called or decorated node.
pub fn node_of(call: MacroCallKind) -> AstId
    ensures value { result ≡ call_node call }
{
    match call {
        MacroCallKind::FnLike { ast }
        | MacroCallKind::Derive { ast, .. }
        | MacroCallKind::Attr { ast, .. } => ast,
    }
}

/// A call, by its node in what holds it.
fn call_at(call: MacroCallKind) -> SourceCall
    ensures value { result ≡ source_call call }
{
    let node = node_of(call);
    SourceCall {
        node: node.kind,
        id: node.id,
        kind: how(call),
    }
}

/// How many calls can stand in one another.
pub fn most_calls_in(file: HirFileId) -> u64
    ensures value { result ≡ most_calls file }
{
    match file {
        HirFileId::File(_) => 0,
        HirFileId::Macro(call) => call.0 as u64 + 1,
    }
}

/// What holds syntax outside of all calls: a file or a block of the tables.
fn root_at(
    alloc: Global,
    tables: &Tables,
    file: HirFileId,
    block: Option<BlockId>,
) -> Result<Option<SourceRoot>, AllocError>
    ensures value { IfOk result (λ root. root ≡ root_in tables.now file block) }
{
    if let Some(block) = block {
        return match tables.block(block) {
            Some(place) => Ok(Some(SourceRoot::Block(root_of_block(alloc, place)?))),
            None => Ok(None),
        };
    }
    let HirFileId::File(file) = file else {
        return Ok(None);
    };
    match tables.file(file.file_id) {
        Some(path) => Ok(Some(SourceRoot::File(path.clone()?))),
        None => Ok(None),
    }
}

/// What stands in the expansions of these calls, the innermost first, the outermost of which is written here.
fn source_from(
    alloc: Global,
    tables: &Tables,
    file: HirFileId,
    block: Option<BlockId>,
    calls: Vec<SourceCall>,
) -> Result<Option<ItemSource>, AllocError>
    ensures value { IfOk result (λ o. o ≡ option_map (and_calls calls.items) (rooted (root_in tables.now file block))) }
{
    let mut calls = calls;
    match root_at(alloc, tables, file, block)? {
        Some(root) => {
            calls.reverse();
            Ok(Some(ItemSource {
                root,
                calls: SourceCalls::new(calls),
            }))
        }
        None => Ok(None),
    }
}

/// What holds syntax, where it is a file or a block of the tables, or is expanded in one through calls.
pub fn source_at(
    alloc: Global,
    tables: &Tables,
    file: HirFileId,
    block: Option<BlockId>,
) -> Result<Option<ItemSource>, AllocError>
    ensures value { IfOk result (λ o. o ≡ source_of tables.now file block) }
{
    let mut calls = Vec::new(alloc);
    let mut at = file;
    let mut within = block;
    let mut left = most_calls_in(file);
    'calls: while let HirFileId::Macro(call) = at {
        if within.is_some() {
            return source_from(alloc, tables, at, within, calls);
        }
        if left == 0 {
            return Ok(None);
        }
        let Some(call) = tables.call(call) else {
            return Ok(None);
        };
        calls.push(call_at(call.kind))?;
        let node = node_of(call.kind);
        at = node.file_id;
        within = node.block;
        left -= 1;
    }
    source_from(alloc, tables, at, within, calls)
}
