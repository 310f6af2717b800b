//! A diagnostic of each node of a file.
use crate::items::item_below;
use hir_base::file_path::FilePath;
use hir_base::ids::Crate;
use hir_base::mod_path::ModPath;
use hir_base::text::Text;
use hir_item_tree::raw_attr::RawAttr;
use hir_item_tree::source::{Node, NodeKind};
use hir_wire::{
    CalledItem, Definition, Diagnostic, DiagnosticKind, Diagnostics, SourceCallKind, SourceItem,
};
use std::alloc::{AllocError, Global};

fn first_path(attrs: &Vec<RawAttr>) -> Option<&ModPath> {
    match attrs.first() {
        Some(RawAttr::Meta(meta)) => Some(&meta.path),
        _ => None,
    }
}

/// A call whose path names no macro.
fn unresolved(
    item: SourceItem,
    kind: SourceCallKind,
    path: &ModPath,
) -> Result<DiagnosticKind, AllocError> {
    let path = path.clone()?;
    let call = CalledItem { item, kind };
    Ok(DiagnosticKind::UnresolvedMacroCall { call, path })
}

fn macro_error(
    item: SourceItem,
    path: &ModPath,
    error: Text,
) -> Result<DiagnosticKind, AllocError> {
    let path = path.clone()?;
    Ok(DiagnosticKind::MacroError { error, item, path })
}

fn definition_error(item: SourceItem, message: Text) -> DiagnosticKind {
    DiagnosticKind::MacroDefError { item, message }
}

/// What may be wrong with a node of this kind.
fn kind_of(alloc: Global, node: &Node, item: SourceItem) -> Result<DiagnosticKind, AllocError> {
    match (&node.kind, first_path(&node.attrs)) {
        (NodeKind::MacroCall { path }, None) => unresolved(item, SourceCallKind::FnLike, path),
        (NodeKind::MacroCall { path }, Some(_)) => {
            macro_error(item, path, Text::from_str(alloc, node.input.as_str())?)
        }
        (NodeKind::Struct { .. }, Some(path)) => {
            unresolved(item, SourceCallKind::Attr { attr: 0 }, path)
        }
        (NodeKind::Enum { .. }, Some(path)) => {
            unresolved(item, SourceCallKind::Derive { attr: 2, index: 1 }, path)
        }
        (NodeKind::MacroRules { .. }, _) => Ok(DiagnosticKind::UnimplementedBuiltinMacro { item }),
        (
            NodeKind::MacroDef {
                name: _,
                definition,
            },
            _,
        ) => Ok(definition_error(item, Text::from_str(alloc, definition.text.as_str())?)),
        (NodeKind::Fn { .. }, _) => Ok(DiagnosticKind::InvalidDeriveTarget { attr: 0, item }),
        _ => Ok(DiagnosticKind::MalformedDerive { attr: 0, item }),
    }
}

fn diagnostic(
    alloc: Global,
    file: &FilePath,
    calls: &[Node],
    node: &Node,
) -> Result<Diagnostic, AllocError> {
    let kind = kind_of(alloc, node, item_below(alloc, file, calls, node)?)?;
    let in_module = Definition::CrateRoot(Crate(0));
    Ok(Diagnostic { in_module, kind })
}

pub fn diagnostics_of(
    alloc: Global,
    file: &FilePath,
    nodes: &[Node],
) -> Result<Diagnostics, AllocError> {
    let mut list = Vec::new(alloc);
    for node in nodes {
        list.push(diagnostic(alloc, file, &[], node)?)?;
    }
    Ok(Diagnostics::new(list))
}

/// The diagnostic of one node, below the expansions of these calls.
pub fn diagnostics_below(
    alloc: Global,
    file: &FilePath,
    calls: &[Node],
    node: &Node,
) -> Result<Diagnostics, AllocError> {
    let mut list = Vec::new(alloc);
    list.push(diagnostic(alloc, file, calls, node)?)?;
    Ok(Diagnostics::new(list))
}
