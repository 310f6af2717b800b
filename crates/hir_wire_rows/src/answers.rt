//! Answers and places of blocks and calls, which sessions don't take yet.
use crate::items::item_below;
use hir_base::ast_id::{AstKind, SyntaxId};
use hir_base::file_path::FilePath;
use hir_base::ids::Crate;
use hir_item_tree::source::{Node, NodeKind};
use hir_wire::{
    Answer, AnswerItem, AnswerVisibility, Definition, ImportOrigin, ImportSource, ItemSource,
    Place, Places, SourceCall, SourceCallKind, SourceCalls, SourceItem, SourceKind, SourceRoot,
};
use std::alloc::{AllocError, Global};

const CALL: SyntaxId = SyntaxId { hash: 3, index: 0 };

/// A call, an attribute and a derive.
const CALLS: [SourceCall; 3] = [
    SourceCall {
        node: AstKind::MacroCall,
        id: CALL,
        kind: SourceCallKind::FnLike,
    },
    SourceCall {
        node: AstKind::Fn,
        id: CALL,
        kind: SourceCallKind::Attr { attr: 4 },
    },
    SourceCall {
        node: AstKind::Struct,
        id: CALL,
        kind: SourceCallKind::Derive { attr: 5, index: 6 },
    },
];

/// In a block, below these calls.
fn source_in(alloc: Global, at: &Place, calls: &[SourceCall]) -> Result<ItemSource, AllocError> {
    let calls = Vec::from_slice(alloc, calls)?;
    let root = SourceRoot::Block(at.clone()?);
    Ok(ItemSource {
        root,
        calls: SourceCalls::new(calls),
    })
}

/// A procedural macro below the calls.
fn makro(alloc: Global, at: &Place) -> Result<Definition, AllocError> {
    let source = source_in(alloc, at, &CALLS)?;
    Ok(Definition::Item {
        krate: Crate(1),
        item: SourceItem {
            source,
            kind: SourceKind::ProcMacro,
            id: SyntaxId { hash: 9, index: 8 },
        },
    })
}

/// The glob at place 12 of a `use`.
fn glob(alloc: Global, at: &Place) -> Result<ImportSource, AllocError> {
    let source = source_in(alloc, at, &[])?;
    Ok(ImportSource {
        source,
        id: SyntaxId { hash: 1, index: 0 },
        origin: ImportOrigin::Glob(12),
    })
}

fn imported_macro(alloc: Global, at: &Place) -> Result<AnswerItem, AllocError> {
    let import = glob(alloc, at)?;
    let def = makro(alloc, at)?;
    Ok(AnswerItem {
        def,
        import: Some(import),
        vis: AnswerVisibility::Module {
            explicit: true,
            module: Definition::CrateRoot(Crate(0)),
        },
    })
}

/// The root of the block, in the crate of the greatest number.
fn block_root(at: &Place) -> Result<AnswerItem, AllocError> {
    let place = at.clone()?;
    Ok(AnswerItem {
        def: Definition::BlockRoot {
            krate: at.krate(),
            place,
        },
        import: None,
        vis: AnswerVisibility::Crate(Crate(u32::MAX)),
    })
}

/// The block's root as a type, and a macro in it.
pub fn answer_in(alloc: Global, at: &Place) -> Result<Answer, AllocError> {
    let root = block_root(at)?;
    let makro = imported_macro(alloc, at)?;
    Ok(Answer {
        types: Some(root),
        values: None,
        macros: Some(makro),
        stop: Some(2),
    })
}

fn item_answer(
    alloc: Global,
    file: &FilePath,
    calls: &[Node],
    node: &Node,
) -> Result<AnswerItem, AllocError> {
    let item = item_below(alloc, file, calls, node)?;
    let krate = Crate(0);
    Ok(AnswerItem {
        def: Definition::Item { krate, item },
        import: None,
        vis: AnswerVisibility::Public,
    })
}

/// A node below the expansions of these calls: a macro, a function as a value, and all else as a type.
pub fn answer_below(
    alloc: Global,
    file: &FilePath,
    calls: &[Node],
    node: &Node,
) -> Result<Answer, AllocError> {
    let item = item_answer(alloc, file, calls, node)?;
    let (types, values, macros) = match &node.kind {
        NodeKind::MacroRules { .. } | NodeKind::MacroDef { .. } => (None, None, Some(item)),
        NodeKind::Fn { .. } => (None, Some(item), None),
        _ => (Some(item), None, None),
    };
    Ok(Answer {
        types,
        values,
        macros,
        stop: None,
    })
}

/// A crate's root, and this place.
pub fn places_with(alloc: Global, at: &Place) -> Result<Places, AllocError> {
    let mut places = Vec::new(alloc);
    places.push(Place::root(alloc, Crate(0)))?;
    places.push(at.clone()?)?;
    Ok(Places::new(places))
}
