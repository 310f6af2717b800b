use crate::units::source_of;
use hir_base::ast_id::{AstKind, BlockId, EditionedFileId, FileId, HirFileId, SyntaxId};
use hir_base::cfg_options::CfgOptions;
use hir_base::edition::Edition;
use hir_base::ids::Crate;
use hir_item_tree::check::NodeId;
use hir_item_tree::source::Source;
use hir_item_tree::source_tree::SourceTree;
use hir_item_tree::tree_id::{TreeId, TreeKey};
use hir_item_tree::trees::{KeptTree, Trees};
use std::alloc::{AllocError, Global};
use std::process::Abort;
use std::rc::Rc;
use std::test::Fail;

fn id(index: u16) -> SyntaxId {
    SyntaxId { hash: 1, index }
}

/// An enum with a disabled variant, an impl with an item that it doesn't keep, and a macro.
const UNIT: &str = r#"{"nodes":[
    {"kind":"Enum","id":[1,0],"vis":"pub","name":"E","variants":[
        {"id":[1,1],"name":"A","attrs":[{"path":"cfg","cfg":false}]},
        {"id":[1,2],"name":"A","attrs":[{"path":"cfg","cfg":true}]}
    ]},
    {"kind":"Impl","id":[1,3],"vis":"pub","trait":false,"items":[
        {"kind":"TypeAlias","id":[1,4],"vis":"pub","name":"A"},
        {"kind":"Struct","id":[1,5],"vis":"pub","name":"S","input":"struct S;"}
    ]},
    {"kind":"MacroRules","id":[1,6],"vis":"pub","name":"m","text":"() => {}"}
]}"#;

/// The enum with another variant, in a tree that is the same.
const OTHER_UNIT: &str = r#"{"nodes":[
    {"kind":"Enum","id":[1,0],"vis":"pub","name":"E","variants":[{"id":[1,2],"name":"B"}]},
    {"kind":"Impl","id":[1,3],"vis":"pub","trait":false,"items":[]},
    {"kind":"MacroRules","id":[1,6],"vis":"pub","name":"m","text":""}
]}"#;

fn key(krate: u32, file: u32) -> TreeKey {
    let file = HirFileId::File(EditionedFileId {
        file_id: FileId(file),
        edition: Edition::Edition2021,
    });
    TreeKey {
        krate: Crate(krate),
        id: TreeId::new(file, None),
    }
}

fn of(kind: AstKind, index: u16) -> NodeId {
    let id = id(index);
    NodeId { kind, id }
}

fn shared(alloc: Global, tree: SourceTree) -> Result<Rc<SourceTree>, AllocError> {
    Ok(Rc::new(alloc, tree)?)
}

/// What a source has, without options and without a crate's attributes.
fn tree_of(alloc: Global, source: Option<&Source>) -> Result<SourceTree, AllocError> {
    let front = Vec::new(alloc);
    let options = CfgOptions::new(alloc);
    SourceTree::new(alloc, source, &front, &options)
}

fn tree_with(alloc: Global, unit: &str) -> Result<Rc<SourceTree>, Fail> {
    let source = source_of(alloc, unit)?;
    Ok(shared(alloc, tree_of(alloc, Some(&source))?)?)
}

/// What a source has that isn't there.
fn absent_tree(alloc: Global) -> Result<Rc<SourceTree>, AllocError> {
    shared(alloc, tree_of(alloc, None)?)
}

/// The indices of the variants of the enum, if there is one alone.
fn only_variant(trees: &Trees) -> Option<u16> {
    match trees.side_variants(key(0, 0), id(0)) {
        Some([variant]) => Some(variant.id.index),
        _ => None,
    }
}

/// That of the item of the impl.
fn only_item(trees: &Trees) -> Option<u16> {
    match trees.side_assoc(key(0, 0), of(AstKind::Impl, 3)) {
        Some([item]) => Some(item.id.index),
        _ => None,
    }
}

fn has_texts(rt: &impl Abort, trees: &Trees) {
    let rules = of(AstKind::MacroRules, 6);
    assert!(rt; trees.side_text(key(0, 0), rules) == Some("() => {}"));
    let inside = of(AstKind::Struct, 5);
    assert!(rt; trees.side_input(key(0, 0), inside) == Some("struct S;"));
    assert!(rt; trees.side_input(key(0, 0), of(AstKind::Fn, 5)).is_none());
    assert!(rt; trees.side_text(key(0, 0), inside).is_none());
    assert!(rt; trees.get(key(0, 1)).is_none());
}

/// How many items there are at the top of a source.
fn items_of(trees: &Trees, key: TreeKey) -> Option<usize> {
    match trees.get(key) {
        Some(tree) => Some(tree.tree().top_level_items().len()),
        None => None,
    }
}

fn items_of_id(trees: &Trees, id: TreeId) -> Option<usize> {
    match id.item_tree(trees, Crate(0)) {
        Some(tree) => Some(tree.top_level_items().len()),
        None => None,
    }
}

/// What is kept of ids under crates.
fn has_tree_of_id(rt: &impl Abort, trees: &Trees) {
    let source = key(0, 3).id;
    assert!(rt; items_of_id(trees, source) == Some(3));
    assert!(rt; source.item_tree(trees, Crate(1)).is_none());
    let block = TreeId::new(source.file_id(), Some(BlockId(1)));
    assert!(rt; block.item_tree(trees, Crate(0)).is_none());
}

fn has_what_is_kept(rt: &impl Abort, trees: &Trees) {
    assert!(rt; items_of(trees, key(0, 0)) == Some(3));
    assert!(rt; only_variant(trees) == Some(2));
    assert!(rt; only_item(trees) == Some(4));
    has_texts(rt, trees);
    has_tree_of_id(rt, trees);
}

fn loses_what_is_removed(rt: &impl Abort, trees: &mut Trees) {
    trees.remove(key(0, 0));
    let inside = of(AstKind::Struct, 5);
    assert!(rt; trees.side_input(key(0, 0), inside).is_none());
}

/// Two sources that are kept under crate 0.
fn keep_sources(alloc: Global, trees: &mut Trees) -> Result<(), Fail> {
    trees.set(key(0, 0), tree_with(alloc, UNIT)?)?;
    trees.set(key(0, 3), tree_with(alloc, UNIT)?)?;
    Ok(())
}

fn keeps_sources(rt: &impl Abort, alloc: Global, trees: &mut Trees) -> Result<(), Fail> {
    keep_sources(alloc, trees)?;
    has_what_is_kept(rt, trees);
    loses_what_is_removed(rt, trees);
    Ok(())
}

/// What is kept beside a tree, and that nothing is after it was removed.
#[test]
fn side_lists_by_node(rt: HostRuntime) -> Result<(), Fail> {
    let alloc = rt.alloc();
    let mut trees = Trees::new(alloc);
    keeps_sources(&rt, alloc, &mut trees)
}

fn keep_two(rt: &impl Abort, alloc: Global, trees: &mut Trees) -> Result<(), Fail> {
    assert!(rt; !trees.replace(key(1, 0), absent_tree(alloc)?));
    trees.set(key(2, 0), tree_with(alloc, UNIT)?)?;
    trees.set(key(1, 0), tree_with(alloc, UNIT)?)?;
    Ok(())
}

/// The crates that asked for a source.
fn crates_of(alloc: Global, trees: &Trees, id: TreeId) -> Result<Vec<u32>, AllocError> {
    let mut numbers = Vec::new(alloc);
    if let Some(kept) = trees.crates(id) {
        for (krate, _) in kept {
            numbers.push(krate.0)?;
        }
    }
    Ok(numbers)
}

fn has_crates(rt: &impl Abort, alloc: Global, trees: &Trees) -> Result<(), AllocError> {
    assert!(rt; trees.crates(key(0, 1).id).is_none());
    let numbers = crates_of(alloc, trees, key(0, 0).id)?;
    assert!(rt; numbers.as_slice() == [1, 2].as_slice());
    Ok(())
}

fn is_present(trees: &Trees, key: TreeKey) -> Option<bool> {
    match trees.get(key) {
        Some(tree) => Some(tree.is_present()),
        None => None,
    }
}

fn has_replaced(rt: &impl Abort, trees: &Trees) {
    assert!(rt; is_present(trees, key(1, 0)) == Some(false));
    assert!(rt; is_present(trees, key(2, 0)) == Some(true));
}

fn keeps_two(rt: &impl Abort, alloc: Global, trees: &mut Trees) -> Result<(), Fail> {
    keep_two(rt, alloc, trees)?;
    has_crates(rt, alloc, trees)?;
    assert!(rt; trees.replace(key(1, 0), absent_tree(alloc)?));
    has_replaced(rt, trees);
    Ok(())
}

/// A source under two crates, found by the source alone, and replaced under one of them.
#[test]
fn crates_that_asked_for_a_source(rt: HostRuntime) -> Result<(), Fail> {
    let alloc = rt.alloc();
    let mut trees = Trees::new(alloc);
    keeps_two(&rt, alloc, &mut trees)
}

fn have_other_variants(rt: &impl Abort, tree: &SourceTree, other: &SourceTree) {
    assert!(rt; tree.has_same_tree(other));
    assert!(rt; !tree.has_same_variants(other, id(0)));
    assert!(rt; tree.has_same_variants(tree, id(0)));
    assert!(rt; tree.has_same_variants(other, id(9)));
}

fn have_no_variants(rt: &impl Abort, absent: &SourceTree, empty: &SourceTree) {
    assert!(rt; !absent.has_same_tree(empty));
    assert!(rt; absent.has_same_variants(empty, id(0)));
}

/// A tree and the variants of an enum, compared apart.
#[test]
fn what_two_sources_have(rt: HostRuntime) -> Result<(), Fail> {
    let tree = tree_with(rt.alloc(), UNIT)?;
    let other = tree_with(rt.alloc(), OTHER_UNIT)?;
    have_other_variants(&rt, &tree, &other);
    Ok(())
}

#[test]
fn what_absent_and_empty_sources_have(rt: HostRuntime) -> Result<(), Fail> {
    let absent = absent_tree(rt.alloc())?;
    let empty = tree_with(rt.alloc(), r#"{"nodes":[]}"#)?;
    have_no_variants(&rt, &absent, &empty);
    Ok(())
}

/// The ids of a source and of a block in it.
#[test]
fn ids_of_a_source_and_a_block(rt: HostRuntime) {
    let source = key(0, 3).id;
    assert!(rt; !source.is_block());
    let block = TreeId::new(source.file_id(), Some(BlockId(1)));
    assert!(rt; block.is_block());
    assert!(rt; block.file_id() == source.file_id());
}
