use crate::units::{holds, is_text, source_of};
use hir_base::edition::Edition;
use hir_base::mod_path::{ModPath, PathKind};
use hir_item_tree::expand::Import;
use hir_item_tree::shape::{ImportAlias, ImportKind};
use hir_item_tree::shared_path::SharedPath;
use hir_item_tree::source::{NodeKind, Source};
use hir_item_tree::use_tree::{UseTree, UseTreeKind};
use smallvec::SmallVec;
use std::alloc::{AllocError, Global};
use std::fmt::Write;
use std::process::Abort;
use std::test::Fail;

/// The imports that the tree hands out.
fn imports(alloc: Global, tree: &UseTree) -> Result<Vec<Import>, AllocError> {
    let mut imports = Vec::new(alloc);
    tree.expand(
        alloc,
        &mut |place: u32, path: SharedPath, kind: ImportKind, alias: Option<ImportAlias>| {
            imports.push(Import {
                place,
                path,
                kind,
                alias,
            })?;
            Ok(())
        },
    )?;
    Ok(imports)
}

/// Adds place, path, kind and alias of an import.
fn put_import(alloc: Global, text: &mut String, import: &Import) -> Result<(), AllocError> {
    let place = import.place;
    let kind = import.kind;
    let path = import.path.to_path(alloc)?;
    let path = path.display(Edition::Edition2021);
    write!(text, "{place} {path} {kind:?}")?;
    if let Some(alias) = &import.alias {
        let alias = alias.display(Edition::Edition2021);
        write!(text, " as {alias}")?;
    }
    write!(text, "; ")?;
    Ok(())
}

pub fn put_imports(alloc: Global, text: &mut String, imports: &[Import]) -> Result<(), AllocError> {
    for import in imports {
        put_import(alloc, text, import)?;
    }
    Ok(())
}

/// What the tree hands out: place, path, kind and alias of each import.
fn expanded(alloc: Global, tree: &UseTree) -> Result<String, AllocError> {
    let imports = imports(alloc, tree)?;
    let mut text = String::new(alloc);
    put_imports(alloc, &mut text, &imports)?;
    Ok(text)
}

/// A file with this `use` item alone.
pub fn use_item(alloc: Global, tree: &str) -> Result<Source, Fail> {
    let unit = format!(in alloc;
        "{{\"nodes\":[{{\"kind\":\"Use\",\"id\":[1,0],\"tree\":{tree}}}]}}"
    )?;
    source_of(alloc, unit.as_str())
}

/// The tree of the file's `use` item.
pub fn tree_of(source: &Source) -> Option<&UseTree> {
    let Source::Unit(unit) = source else {
        return None;
    };
    match &unit.nodes.first()?.kind {
        NodeKind::Use { tree } => Some(tree),
        _ => None,
    }
}

/// The tree of a `use` item again.
fn copied(alloc: Global, tree: &str) -> Result<UseTree, Fail> {
    let source = use_item(alloc, tree)?;
    match tree_of(&source) {
        Some(tree) => Ok(tree.clone()?),
        None => Err(Fail::new("no use item")),
    }
}

fn expanded_copy(alloc: Global, tree: &str) -> Result<String, Fail> {
    let copy = copied(alloc, tree)?;
    Ok(expanded(alloc, &copy)?)
}

/// Use trees, and what they hand out.
pub const USE_TREES: &[(&str, &str, &str)] = &[
    (
        "self_in_a_list_is_type_only",
        r#"{"path":"a","list":[{"single":"self"},{"glob":"b"}]}"#,
        "1 a TypeOnly; 2 a::b Glob; ",
    ),
    (
        "list_under_self_gives_nothing",
        r#"{"path":"a","list":[{"path":"self","list":[{"glob":null}]}]}"#,
        "",
    ),
    (
        "glob_under_self_globs_its_prefix",
        r#"{"path":"a","list":[{"glob":"self"}]}"#,
        "1 a Glob; ",
    ),
    (
        "supers_in_a_list_add_up",
        r#"{"path":"super","list":[{"single":"super::x"},{"single":"self"},{"single":"self::y"}]}"#,
        "1 super::super::x Plain; 2 super TypeOnly; ",
    ),
    (
        "rooted_paths_in_a_list_give_nothing",
        r#"{"path":"a","list":[{"path":"b","list":[{"single":"c","as":"d"},{"glob":null}]},{"single":"crate::e"},{"single":"::f"}]}"#,
        "2 a::b::c Plain as d; 3 a::b Glob; ",
    ),
    ("a path alone", r#"{"single":"self"}"#, "0 self Plain; "),
    (
        "a trait without a name",
        r#"{"single":"a::T","as":"_"}"#,
        "0 a::T Plain as _; ",
    ),
    ("a glob of nothing", r#"{"glob":null}"#, ""),
    (
        "places count lists that give nothing",
        r#"{"list":[{"path":"a","list":[]},{"path":"crate","list":[{"path":"::b","list":[{"glob":null},{"glob":null}]}]},{"single":"c"}]}"#,
        "6 c Plain; ",
    ),
    (
        "super after a name",
        r#"{"path":"a","list":[{"single":"super::b"}]}"#,
        "",
    ),
];

fn are_expanded(rt: &impl Abort, alloc: Global, rows: &[(&str, &str, &str)]) -> Result<(), Fail> {
    for &(row, tree, expected) in rows {
        let text = expanded_copy(alloc, tree)?;
        is_text(rt, row, text.as_str(), expected);
    }
    Ok(())
}

/// Which imports a use tree means, and so its copy.
#[test]
fn use_trees(rt: HostRuntime) -> Result<(), Fail> {
    are_expanded(&rt, rt.alloc(), USE_TREES)
}

/// So many levels of `super`, which a text can't write.
fn levels(alloc: Global, levels: u8) -> ModPath {
    ModPath::from_segments(PathKind::Super(levels), SmallVec::new(alloc))
}

/// Levels of `super` behind levels of `super`.
fn supers(alloc: Global, outer: u8, inner: u8) -> Result<UseTree, AllocError> {
    let leaf = UseTree::new(UseTreeKind::Single {
        path: levels(alloc, inner),
        alias: None,
    });
    let list = Vec::from_array(alloc, [leaf])?;
    let prefix = Some(levels(alloc, outer));
    Ok(UseTree::new(UseTreeKind::Prefixed { prefix, list }))
}

/// How many imports the tree hands out.
fn count(alloc: Global, tree: &UseTree) -> Result<u32, AllocError> {
    let mut imports = 0u32;
    tree.expand(
        alloc,
        &mut |_: u32, _: SharedPath, _: ImportKind, _: Option<ImportAlias>| {
            imports = imports.saturating_add(1);
            Ok(())
        },
    )?;
    Ok(imports)
}

fn count_supers(alloc: Global, outer: u8, inner: u8) -> Result<u32, AllocError> {
    let tree = supers(alloc, outer, inner)?;
    count(alloc, &tree)
}

/// Levels of `super`, levels behind them, and how many imports there are.
const LEVELS: &[(&str, u8, u8, u32)] = &[
    ("254 and 1", 254, 1, 1),
    ("255 and 1", 255, 1, 0),
    ("200 and 100", 200, 100, 0),
    ("0 and 255", 0, 255, 1),
];

/// Levels of `super` add up to 255 at most.
#[test]
fn levels_of_super(rt: HostRuntime) -> Result<(), Fail> {
    for &(row, outer, inner, expected) in LEVELS {
        let count = count_supers(rt.alloc(), outer, inner)?;
        holds(&rt, row, count == expected);
    }
    Ok(())
}
